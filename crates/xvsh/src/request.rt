//! The request that the words of a command line make.
ghost use Rattle.std.specs.Prelude.{◌≡◌, ◌≢◌, None, Some, IfSome, codes};
ghost use Rattle.clap.specs.Matches.{found_of, subcommand_name_of};
ghost use Rattle.xvsh.specs.Words.{AreInputsOf, IsScriptOf, IsTextOf, path_beside, IsCheckOf, IsDrawOf, IsExplainOf, IsExploreOf, IsFlag, IsNamed, IsNumber, IsNumberOrNone, IsPath, ArePaths, IsPlainOf, IsReplayOf, IsRequestOf, IsRunOf, IsSourceOf, IsWord, default_harts, tells_why};

use clap::ArgMatches;
use script_load::Profile;
use xvsh_ends::{
    Bounds, CheckRequest, DrawRequest, ExplainRequest, ExploreRequest, Lists, PlainRequest,
    ReplayRequest, Request, RunRequest,
};
use xvsh_read::{Inputs, STDIN, Source, TEXT_PATH, profile_of};

/// How many harts a run has, if the words name none (own).
const HARTS: u8 = 4;

/// The most states of an exploration, if the words name none (own).
pub const STATES: u64 = 200_000;

// Whether a flag is among the words.
fn flag_of(words: &ArgMatches<'_>, name: &str) -> bool
    ensures { IsFlag (found_of words.now) name.now result }
{
    words.get_flag(name)
}

// The path under a name; `-` where there is none.
fn path_of<'m>(words: &'m ArgMatches<'_>, name: &str) -> &'m str
    ensures { IsPath (found_of words.now) name.now result.now }
{
    match words.get_str(name) {
        Some(path) => path,
        None => STDIN,
    }
}

// The paths of the script's files.
fn files_of<'m>(words: &'m ArgMatches<'_>) -> &'m [&'m str]
    ensures { ArePaths (found_of words.now) (codes "paths") result.now }
{
    words.get_strs("paths").unwrap_or(&[])
}

// The word of the standard input, if there is one.
fn input_of<'m>(words: &'m ArgMatches<'_>) -> Option<&'m str>
    ensures { IsWord (found_of words.now) (codes "input") result }
{
    words.get_str("input")
}

/// The path by which standard input is read where the words give the script another one.
pub const OWN_INPUT: &str = "/dev/stdin";

// The path at which this one's bytes are: where the words give a standard input, `-` is that of the program itself.
fn path_beside<'m>(is_given: bool, path: &'m str) -> &'m str
    ensures { result.now ≡ path_beside is_given path.now }
{
    if is_given && path == STDIN {
        OWN_INPUT
    } else {
        path
    }
}

// The path of the script.
fn script_of<'m>(words: &'m ArgMatches<'_>) -> &'m str
    ensures { IsScriptOf (found_of words.now) result.now }
{
    if flag_of(words, "text") {
        TEXT_PATH
    } else {
        path_beside(input_of(words).is_some(), path_of(words, "script"))
    }
}

// The script, its files and its profile.
fn source_of<'m>(words: &'m ArgMatches<'_>) -> Source<'m>
    ensures { IsSourceOf (found_of words.now) result }
{
    Source {
        profile: profile_of(flag_of(words, "append")),
        script: script_of(words),
        files: files_of(words),
    }
}

// How many harts a run has if the words don't say: one, where they say in which order its processes take their turns.
fn default_harts(order: Option<&str>, seed: Option<u64>) -> u8
    ensures { result ≡ default_harts order.entry seed }
{
    match (order, seed) {
        (None, None) => HARTS,
        _ => 1,
    }
}

fn harts_of(words: &ArgMatches<'_>, default: u8) -> u8
    ensures { IsNumber 8 default (found_of words.now) (codes "harts") result }
{
    match words.get_one::<u8>("harts") {
        Some(harts) => harts,
        None => default,
    }
}

fn states_of(words: &ArgMatches<'_>) -> u64
    ensures { IsNumber 64 STATES (found_of words.now) (codes "states") result }
{
    match words.get_one::<u64>("states") {
        Some(states) => states,
        None => STATES,
    }
}

// The path of the trace, if there is to be one.
fn trace_of<'m>(words: &'m ArgMatches<'_>) -> Option<&'m str>
    ensures { IsWord (found_of words.now) (codes "trace") result }
{
    words.get_str("trace")
}

// The path of the schedule, if it is to be written.
fn schedule_to_of<'m>(words: &'m ArgMatches<'_>) -> Option<&'m str>
    ensures { IsWord (found_of words.now) (codes "schedule-to") result }
{
    words.get_str("schedule-to")
}

// The path of the folder for the files, if there is to be one.
fn files_to_of<'m>(words: &'m ArgMatches<'_>) -> Option<&'m str>
    ensures { IsWord (found_of words.now) (codes "files-to") result }
{
    words.get_str("files-to")
}

// The word of the order of the turns, if there is one.
fn order_of<'m>(words: &'m ArgMatches<'_>) -> Option<&'m str>
    ensures { IsWord (found_of words.now) (codes "order") result }
{
    words.get_str("order")
}

// The number under a name, if there is one.
fn number_of(words: &ArgMatches<'_>, name: &str) -> Option<u64>
    ensures { IsNumberOrNone (found_of words.now) name.now result }
{
    words.get_one::<u64>(name)
}

// The path of the folder for schedules, if there is to be one.
fn witness_of<'m>(words: &'m ArgMatches<'_>) -> Option<&'m str>
    ensures { IsWord (found_of words.now) (codes "witness") result }
{
    words.get_str("witness")
}

// The path of the page of two outcomes, if there is to be one.
fn page_of<'m>(words: &'m ArgMatches<'_>) -> Option<&'m str>
    ensures { IsWord (found_of words.now) (codes "draw") result }
{
    words.get_str("draw")
}

// The path of the page to play, if there is to be one.
fn play_of<'m>(words: &'m ArgMatches<'_>) -> Option<&'m str>
    ensures { IsWord (found_of words.now) (codes "play") result }
{
    words.get_str("play")
}

// The word of the two outcomes that are shown, if there is one.
fn pair_of<'m>(words: &'m ArgMatches<'_>) -> Option<&'m str>
    ensures { IsWord (found_of words.now) (codes "pair") result }
{
    words.get_str("pair")
}

fn run_of<'m>(words: &'m ArgMatches<'_>) -> RunRequest<'m>
    ensures { IsRunOf (found_of words.now) result }
{
    let order = order_of(words);
    let seed = number_of(words, "seed");
    RunRequest {
        source: source_of(words),
        harts: harts_of(words, default_harts(order, seed)),
        turns: number_of(words, "turns"),
        order,
        seed,
        lists: Lists {
            files: flag_of(words, "files"),
            events: flag_of(words, "schedule"),
        },
        is_strict: flag_of(words, "strict"),
        schedule_to: schedule_to_of(words),
        files_to: files_to_of(words),
        trace: trace_of(words),
        is_lined: flag_of(words, "lines"),
        is_json: flag_of(words, "json"),
    }
}

fn replay_of<'m>(words: &'m ArgMatches<'_>) -> ReplayRequest<'m>
    ensures { IsReplayOf (found_of words.now) result }
{
    ReplayRequest {
        schedule: path_beside(input_of(words).is_some(), path_of(words, "events")),
        source: source_of(words),
        lists: Lists {
            files: flag_of(words, "files"),
            events: false,
        },
        files_to: files_to_of(words),
        trace: trace_of(words),
        is_lined: flag_of(words, "lines"),
        is_json: flag_of(words, "json"),
    }
}

fn plain_of<'m>(words: &'m ArgMatches<'_>) -> PlainRequest<'m>
    ensures { IsPlainOf (found_of words.now) result }
{
    PlainRequest {
        source: source_of(words),
        lists_files: flag_of(words, "files"),
        files_to: files_to_of(words),
        is_strict: flag_of(words, "strict"),
        is_json: flag_of(words, "json"),
        finds_diagnostics: flag_of(words, "diagnostics"),
    }
}

fn check_of<'m>(words: &'m ArgMatches<'_>) -> CheckRequest<'m>
    ensures { IsCheckOf (found_of words.now) result }
{
    CheckRequest {
        script: script_of(words),
        files: files_of(words),
        counts_turns: flag_of(words, "turns"),
        tells_room: flag_of(words, "room"),
        is_strict: flag_of(words, "strict"),
        is_json: flag_of(words, "json"),
    }
}

// Whether it is printed why a script is settled: where that is requested, or the words give a standard input or files.
fn tells_why(is_asked: bool, input: Option<&str>, files: &[&str]) -> bool
    ensures { result ≡ tells_why is_asked input.entry files.now }
{
    match (input, files.split_first()) {
        (None, None) => is_asked,
        _ => true,
    }
}

fn explain_of<'m>(words: &'m ArgMatches<'_>) -> ExplainRequest<'m>
    ensures { IsExplainOf (found_of words.now) result }
{
    let source = source_of(words);
    ExplainRequest {
        source,
        tells_why: tells_why(flag_of(words, "why"), input_of(words), source.files),
        fixes: flag_of(words, "fix"),
        is_json: flag_of(words, "json"),
    }
}

fn explore_of<'m>(words: &'m ArgMatches<'_>) -> ExploreRequest<'m>
    ensures { IsExploreOf (found_of words.now) result }
{
    ExploreRequest {
        source: source_of(words),
        states: states_of(words),
        is_thorough: flag_of(words, "all"),
        is_full: flag_of(words, "full"),
        witness: witness_of(words),
        draw: page_of(words),
        play: play_of(words),
        pair: pair_of(words),
        is_json: flag_of(words, "json"),
        input: input_of(words),
        text: text_of(words),
    }
}

// The number of an event, if there is one; at most as large as a place can be.
fn event_in(words: &ArgMatches<'_>, name: &str) -> Option<usize>
    ensures { IsNumberOrNone (found_of words.now) name.now result }
{
    let number = words.get_one::<u64>(name)?;
    Some(usize::try_from(number).unwrap_or(usize::MAX))
}

fn draw_of<'m>(words: &'m ArgMatches<'_>) -> DrawRequest<'m>
    ensures { IsDrawOf (found_of words.now) result }
{
    DrawRequest {
        trace: path_of(words, "trace"),
        other: words.get_str("other"),
        bounds: Bounds {
            from: event_in(words, "from"),
            to: event_in(words, "to"),
        },
        is_svg: flag_of(words, "svg"),
    }
}

/// The request that parsed words make: the command that they name, with its words and, where they name none, `-` for a path,
/// 4 harts and 200,000 states. `None` where they name no command.
pub fn request_of<'m>(matches: &'m ArgMatches<'_>) -> Option<Request<'m>>
    ensures request { IfSome result (IsRequestOf matches.now) }
    ensures none { result ≡ None → IsNamed (subcommand_name_of matches.now) → ⊥ }
{
    if let Some(words) = matches.subcommand_matches("run") {
        Some(Request::Run(run_of(words)))
    } else if let Some(words) = matches.subcommand_matches("replay") {
        Some(Request::Replay(replay_of(words)))
    } else if let Some(words) = matches.subcommand_matches("plain") {
        Some(Request::Plain(plain_of(words)))
    } else if let Some(words) = matches.subcommand_matches("check") {
        Some(Request::Check(check_of(words)))
    } else if let Some(words) = matches.subcommand_matches("explain") {
        Some(Request::Explain(explain_of(words)))
    } else if let Some(words) = matches.subcommand_matches("explore") {
        Some(Request::Explore(explore_of(words)))
    } else if let Some(words) = matches.subcommand_matches("draw") {
        Some(Request::Draw(draw_of(words)))
    } else {
        None
    }
}

// The script that is among the words of a command, if it is.
fn text_of<'m>(words: &'m ArgMatches<'_>) -> Option<&'m str>
    ensures { IsTextOf (found_of words.now) result }
{
    if flag_of(words, "text") {
        Some(path_of(words, "script"))
    } else {
        None
    }
}

/// Where parsed words say that standard input and the script come from, by the words of the command that they name. Without a
/// command both come from the host.
pub fn inputs_of<'m>(matches: &'m ArgMatches<'_>) -> Inputs<'m>
    ensures { AreInputsOf matches.now result }
{
    match matches.subcommand() {
        Some((_, words)) => Inputs {
            input: input_of(words),
            text: text_of(words),
        },
        None => Inputs {
            input: None,
            text: None,
        },
    }
}
