//! The program: its words go in, and what is due comes out, with its status.

ghost use Rattle.std.specs.Prelude.{◌≡◌, ◌≢◌, [], codes, false, map, string_bytes, IfOk};
ghost use Rattle.xvsh_read.specs.Console.{known};
ghost use Rattle.xvsh_read.specs.Writing.{out_text};
ghost use Rattle.xvsh_ends.specs.Ends.{Asked, IsDue, asks_plain};
ghost use Rattle.xvsh_ends.specs.Requests.{EndsAt};
ghost use Rattle.xvsh.specs.Drive.{EndsOn, IsAskedBy, IsDueGiven, IsDueOn, WritesMeaning, completed, help_words};
ghost use Rattle.xvsh_read.specs.Given.{Sight};
ghost use Rattle.xvsh_read.specs.Status.{status_code};

use crate::hints::name_hints_of;
use crate::parsing::parsed_words;
use crate::request::{inputs_of, request_of};
use clap::ArgMatches;
use dead_lines::hints_of;
use script_load::Profile;
use std::alloc::{AllocError, Global};
use std::io::Write;
use std::sync::Wait;
use std::thread::Threads;
use std::time::Clock;
use xvsh_ends::{
    Ending, Line, PlainRequest, Request, ending_of, hint_of, report, report_no_memory,
    unread_ending, write_ending,
};
use xvsh_explores::Watch;
use xvsh_read::{Console, Given, Hints, Host, Inputs, STDIN, Source, Status, Traces, read_given};

// How the request ends with the standard input and the script that the words give, if they do.
fn given_ending<R: Threads + Wait + Clock + Sync, H: Host + Traces + Watch>(
    rt: &R,
    alloc: Global,
    request: &Request<'_>,
    inputs: &Inputs<'_>,
    host: &mut H,
) -> Ending
    ensures due { IsDueGiven (H.input host.old) (H.file host.old) inputs.now request.now result }
    ensures nothing { status_code result.status ≢ 0 → status_code result.status ≢ 1 → status_code result.status ≢ 3 → status_code result.status ≢ 4 → out_text result.output ≡ [] }
{
    match read_given(alloc, host, inputs.input) {
        Ok(input) => {
            let mut given = Given {
                host,
                input,
                text: inputs.text,
            };
            ending_of(rt, alloc, request, &mut given)
        }
        Err(fault) => unread_ending(alloc, request, fault),
    }
}

// How the request ends that parsed words make.
fn command_ending<R: Threads + Wait + Clock + Sync, H: Host + Traces + Watch>(
    rt: &R,
    alloc: Global,
    matches: &ArgMatches<'_>,
    host: &mut H,
) -> Ending
    ensures due { (sight : Sight) × (asked : Asked) × IsAskedBy (H.input host.old) (H.file host.old) matches.now sight asked × IsDue sight.input sight.file asked result }
    ensures nothing { status_code result.status ≢ 0 → status_code result.status ≢ 1 → status_code result.status ≢ 3 → status_code result.status ≢ 4 → out_text result.output ≡ [] }
{
    match request_of(matches) {
        Some(request) => given_ending(rt, alloc, &request, &inputs_of(matches), host),
        None => report(alloc, Line::Fixed(""), Status::Misused),
    }
}

// How the program ends on these words, of which there is one.
fn words_ending<R: Threads + Wait + Clock + Sync, H: Host + Traces + Watch>(
    rt: &R,
    alloc: Global,
    words: &[String],
    host: &mut H,
) -> Ending
    ensures due { IsDueOn (H.input host.old) (H.file host.old) (map string_bytes words.now) result }
    ensures nothing { status_code result.status ≢ 0 → status_code result.status ≢ 1 → status_code result.status ≢ 3 → status_code result.status ≢ 4 → out_text result.output ≡ [] }
{
    match parsed_words(alloc, words) {
        Ok(matches) => command_ending(rt, alloc, &matches, host),
        Err(ending) => ending,
    }
}

// How it ends without words: as `plain -`.
fn no_words_ending<R: Threads + Wait + Clock + Sync, H: Host + Traces + Watch>(
    rt: &R,
    alloc: Global,
    host: &mut H,
) -> Ending
    ensures due { IsDue (H.input host.old) (H.file host.old) (asks_plain Profile.Xv6 (codes "-") [] false false) result }
    ensures nothing { status_code result.status ≢ 0 → out_text result.output ≡ [] }
{
    let request = Request::Plain(PlainRequest {
        source: Source {
            profile: Profile::Xv6,
            script: STDIN,
            files: &[],
        },
        lists_files: false,
        files_to: None,
        is_strict: false,
        is_json: false,
        finds_diagnostics: false,
    });
    ending_of(rt, alloc, &request, host)
}

// The words behind `help` as a call for the help of the command that they name, or of the program.
fn help_words(alloc: Global, mut words: Vec<String>) -> Result<Vec<String>, AllocError>
    ensures { IfOk result (λ all. map string_bytes all.items ≡ help_words (map string_bytes words.items)) }
{
    let flag = String::from_str(alloc, "--help")?;
    if words.is_empty() {
        words.push(flag)?;
    } else {
        words.insert(1, flag)?;
    }
    Ok(words)
}

// The words as they are meant: the command that `-c TEXT` leaves out is `plain`, and `help COMMAND` is `COMMAND --help`.
fn completed(alloc: Global, mut words: Vec<String>) -> Result<Vec<String>, AllocError>
    ensures { IfOk result (λ all. map string_bytes all.items ≡ completed (map string_bytes words.items)) }
{
    match words.first() {
        Some(first) if first.as_str() == "-c" => {
            let mut all = Vec::with_capacity(alloc, words.len().saturating_add(1))?;
            all.push(String::from_str(alloc, "plain")?)?;
            all.append(&mut words)?;
            Ok(all)
        }
        Some(first) if first.as_str() == "help" => {
            words.remove(0);
            help_words(alloc, words)
        }
        _ => Ok(words),
    }
}

// How it ends on these words.
fn ending_on<R: Threads + Wait + Clock + Sync, H: Host + Traces + Watch>(
    rt: &R,
    alloc: Global,
    words: Vec<String>,
    host: &mut H,
) -> Ending
    ensures no_words { words.items ≡ [] → IsDue (H.input host.old) (H.file host.old) (asks_plain Profile.Xv6 (codes "-") [] false false) result }
    ensures due { words.items ≢ [] → IsDueOn (H.input host.old) (H.file host.old) (completed (map string_bytes words.items)) result }
    ensures nothing { status_code result.status ≢ 0 → status_code result.status ≢ 1 → status_code result.status ≢ 3 → status_code result.status ≢ 4 → out_text result.output ≡ [] }
    ensures no_words_nothing { words.items ≡ [] → status_code result.status ≢ 0 → out_text result.output ≡ [] }
{
    if words.is_empty() {
        return no_words_ending(rt, alloc, host);
    }
    match completed(alloc, words) {
        Ok(all) => words_ending(rt, alloc, all.as_slice(), host),
        Err(_) => report_no_memory(alloc),
    }
}

// Shows whoever sits at a terminal these sentences, unless memory was refused for them.
fn show_hints<H: Hints>(hints: Result<Vec<String>, AllocError>, host: &mut H) {
    let Ok(hints) = hints else {
        return;
    };
    for hint in &hints {
        host.hint(hint.as_str());
    }
}

// Shows whoever sits at a terminal which lines of the script are no command, and which name no program, if what the ending says was
// written.
fn hint_at_lines<H: Hints>(alloc: Global, ending: &Ending, status: Status, host: &mut H) {
    if status != ending.status {
        return;
    }
    let (bad, dead) = (ending.bad.as_slice(), ending.dead.as_slice());
    show_hints(hints_of(alloc, bad), host);
    show_hints(name_hints_of(alloc, dead, bad), host);
}

/// Runs the program on these words, its own name not among them, and returns the status with which it ends. Own, except what
/// a script's commands do, which is as xv6's `sh.c`, kernel and programs do it.
///
/// `plain [--append] [--files] [--strict] [--json] SCRIPT [FILE]..` reads the script, loads it, reads the files in order, each
/// before the next, and then standard input, runs the script by its meaning, and writes its output and, with
/// `--files`, all files, the soft ones marked. SCRIPT `-` is standard input, and the script's own input is then empty.
/// With `--append` `>>` appends, and without it writes over a file from its beginning, as in xv6. Without words the program is
/// `plain -`. A script and a standard input have at most 1,048,576 bytes, and a file at most 274,432. Then `settled` or
/// `not settled` goes to standard error: whether the script prints the same in any order of its processes. With `--strict`
/// the status of a script that isn't settled is 3, and one line more says a reason why it isn't.
///
/// With `--json` one object of JSON goes to standard output in place of the text, also where there is a fault, and nothing to
/// standard error; its form is in `docs/FORMATS.md`, and the status is that of the text.
///
/// `run [--harts N | --seed N | --order ORDER] [--turns N] [--schedule] [--trace FILE] [--append] [--files] [--strict] SCRIPT
/// [FILE]..` reads the same and runs the script by its processes, on 4 harts or N, of which each is a thread, in at most N turns, or
/// without `--turns` in 10,000,000, or as many as are known to be enough, if these are more; with `--seed` or `--order` on one hart,
/// in an order of turns that N or ORDER stands for. It writes the output, with `--files` all files, and with `--schedule` a line an
/// event, and to standard error the diagnostics, and then, where something was full, what. With `--strict` it finds out first whether
/// the script is settled, and the status of one that isn't is 3, unless something was full, and a line behind the diagnostics says a
/// reason why it isn't.
/// `replay [--trace FILE] [--append] [--files] SCHEDULE SCRIPT [FILE]..` runs a script by the
/// events of a schedule in that form, which it reads first. With `--trace` both write first what each event did to a file, or for
/// `-` to standard output, and then nothing else goes there; a trace that can't be written is a fault of status 1.
///
/// `check SCRIPT` reads and loads the script, runs nothing, and writes the faults, the `&` and the first clash of each line.
/// `check --turns SCRIPT [FILE]..` reads what `plain` reads, and writes last how many turns are enough for a run by processes.
/// `explain SCRIPT` reads and loads the script, runs nothing, and writes in sentences what its lines are not, and which line may not
/// have room in xv6's tables, or `nothing to tell`. `explain [--why] [--append] SCRIPT [FILE]..` with a FILE or `--why` reads what `plain` reads, and writes
/// behind these sentences each reason why the script isn't settled, or that it is and why its pipes are safe.
///
/// `explore [--states N] [--all] [--witness DIR] [--draw FILE] [--play FILE] [--pair N,M] [--json] [--append] SCRIPT [FILE]..` reads what `plain` reads, tries
/// every order in which the script's processes can take their turns, through at most 200,000 states or N, and writes the outcomes,
/// each with the events of a run to it, and where two of these runs part. A settled script has one output, which is written
/// without trying, unless with `--all`, `--witness`, `--draw` or `--pair`. With `--witness` it writes first a schedule for each outcome to
/// `DIR/1.schedule` and so on, which `replay` reads. With `--draw` it writes first the page of the runs to the two
/// outcomes whose difference is easiest to see, or which `--pair` names, to FILE, as `run --trace` writes a trace; no page where no outcome was found. With `--json` it
/// writes one object instead, also of a fault.
///
/// `draw [--from N] [--to N] [--svg] TRACE [OTHER]` reads a trace that `run --trace` wrote, or two of one script, and writes a page of
/// HTML that draws them, or the events between these numbers alone; with `--svg` the picture alone.
///
/// With `-c` before SCRIPT that word is the script itself, and words that begin with `-c` are those of `plain`. With `--input FILE`
/// the script's standard input is what that file holds, which is read first, and with `--input none` it is empty; then `-` is
/// `/dev/stdin`. A FILE that can't be read is a fault as above.
///
/// A fault goes to standard error as one line, but with `--json`, and then nothing of the script was written. The host is shown
/// what helps then, which it may show on a terminal; and once a text on a run was written, which of the script's lines are no command. The status is 1 for what can't be
/// read or is refused, and for a schedule that is not of a finished run; 2 for words that are no command line; 3 where `check`
/// reported a clash or a `&`, or `explain` reported anything, or `explore` found more than one output or set of files, or as above; 4 for an
/// exploration that didn't try every order, and for a run that is too large, is past its turns, is out of
/// memory, or met something full, which alone is reported after what it wrote. `--help` and `--version` go to standard output.
/// Where standard output or standard error takes no more, it holds a beginning of what was due, nothing more is written, and the
/// status is 1.
pub fn drive<
    R: Threads + Wait + Clock + Sync,
    H: Host + Traces + Watch + Hints,
    W: Write,
    E: Write,
>(rt: &R, alloc: Global, words: Vec<String>, console: &mut Console<H, W, E>) -> u8
    ensures meaning { let seen = known H.input H.file W.contents E.contents in words.items ≡ [] → result ≡ 0 → WritesMeaning (seen console.old).input (seen console.old).out (seen console.new).out }
    ensures no_words { let seen = known H.input H.file W.contents E.contents in words.items ≡ [] → EndsAt (seen console.old) (seen console.new) (asks_plain Profile.Xv6 (codes "-") [] false false) result }
    ensures ends { let seen = known H.input H.file W.contents E.contents in words.items ≢ [] → EndsOn (seen console.old) (seen console.new) (completed (map string_bytes words.items)) result }
    ensures nothing_written { result ≢ 0 → result ≢ 1 → result ≢ 3 → result ≢ 4 → console.new.out ≡ console.old.out }
    ensures no_words_written { words.items ≡ [] → result ≢ 0 → result ≢ 1 → console.new.out ≡ console.old.out }
{
    let ending = ending_on(rt, alloc, words, &mut console.host);
    let status = write_ending(&ending, &mut console.out, &mut console.err);
    console.host.hint(hint_of(&ending, status));
    hint_at_lines(alloc, &ending, status, &mut console.host);
    status.code()
}
