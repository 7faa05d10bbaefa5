//! What the words of a command line are: a command with its words, a call for help, or neither.

ghost use Rattle.std.specs.Prelude.{◌≡◌, ◌≢◌, ℕ, [], List, Option, false, true, map, string_bytes, IfErr, IfOk};
ghost use Rattle.clap.specs.Matches.{found_of};
ghost use Rattle.clap.specs.Simple.{app_of, subcommand_rows_of};
ghost use Rattle.clap.specs.Takes.{is_given};
ghost use Rattle.clap.specs.Values.{kind_of};
ghost use Rattle.clap.specs.Walk.{rows_of};
ghost use Rattle.clap.specs.declared.error.kind.ErrorKind.TheVariants.{OutOfMemory};
ghost use Rattle.xvsh_read.specs.Status.{fault_told, status_code};
ghost use Rattle.xvsh_read.specs.declared.fault.Fault.TheVariants.{Memory};
ghost use Rattle.xvsh_read.specs.Path.{Path};
ghost use Rattle.xvsh_read.specs.Writing.{out_text};
ghost use Rattle.xvsh_ends.specs.Ends.{IsDue, Tells, help, misuse, told_text};
ghost use Rattle.xvsh.specs.Parsing.{IsParse, IsUnparsed, are_apart, are_given, check_conflicts, conflicts, grade_conflicts, is_alone, is_shown, is_without, own_program, run_conflicts};

use clap::error::ErrorKind;
use clap::parser::ValueSource;
use clap::{ArgMatches, Command};
use memchr::memmem;
use sh_lexer::Bytes;
use std::alloc::{AllocError, Global};
use xvsh_ends::{
    Ending, Line, MAX_HARTS, MAX_STATES, MAX_TURNS, no_output, report_made, report_no_memory,
};
use xvsh_read::{Output, Status};
use xvsh_words::{Most, command_line};

/// The most threads that grade (own).
pub const MAX_JOBS: u64 = 256;

// The command line of the program; where it is strict, words that can't stand beside each other are refused by it, too.
fn own_command_line<'a>(alloc: Global, is_strict: bool) -> Result<Command<'a>, AllocError>
    ensures { is_strict ≡ false → IfOk result (λ command. app_of command ≡ own_program) }
{
    let most = Most {
        harts: u64::from(MAX_HARTS),
        turns: MAX_TURNS,
        states: MAX_STATES,
        jobs: MAX_JOBS,
    };
    command_line(alloc, most, is_strict)
}

// Whether this is among the words of a command.
fn is_given(words: &ArgMatches<'_>, name: &str) -> bool
    ensures { result ≡ is_given name.now (rows_of (found_of words.now)) }
{
    match words.value_source(name) {
        Some(ValueSource::DefaultValue) => false,
        Some(ValueSource::CommandLine) => words.contains_id(name),
        None => words.contains_id(name),
    }
}

fn are_given(words: &ArgMatches<'_>, one: &str, other: &str) -> bool
    ensures { result ≡ are_given (rows_of (found_of words.now)) one.now other.now }
{
    is_given(words, one) && is_given(words, other)
}

fn is_alone(words: &ArgMatches<'_>, one: &str, needed: &str) -> bool
    ensures { result ≡ is_alone (rows_of (found_of words.now)) one.now needed.now }
{
    is_given(words, one) && !is_given(words, needed)
}

fn is_without(words: &ArgMatches<'_>, one: &str) -> bool
    ensures { result ≡ is_without (rows_of (found_of words.now)) one.now }
{
    is_alone(words, one, "turns") && !is_given(words, "room")
}

fn run_conflicts(words: &ArgMatches<'_>) -> bool
    ensures { result ≡ run_conflicts (rows_of (found_of words.now)) }
{
    are_given(words, "harts", "seed")
        || are_given(words, "harts", "order")
        || are_given(words, "seed", "order")
        || are_given(words, "lines", "json")
}

fn check_conflicts(words: &ArgMatches<'_>) -> bool
    ensures { result ≡ check_conflicts (rows_of (found_of words.now)) }
{
    are_given(words, "turns", "room") || is_without(words, "paths") || is_without(words, "input")
}

fn grade_conflicts(words: &ArgMatches<'_>) -> bool
    ensures { result ≡ grade_conflicts (rows_of (found_of words.now)) }
{
    are_given(words, "json", "tap")
        || are_given(words, "json", "gradescope")
        || are_given(words, "tap", "gradescope")
}

// Whether words of this command stand beside each other that can't.
fn conflicts(name: &str, words: &ArgMatches<'_>) -> bool
    ensures { result ≡ conflicts name.now (rows_of (found_of words.now)) }
{
    if name == "run" {
        run_conflicts(words)
    } else if name == "replay" {
        are_given(words, "lines", "json")
    } else if name == "plain" {
        are_given(words, "diagnostics", "json")
    } else if name == "check" {
        check_conflicts(words)
    } else if name == "explain" {
        are_given(words, "fix", "json")
    } else if name == "grade" {
        grade_conflicts(words)
    } else {
        false
    }
}

// Whether the words of the command, if there is one, conflict.
fn are_apart(matches: &ArgMatches<'_>) -> bool
    ensures { result ≡ are_apart (subcommand_rows_of matches.now) }
{
    match matches.subcommand() {
        Some((name, words)) => conflicts(name, words),
        None => false,
    }
}

// How `clap` begins what it says of a word that is like a command.
const CLAP_TIP: &str = "\n  tip: ";

// What is said first of the word `help`, which is no command.
const HELP_TIP: &str =
    "`xvsh --help` shows the help, and `xvsh COMMAND --help` that of a command\n\n";

// What is reported of words that conflict, where nothing else is.
const CONFLICT: &str = "error: some of these words can't stand beside each other\n";

// What is said last of such a word, where a script may stand behind it.
const LIKE_TIP: &str =
    "\n`xvsh plain SCRIPT` runs the script at a path, and `xvsh run SCRIPT` by its processes.\n";

// What is said of a word that is no command, and may be the path of a script.
fn script_tip(alloc: Global, word: &str) -> Result<String, AllocError> {
    format!(in alloc;
        "`xvsh plain {word}` runs the script at the path {word}, and `xvsh run {word}` by its processes\n"
    )
}

// What is said first of such a word that is like no command.
fn tip_of(alloc: Global, word: &str) -> Result<String, AllocError> {
    if word == "help" {
        return String::from_str(alloc, HELP_TIP);
    }
    let tip = script_tip(alloc, word)?;
    format!(in alloc; "{tip}\n")
}

// The text of an error of these words, of which the first is no command, but like one.
fn like_text(alloc: Global, words: &[String], text: &str) -> Result<String, AllocError> {
    match words {
        [word] => {
            let tip = script_tip(alloc, word.as_str())?;
            format!(in alloc; "{text}\n{tip}")
        }
        _ => format!(in alloc; "{text}{LIKE_TIP}"),
    }
}

// The text of an error of these words, of which the first may be no command.
fn text_of(alloc: Global, words: &[String], error: &clap::Error) -> Result<String, AllocError> {
    let text = format!(in alloc; "{error}")?;
    let Some(word) = words.first() else {
        return Ok(text);
    };
    if error.kind() != ErrorKind::InvalidSubcommand {
        return Ok(text);
    }
    if memmem::find(text.as_bytes(), CLAP_TIP.as_bytes()).is_some() {
        return like_text(alloc, words, text.as_str());
    }
    let tip = tip_of(alloc, word.as_str())?;
    format!(in alloc; "{tip}{text}")
}

// What is wrong with the words.
fn told_of(alloc: Global, words: &[String]) -> Result<String, AllocError> {
    let command = own_command_line(alloc, true)?;
    match command.try_get_matches_from(words) {
        Err(error) => text_of(alloc, words, &error),
        Ok(_matches) => String::from_str(alloc, CONFLICT),
    }
}

// The help, which goes to standard output.
fn help_ending(alloc: Global, text: String) -> Ending
    ensures out { out_text result.output ≡ string_bytes text }
    ensures told { told_text result ≡ [] }
    ensures status { status_code result.status ≡ 0 }
{
    Ending {
        output: Output {
            out: Bytes::from_vec(text.into_bytes()),
            ..no_output(alloc)
        },
        line: Line::Fixed(""),
        status: Status::Done,
        recording: None,
        left: None,
        hint: "",
        bad: Vec::new(alloc),
        dead: Vec::new(alloc),
    }
}

// How the program ends on words that are misused.
fn misuse_ending(alloc: Global, words: &[String]) -> Ending
    ensures due { (input : Option (List ℕ)) (file : Path → Option (List ℕ)) → IsDue input file misuse result }
    ensures nothing { out_text result.output ≡ [] }
{
    report_made(alloc, told_of(alloc, words), Status::Misused)
}

// How it ends where the words are no command with its words, by the first fault of them.
fn error_ending(alloc: Global, words: &[String], error: &clap::Error) -> Ending
    ensures memory { kind_of error.now ≡ OutOfMemory → Tells (fault_told Memory) 4 result }
    ensures help { kind_of error.now ≢ OutOfMemory → is_shown (kind_of error.now) ≡ true → (input : Option (List ℕ)) (file : Path → Option (List ℕ)) → IsDue input file help result }
    ensures misuse { kind_of error.now ≢ OutOfMemory → is_shown (kind_of error.now) ≡ false → (input : Option (List ℕ)) (file : Path → Option (List ℕ)) → IsDue input file misuse result }
    ensures nothing { status_code result.status ≢ 0 → out_text result.output ≡ [] }
{
    match error.kind() {
        ErrorKind::OutOfMemory => report_no_memory(alloc),
        ErrorKind::DisplayHelp | ErrorKind::DisplayVersion => {
            match text_of(alloc, words, error) {
                Ok(text) => help_ending(alloc, text),
                Err(_) => report_no_memory(alloc),
            }
        }
        _ => misuse_ending(alloc, words),
    }
}

/// The command and its words that the words of a command line are; or how the program ends where they are none: with the help that
/// they call for, with a report of what is wrong with them, or for want of memory.
pub fn parsed_words<'w>(alloc: Global, words: &'w [String]) -> Result<ArgMatches<'w>, Ending>
    ensures parsed { IfOk result (IsParse (map string_bytes words.now)) }
    ensures unparsed { IfErr result (λ ending. (input : Option (List ℕ)) (file : Path → Option (List ℕ)) → IsUnparsed input file (map string_bytes words.now) ending) }
    ensures nothing { IfErr result (λ ending. status_code ending.status ≢ 0 → out_text ending.output ≡ []) }
{
    let Ok(command) = own_command_line(alloc, false) else {
        return Err(report_no_memory(alloc));
    };
    match command.try_get_matches_from(words) {
        Ok(matches) => {
            if are_apart(&matches) {
                Err(misuse_ending(alloc, words))
            } else {
                Ok(matches)
            }
        }
        Err(error) => Err(error_ending(alloc, words, &error)),
    }
}
