//! The words that the program takes.

ghost use Rattle.std.specs.Prelude.{◌≡◌, ℕ, IfOk, codes, false};
ghost use Rattle.clap.specs.Simple.{App, Shape, app_of, with_subcommand};
ghost use Rattle.clap.specs.Walk.{rule_of};
ghost use Rattle.xvsh_words.specs.Program.{IsCommand, bare_program, check_shape, draw_shape, explain_shape, explore_shape, files_rule, flag_rule, grade_shape, number_rule, other_rule, plain_shape, program, replay_shape, run_shape, step_shape, text_rule, word_rule, path_rule};

use clap::builder::ValueParser;
use clap::{Arg, ArgAction, Command};
use std::alloc::{AllocError, Global};

const ABOUT: &str = "Runs scripts of xv6's shell";

const AFTER_HELP: &str = "\
Without any words xvsh reads a script from standard input, as `xvsh plain -`
does. `xvsh -c TEXT` runs the script TEXT, as `xvsh plain -c TEXT` does. `xvsh
help COMMAND` shows the help of a command, as `xvsh COMMAND --help` does.

A script is lines of at most 511 bytes. A line is commands joined by `|` (the
left side's output is the right side's input) and `;` (one after the other); `(
)` groups, `&` after a command doesn't wait for it, `< FILE`, `> FILE` and `>>
FILE` take and put input and output. `>` empties the file, and `>>` writes over
it from its beginning, as xv6 does, or with `--append` at its end. A command
has at most nine words. There are no quotes, variables, patterns or comments. A
line that is no command does nothing.

Programs, which work on their input where no FILE is given:
  cat [FILE]..           copies it
  echo [WORD]..          writes its words
  grep PATTERN [FILE]..  the lines that match; `^` is a line's beginning, `$`
                         its end, `.` any byte, `*` any number of the byte
                         before it
  head [-N] [FILE]..     the first 10 lines, or N
  tee [FILE]..           copies its input to its output and to each FILE
  wc [FILE]..            counts lines, words and bytes
Any other name does nothing.

Files live in memory, and none of them on the disk: at most 200, with names of
1 to 14 bytes and at most 274,432 bytes each. A script and a standard input
have at most 1,048,576 bytes. A FILE is a path, whose last part is the file's
name, or NAME=PATH.

Examples:
  echo 'echo hello | cat > f; cat f' | xvsh
  xvsh -c 'echo a | cat'
  xvsh run --input none script.sh notes/todo   # `todo` is a file of it
  xvsh plain --files script.sh notes/todo

`run` has xv6's processes take turns, each until its next system call, on harts
that work side by side, and tells what they tell, such as `open f failed`.
Where something was full, as at a pipeline of more processes than there are, a
last line `xvsh: full procs`, `open`, `descriptors`, `files`, `size` or
`memory` says so. `run --schedule` ends its output with a line an event, and
`replay` runs the script by those lines again. `--lines` tells of each message
which line of the script wrote it.

After `plain` one line goes to standard error: `settled` where the script was
shown to print the same in whatever order its processes run, and else `not
settled`: that it has one answer wasn't shown. With `--strict` one more line
says why not, of `run` too. `--diagnostics` writes before it what every order
tells, where that is known. `--files` marks as `soft` a file whose bytes may
depend on that order.

`plain --json` writes one object of JSON instead, with the output, all files,
whether the script is settled, and why it isn't: the lines with a `&` or a
clash, the files that cut pipes write and that are named again, and the lines
that use an input of which an unknown part is left. `run`, `replay`, `check`,
`explain` and `explore` write one with `--json` too, with all that they tell.

`xvsh check SCRIPT` writes, for the script's line N: `N fault K NAME at P`
where it is no command, `N background` where it has a `&`, and `N clash KIND
NAME` where two of its commands may come upon each other at a file: at the two
sides of a pipe (PipeSides), or inside a redirection (Enclosing). `check
--turns` ends with a line `turns N`: with `run --turns N` the script runs to
its end, whatever the order of its processes, if it has no clash and no `&` and
nothing is full. `check --room` ends with a line that tells how many processes,
open files, descriptors, files and bytes of a file the script needs at most, and
with one more that names the first line which may need more than xv6 has.

`xvsh explain SCRIPT` tells the same in sentences, and more: a `#` or a quote
that is a letter here, a command that is no program, a name that no file can
have, a `>>` that writes over. Each of these comes with its line and marks
under the place. It names the first line that may need more than xv6 has, too.
With FILEs, or `--why`, it reads standard input too, and tells which names no
file has, each reason why the script isn't settled on them, and what mends it.
`explain --fix` prints the script mended by rules, so that it is settled.

`xvsh explore SCRIPT [FILE]..` tries every order in which the script's
processes can take their turns, and writes a line for each output that the
script can have, with the events of a run to it, and then where two of these
runs part. With `--witness DIR` it writes the schedule of each run to
DIR, and with `--draw FILE` a page that draws two of them to FILE; `--pair N,M`
names the two outcomes by their numbers. With `--play FILE` it writes a page on
which a reader chooses who goes next, and sees what can still come out.

`xvsh step SCRIPT [FILE]..` reads commands from standard input, a line each, and
answers each on standard output: a number is a turn of that process, `ps` lists
the processes, `back 3` takes three turns back, and `help` lists the rest. On a
terminal it shows a prompt, and the processes after each turn.

`xvsh grade SUITE [SCRIPT]..` runs the tests of a suite on each SCRIPT, and
tells whether what it leaves is what is expected, whatever the order of its
processes: `pass`, `wrong`, `race` and others, with points.

`xvsh --color WHEN COMMAND ..` has colours by WHEN: `auto` (on a terminal, unless
NO_COLOR is set or TERM is dumb), `always` or `never`.

Status: 0 done; 1 something can't be read, is refused, or can't be written, or
is no schedule of a whole run; 2 usage; 3 `check` told of a clash or a `&`,
`explain` told of anything, `explore` found more than one outcome, `grade` a
test that isn't passed, or `--strict` ran a script that isn't settled; 4 not
every order was tried, full, spent, too large, or no memory.";

const VERSION: &str = "0.3.0 (rattle logic dac8208d650f15bf)";

// A flag: `--` and its name.
fn flag<'a>(alloc: Global, name: &'static str, help: &'static str) -> Arg<'a>
    ensures rule { rule_of result ≡ flag_rule name.now }
    ensures local { result.global ≡ false }
{
    Arg::new(alloc, name)
        .long(name)
        .help(help)
        .action(ArgAction::SetTrue)
}

// An argument beside which another can't stand, where that is held.
fn apart<'a>(arg: Arg<'a>, other: &'static str, is_strict: bool) -> Result<Arg<'a>, AllocError>
    ensures { is_strict ≡ false → IfOk result (λ held. held ≡ arg.entry) }
{
    if is_strict {
        arg.conflicts_with(other)
    } else {
        Ok(arg)
    }
}

// An argument that stands only beside another, where that is held.
fn needing<'a>(arg: Arg<'a>, other: &'static str, is_strict: bool) -> Result<Arg<'a>, AllocError>
    ensures { is_strict ≡ false → IfOk result (λ held. held ≡ arg.entry) }
{
    if is_strict {
        arg.requires_arg(other)
    } else {
        Ok(arg)
    }
}

// An option that takes a number from 1 to the most.
fn number_option<'a>(alloc: Global, name: &'static str, help: &'static str, most: u64) -> Arg<'a>
    ensures rule { rule_of result ≡ number_rule name.now most }
    ensures local { result.global ≡ false }
{
    Arg::new(alloc, name)
        .long(name)
        .value_name("N")
        .help(help)
        .value_parser(ValueParser::unsigned(1, most))
        .action(ArgAction::Set)
}

// An option that takes a path, or a word that is shown so.
fn path_option<'a>(
    alloc: Global,
    name: &'static str,
    shown: &'static str,
    help: &'static str,
) -> Arg<'a>
    ensures rule { rule_of result ≡ path_rule name.now }
    ensures local { result.global ≡ false }
{
    Arg::new(alloc, name)
        .long(name)
        .value_name(shown)
        .help(help)
        .action(ArgAction::Set)
}

// `-c`, with which SCRIPT is the script itself.
fn text_flag<'a>(alloc: Global) -> Arg<'a>
    ensures rule { rule_of result ≡ text_rule }
    ensures local { result.global ≡ false }
{
    Arg::new(alloc, "text")
        .short('c')
        .help("SCRIPT is the script itself, and no path")
        .action(ArgAction::SetTrue)
}

// `--input`, of a script's standard input.
fn input_option<'a>(alloc: Global) -> Arg<'a>
    ensures rule { rule_of result ≡ path_rule (codes "input") }
    ensures local { result.global ≡ false }
{
    path_option(alloc, "input", "FILE", INPUT_HELP)
}

// A word that has to be there.
fn needed_word<'a>(
    alloc: Global,
    name: &'static str,
    shown: &'static str,
    help: &'static str,
) -> Arg<'a>
    ensures rule { rule_of result ≡ word_rule name.now }
    ensures local { result.global ≡ false }
{
    Arg::new(alloc, name)
        .value_name(shown)
        .help(help)
        .required(true)
        .action(ArgAction::Set)
}

// SCRIPT.
fn script_word<'a>(alloc: Global, help: &'static str) -> Arg<'a>
    ensures rule { rule_of result ≡ word_rule (codes "script") }
    ensures local { result.global ≡ false }
{
    needed_word(alloc, "script", "SCRIPT", help)
}

// Any number of paths, at the end.
fn last_words<'a>(alloc: Global, shown: &'static str, help: &'static str) -> Arg<'a>
    ensures rule { rule_of result ≡ files_rule }
    ensures local { result.global ≡ false }
{
    Arg::new(alloc, "paths")
        .value_name(shown)
        .help(help)
        .num_args(0..)
        .action(ArgAction::Append)
}

const FILES_HELP: &str =
    "Files for the script, each under the part of its path after the last `/`, or NAME=PATH";

// The files of the script.
fn file_words<'a>(alloc: Global) -> Arg<'a>
    ensures rule { rule_of result ≡ files_rule }
    ensures local { result.global ≡ false }
{
    last_words(alloc, "FILE", FILES_HELP)
}

const SCRIPT_HELP: &str =
    "The script's path; `-` is standard input, and the script's own input is then empty";

const INPUT_HELP: &str =
    "The script's standard input is FILE's bytes, or nothing with `none`; without it, that of xvsh";

const RUN_ABOUT: &str = "Runs a script by its processes, as xv6 does, with their messages";

const STRICT_HELP: &str = "End with status 3 if the script isn't settled";

const JSON_HELP: &str =
    "Write one object of JSON in place of the text, and nothing to standard error";

const APPEND_HELP: &str =
    "`>>` writes at a file's end; without it, from its beginning, as xv6 does";

const HARTS_HELP: &str =
    "On so many harts (hardware threads, each a thread here), 1 to 8; 4 without it";

const TURNS_HELP: &str =
    "In at most so many events, 1 to 1000000000; without it, 10000000 or more if more are enough";

const SEED_HELP: &str = "On one hart, each turn by a process that is drawn; N stands for one order";

const ORDER_HELP: &str =
    "On one hart, each turn by the lowest process (low), the highest (high), the same as long as it can (eager), or any but P (starve:P)";

const LISTED_HELP: &str = "Write a line an event last: `D HART PROCESS` or `T HART PROCESS`";

const SCHEDULE_TO_HELP: &str =
    "Write these lines to FILE; for `-` to standard output, and nothing else there";

const FILES_TO_HELP: &str = "Make a file in DIR, and DIR, for each that the script leaves";

const TRACE_HELP: &str =
    "Write what each event did to FILE, an object of JSON a line; for `-` to standard output, and nothing else there";

const QUIET_HELP: &str = "Tell a terminal nothing while the run goes on";

const LINES_HELP: &str =
    "Tell before each line of the diagnostics which line of the script wrote it: `line N: `";

fn run_command<'a>(
    alloc: Global,
    most_harts: u64,
    most_turns: u64,
    is_strict: bool,
) -> Result<Command<'a>, AllocError>
    ensures { is_strict ≡ false → IfOk result (IsCommand (run_shape most_harts most_turns)) }
{
    let seed = number_option(alloc, "seed", SEED_HELP, u64::MAX);
    let seed = apart(seed, "harts", is_strict)?;
    let order = path_option(alloc, "order", "ORDER", ORDER_HELP);
    let alone = apart(order, "harts", is_strict)?;
    let order = apart(alone, "seed", is_strict)?;
    let lines = apart(flag(alloc, "lines", LINES_HELP), "json", is_strict)?;
    let args = vec![in alloc;
        number_option(alloc, "harts", HARTS_HELP, most_harts),
        number_option(alloc, "turns", TURNS_HELP, most_turns),
        seed,
        order,
        flag(alloc, "schedule", LISTED_HELP),
        path_option(alloc, "schedule-to", "FILE", SCHEDULE_TO_HELP),
        path_option(alloc, "files-to", "DIR", FILES_TO_HELP),
        path_option(alloc, "trace", "FILE", TRACE_HELP),
        lines,
        flag(alloc, "strict", STRICT_HELP),
        flag(alloc, "append", APPEND_HELP),
        flag(alloc, "files", RUN_FILES_HELP),
        flag(alloc, "quiet", QUIET_HELP),
        flag(alloc, "json", JSON_HELP),
        input_option(alloc),
        text_flag(alloc),
        script_word(alloc, SCRIPT_HELP),
        file_words(alloc),
    ]?;
    Command::new(alloc, "run").about(RUN_ABOUT).args(args)
}

const RUN_FILES_HELP: &str =
    "Write all files after the output: `-- NAME LENGTH`, the bytes, a line's end";

const REPLAY_ABOUT: &str = "Runs a script by the events that `run --schedule` wrote";

const SCHEDULE_HELP: &str =
    "The schedule's path; `-` is standard input, and the script's own input is then empty";

fn replay_command<'a>(alloc: Global, is_strict: bool) -> Result<Command<'a>, AllocError>
    ensures { is_strict ≡ false → IfOk result (IsCommand replay_shape) }
{
    let lines = apart(flag(alloc, "lines", LINES_HELP), "json", is_strict)?;
    let args = vec![in alloc;
        path_option(alloc, "files-to", "DIR", FILES_TO_HELP),
        path_option(alloc, "trace", "FILE", TRACE_HELP),
        lines,
        flag(alloc, "append", APPEND_HELP),
        flag(alloc, "files", RUN_FILES_HELP),
        flag(alloc, "json", JSON_HELP),
        input_option(alloc),
        text_flag(alloc),
        needed_word(alloc, "events", "SCHEDULE", SCHEDULE_HELP),
        script_word(alloc, SCRIPT_HELP),
        file_words(alloc),
    ]?;
    Command::new(alloc, "replay").about(REPLAY_ABOUT).args(args)
}

const PLAIN_ABOUT: &str = "Runs a script, each pipe's left side to its end before the right one";

const PLAIN_FILES_HELP: &str =
    "Write all files after the output: `-- NAME LENGTH`, `soft` if it is soft, the bytes, a line's end";

const DIAGNOSTICS_HELP: &str = "Tell the diagnostics, if every order writes the same";

fn plain_command<'a>(alloc: Global, is_strict: bool) -> Result<Command<'a>, AllocError>
    ensures { is_strict ≡ false → IfOk result (IsCommand plain_shape) }
{
    let flagged = flag(alloc, "diagnostics", DIAGNOSTICS_HELP);
    let diagnostics = apart(flagged, "json", is_strict)?;
    let args = vec![in alloc;
        path_option(alloc, "files-to", "DIR", FILES_TO_HELP),
        diagnostics,
        flag(alloc, "strict", STRICT_HELP),
        flag(alloc, "append", APPEND_HELP),
        flag(alloc, "files", PLAIN_FILES_HELP),
        flag(alloc, "json", JSON_HELP),
        input_option(alloc),
        text_flag(alloc),
        script_word(alloc, SCRIPT_HELP),
        file_words(alloc),
    ]?;
    Command::new(alloc, "plain").about(PLAIN_ABOUT).args(args)
}

const CHECK_ABOUT: &str = "Tells where commands of a script may clash, and runs nothing";

const CHECKED_STRICT_HELP: &str = "End with status 3 for a line that is no command, too";

const COUNTED_HELP: &str =
    "Write last in how many turns the script runs to its end on the FILEs and its input";

const ROOM_HELP: &str =
    "Write last how much of xv6's tables the script needs on the FILEs and its input";

fn check_command<'a>(alloc: Global, is_strict: bool) -> Result<Command<'a>, AllocError>
    ensures { is_strict ≡ false → IfOk result (IsCommand check_shape) }
{
    let files = needing(file_words(alloc), "turns", is_strict)?;
    let input = needing(input_option(alloc), "turns", is_strict)?;
    let flagged = flag(alloc, "room", ROOM_HELP);
    let room = apart(flagged, "turns", is_strict)?;
    let args = vec![in alloc;
        flag(alloc, "turns", COUNTED_HELP),
        room,
        flag(alloc, "strict", CHECKED_STRICT_HELP),
        flag(alloc, "json", JSON_HELP),
        input,
        text_flag(alloc),
        script_word(alloc, "The script's path; `-` is standard input"),
        files,
    ]?;
    Command::new(alloc, "check").about(CHECK_ABOUT).args(args)
}

const EXPLAIN_ABOUT: &str = "Tells in sentences what is wrong or unexpected in a script";

const WHY_HELP: &str =
    "Tell why the script is settled or isn't on its input, as with FILEs; without both, nothing is run";

const FIX_HELP: &str =
    "Print the script mended by rules so that it is settled on its input and the FILEs, and no notes";

fn explain_command<'a>(alloc: Global, is_strict: bool) -> Result<Command<'a>, AllocError>
    ensures { is_strict ≡ false → IfOk result (IsCommand explain_shape) }
{
    let flagged = flag(alloc, "fix", FIX_HELP);
    let fix = apart(flagged, "json", is_strict)?;
    let args = vec![in alloc;
        flag(alloc, "why", WHY_HELP),
        fix,
        flag(alloc, "append", APPEND_HELP),
        flag(alloc, "json", JSON_HELP),
        input_option(alloc),
        text_flag(alloc),
        script_word(alloc, "The script's path; `-` is standard input"),
        file_words(alloc),
    ]?;
    Command::new(alloc, "explain")
        .about(EXPLAIN_ABOUT)
        .args(args)
}

const EXPLORE_ABOUT: &str = "Tries every order of a script's processes, and tells what it prints";

const STATES_HELP: &str = "Keep at most so many states, 1 to 10000000; 200000 without it";

const ALL_HELP: &str = "Try every order of a settled script too";

const FULL_HELP: &str =
    "Try every turn in every state, where one would do: the same outcomes of more states, to compare";

const WITNESS_HELP: &str =
    "Write a schedule for each outcome to DIR/1.schedule and so on, for `xvsh replay`";

const DRAW_HELP: &str =
    "Write a page of HTML that draws runs to two outcomes to FILE; for `-` to standard output, and nothing else there";

const PLAY_HELP: &str =
    "Write a page of HTML to FILE on which a reader chooses who goes next; for `-` to standard output, and nothing else there";

const PAIR_HELP: &str =
    "Tell apart, and draw, the outcomes N and M; without it, those whose difference is easiest to see";

const EXPLORED_JSON_HELP: &str = "Write one object of JSON";

const MEMORY_HELP: &str =
    "End the search where the program takes more than N MiB of memory, 1 to 1048576; half of what is free without it";

// The most mebibytes of a search.
const MOST_MEBIBYTES: u64 = 1_048_576;

fn explore_command<'a>(alloc: Global, most_states: u64) -> Result<Command<'a>, AllocError>
    ensures { IfOk result (IsCommand (explore_shape most_states)) }
{
    let args = vec![in alloc;
        number_option(alloc, "states", STATES_HELP, most_states),
        number_option(alloc, "memory", MEMORY_HELP, MOST_MEBIBYTES),
        flag(alloc, "all", ALL_HELP),
        flag(alloc, "full", FULL_HELP),
        path_option(alloc, "witness", "DIR", WITNESS_HELP),
        path_option(alloc, "draw", "FILE", DRAW_HELP),
        path_option(alloc, "play", "FILE", PLAY_HELP),
        path_option(alloc, "pair", "N,M", PAIR_HELP),
        flag(alloc, "json", EXPLORED_JSON_HELP),
        flag(alloc, "append", APPEND_HELP),
        input_option(alloc),
        text_flag(alloc),
        script_word(alloc, SCRIPT_HELP),
        file_words(alloc),
    ]?;
    Command::new(alloc, "explore")
        .about(EXPLORE_ABOUT)
        .args(args)
}

const DRAW_ABOUT: &str = "Draws a trace, or two, as a page of HTML or as a picture";

const SVG_HELP: &str = "Write the picture alone, in SVG";

const FROM_HELP: &str = "The first event that is drawn; 1 without it";

const TO_HELP: &str = "The last event that is drawn; the last of all without it";

// One more word, or none.
fn other_word<'a>(
    alloc: Global,
    name: &'static str,
    shown: &'static str,
    help: &'static str,
) -> Arg<'a>
    ensures rule { rule_of result ≡ other_rule name.now }
    ensures local { result.global ≡ false }
{
    Arg::new(alloc, name)
        .value_name(shown)
        .help(help)
        .num_args(0..=1)
        .action(ArgAction::Set)
}

fn draw_command<'a>(alloc: Global, most_turns: u64) -> Result<Command<'a>, AllocError>
    ensures { IfOk result (IsCommand (draw_shape most_turns)) }
{
    let args = vec![in alloc;
        number_option(alloc, "from", FROM_HELP, most_turns),
        number_option(alloc, "to", TO_HELP, most_turns),
        flag(alloc, "svg", SVG_HELP),
        needed_word(
            alloc,
            "trace",
            "TRACE",
            "The trace's path; `-` is standard input"
        ),
        other_word(alloc, "other", "OTHER", "A second trace of the same script"),
    ]?;
    Command::new(alloc, "draw").about(DRAW_ABOUT).args(args)
}

const STEP_ABOUT: &str = "Lets you say which process of a script takes the next turn";

const STEP_SCHEDULE_HELP: &str = "Begin with the turns of this schedule, which `save` wrote";

const STEP_INPUT_HELP: &str =
    "The script's standard input is FILE's bytes; without it, or with `none`, nothing";

const STEP_JSON_HELP: &str = "Write each answer as one object of JSON on a line";

fn step_command<'a>(alloc: Global) -> Result<Command<'a>, AllocError>
    ensures { IfOk result (IsCommand step_shape) }
{
    let args = vec![in alloc;
        path_option(alloc, "schedule", "FILE", STEP_SCHEDULE_HELP),
        flag(alloc, "append", APPEND_HELP),
        flag(alloc, "json", STEP_JSON_HELP),
        path_option(alloc, "input", "FILE", STEP_INPUT_HELP),
        text_flag(alloc),
        needed_word(alloc, "script", "SCRIPT", "The script's path"),
        file_words(alloc),
    ]?;
    Command::new(alloc, "step").about(STEP_ABOUT).args(args)
}

const GRADE_ABOUT: &str = "Grades scripts by the tests of a suite";

const GRADE_JSON_HELP: &str = "Write the report as one object of JSON";

const TAP_HELP: &str = "Write it as the Test Anything Protocol, version 13";

const GRADESCOPE_HELP: &str = "Write it as Gradescope's results.json";

const JOBS_HELP: &str =
    "Grade with so many threads, 1 to 256; as many as there are processors without it";

const GRADE_STATES_HELP: &str =
    "Try orders of processes through at most so many states, 1 to 10000000, whatever a test says";

const SUITE_HELP: &str = "The suite's path: a file of TOML with its tests";

const SCRIPTS_HELP: &str = "Scripts to grade, by each test that has no script of its own";

fn grade_command<'a>(
    alloc: Global,
    most_jobs: u64,
    most_states: u64,
    is_strict: bool,
) -> Result<Command<'a>, AllocError>
    ensures { is_strict ≡ false → IfOk result (IsCommand (grade_shape most_jobs most_states)) }
{
    let json = apart(flag(alloc, "json", GRADE_JSON_HELP), "tap", is_strict)?;
    let json = apart(json, "gradescope", is_strict)?;
    let tap = apart(flag(alloc, "tap", TAP_HELP), "gradescope", is_strict)?;
    let args = vec![in alloc;
        json,
        tap,
        flag(alloc, "gradescope", GRADESCOPE_HELP),
        number_option(alloc, "jobs", JOBS_HELP, most_jobs),
        number_option(alloc, "states", GRADE_STATES_HELP, most_states),
        needed_word(alloc, "suite", "SUITE", SUITE_HELP),
        last_words(alloc, "SCRIPT", SCRIPTS_HELP),
    ]?;
    Command::new(alloc, "grade").about(GRADE_ABOUT).args(args)
}

// The program's name, version and help, without a command.
fn bare_command<'a>(alloc: Global) -> Result<Command<'a>, AllocError>
    ensures { IfOk result (λ command. app_of command ≡ bare_program) }
{
    Command::new(alloc, "xvsh")
        .no_binary_name(true)
        .about(ABOUT)
        .version(VERSION)
        .after_help(AFTER_HELP)
        .disable_help_subcommand(true)
        .subcommand_required(true)
        .bin_name("xvsh")
}

// The program with one more command.
fn with_command<'a>(
    program: Result<Command<'a>, AllocError>,
    command: Result<Command<'a>, AllocError>,
) -> Result<Command<'a>, AllocError>
    ensures { (app : App) (shape : Shape) → IfOk program.entry (λ old. app_of old ≡ app) → IfOk command.entry (IsCommand shape) → IfOk result (λ new. app_of new ≡ with_subcommand app shape) }
{
    let program = program?;
    let command = command?;
    program.subcommand(command)
}

/// The most that numbers of a command line may be: the harts of a run and its turns, the states of a search, and threads.
#[derive(Clone, Copy)]
pub struct Most {
    pub harts: u64,
    pub turns: u64,
    pub states: u64,
    pub jobs: u64,
}

/// The command line of the program, whose numbers are at most these. With `is_strict` it refuses words that can't stand beside
/// each other, too.
pub fn command_line<'a>(
    alloc: Global,
    most: Most,
    is_strict: bool,
) -> Result<Command<'a>, AllocError>
    ensures { is_strict ≡ false → IfOk result (λ command. app_of command ≡ program most.harts most.turns most.states most.jobs) }
{
    let bare = bare_command(alloc);
    let run = run_command(alloc, most.harts, most.turns, is_strict);
    let one = with_command(bare, run);
    let two = with_command(one, replay_command(alloc, is_strict));
    let three = with_command(two, plain_command(alloc, is_strict));
    let four = with_command(three, check_command(alloc, is_strict));
    let five = with_command(four, explain_command(alloc, is_strict));
    let six = with_command(five, explore_command(alloc, most.states));
    let seven = with_command(six, draw_command(alloc, most.turns));
    let eight = with_command(seven, step_command(alloc));
    let grade = grade_command(alloc, most.jobs, most.states, is_strict);
    with_command(eight, grade)
}
