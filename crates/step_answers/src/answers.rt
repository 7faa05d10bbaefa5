//! The answer to a command.

use crate::objects::{write_fds, write_files, write_pipes, write_ps, write_state};
use crate::play::{Pace, Play, PlayFault, Printed, pid_of};
use crate::rest::{add_rest, states_after, write_rest};
use crate::sleeps::add_why;
use crate::text::Text;
use crate::views::{add_fds, add_files, add_out, add_pipes, add_ps};
use crate::words::add_quoted;
use proc_table::{Pid, State};
use result_json::full_word;
use schedule_lines::schedule_text;
use std::alloc::{AllocError, Global};
use step_commands::{Command, Mistake, NAMES, Name, nearest};
use step_session::RestFault;
use trace_lines::Line;
use user_calls::Machine;

// With this byte begins what a terminal sends for an arrow.
const ESCAPE: u8 = 0x1b;

// That an arrow does nothing.
const ARROWS: &str = "the arrows work in `rlwrap xvsh step ..`";

// What stands behind the list of commands.
const MORE_HELP: &str =
    "a command may be cut short where no other begins so; `undo` is `back`, `?` is `help`, and `exit` is `quit`
on a terminal an empty line takes the last turns again, and `rlwrap xvsh step ..` has a history and the arrows
";

// The object of an answer begins.
fn begin(alloc: Global, name: &str, text: Vec<u8>) -> Result<Line, AllocError> {
    let mut line = Line::begin(alloc, text)?;
    line.word("answer", name)?;
    Ok(line)
}

// A fault: a sentence on a line, or an object with it.
fn add_fault(
    alloc: Global,
    is_json: bool,
    text: Vec<u8>,
    sentence: &[u8],
) -> Result<Vec<u8>, AllocError> {
    if is_json {
        let mut line = Line::begin(alloc, text)?;
        line.bytes("error", sentence)?;
        return line.end();
    }
    let mut text = text;
    text.extend_from_slice(sentence)?;
    text.push(b'\n')?;
    Ok(text)
}

// That there is no process of this number.
fn no_process(alloc: Global, number: u64) -> Result<Vec<u8>, AllocError> {
    let mut sentence = Text::new(alloc);
    sentence.add("there is no process ");
    sentence.number(number);
    sentence.end()
}

// The commands that begin so.
fn add_begun(sentence: &mut Text, word: &[u8]) {
    let mut before = " may be `";
    for name in NAMES {
        if name.begins_with(word) {
            sentence.add(before);
            sentence.add(name.word());
            before = "` or `";
        }
    }
    sentence.byte(b'`');
}

// Which command was meant, if one is near.
fn add_nearest(sentence: &mut Text, word: &[u8]) {
    match nearest(sentence.alloc(), word) {
        Ok(Some(name)) => {
            sentence.add("was `");
            sentence.add(name.usage());
            sentence.add("` meant?");
        }
        Ok(None) => sentence.add("`help` lists the commands"),
        Err(_) => sentence.refuse(),
    }
}

// What a line is that is no command.
fn add_mistake(sentence: &mut Text, mistake: &Mistake<'_>) {
    match mistake {
        Mistake::Unknown(word) => {
            add_quoted(sentence, word, 40);
            sentence.add(" is no command; ");
            if word.first() == Some(&ESCAPE) {
                sentence.add(ARROWS);
            } else {
                add_nearest(sentence, word);
            }
        }
        Mistake::Ambiguous(word) => {
            add_quoted(sentence, word, 40);
            add_begun(sentence, word);
        }
        Mistake::Misused(name) => {
            sentence.add("the command is `");
            sentence.add(name.usage());
            sentence.byte(b'`');
        }
        Mistake::MoreThanNumber => {
            sentence.add("a number alone is a turn of that process; `help` lists the commands");
        }
    }
}

// That the narrator's kernel had memory which was refused to the session's.
const APART: &str = "memory was refused to a process: what it did may differ from what is told\n";

// Why it isn't known what can still come out.
fn no_rest(fault: RestFault) -> &'static str {
    match fault {
        RestFault::Full => "something was full, so it isn't told what can still come out",
        RestFault::TooLong => "a run from here is too long",
        RestFault::Memory => "there is not enough memory to try the orders",
    }
}

// What the answer to `watch` is, and why there is none as an object.
const WATCHED: &str = "after each turn comes what can still come out";

const UNWATCHED: &str = "what can still come out is told by `answers` alone";

const NO_WATCH: &str = "`watch` is for a session without --json: ask `answers` after a turn";

// The commands with what they do.
fn add_help(text: &mut Text) {
    text.add("N: a turn of process N\n");
    for name in NAMES {
        text.add(name.usage());
        text.add(": ");
        text.add(name.help());
        text.byte(b'\n');
    }
    text.add(MORE_HELP);
}

fn write_help(line: &mut Line) -> Result<(), AllocError> {
    line.begin_list("commands")?;
    line.raw_word("N")?;
    for name in NAMES {
        line.raw_word(name.usage())?;
    }
    line.end_list()
}

// The records, which are lines, as the objects of a list.
fn add_records(text: &mut Text, records: &[u8]) {
    text.add("{\"answer\":\"turns\",\"records\":[");
    let lines = records.strip_suffix(b"\n".as_slice()).unwrap_or(records);
    for byte in lines {
        text.byte(if *byte == b'\n' { b',' } else { *byte });
    }
    text.byte(b']');
}

impl<M: Machine> Play<'_, M> {
    fn fault(&self, text: Vec<u8>, sentence: &[u8]) -> Result<Vec<u8>, PlayFault> {
        Ok(add_fault(self.alloc, self.is_json, text, sentence)?)
    }

    /// Adds what is wrong with a line to the text.
    pub fn add_mistake(&self, mistake: &Mistake<'_>, text: Vec<u8>) -> Result<Vec<u8>, PlayFault> {
        let mut sentence = Text::new(self.alloc);
        add_mistake(&mut sentence, mistake);
        self.fault(text, sentence.end()?.as_slice())
    }

    /// Adds a sentence on what went wrong to the text.
    pub fn add_fault(&self, sentence: &str, text: Vec<u8>) -> Result<Vec<u8>, PlayFault> {
        self.fault(text, sentence.as_bytes())
    }

    /// Adds the answer to a command to the text, carrying it out. What a command does beyond the session, to save a schedule and to
    /// end, is left to the caller.
    pub fn answer(&mut self, command: &Command<'_>, text: Vec<u8>) -> Result<Vec<u8>, PlayFault> {
        match command {
            Command::Turn(number) => self.answer_turns(*number, false, text),
            Command::Go(number) => self.answer_turns(*number, true, text),
            Command::Until(goal) => {
                let printed = self.take_turns(Pace::Until(*goal))?;
                self.answer_printed(printed, text)
            }
            Command::Back(turns) => self.answer_back(turns.unwrap_or(1), text),
            Command::Fds(number) => self.answer_fds(*number, text),
            Command::Why(number) => self.answer_why(*number, text),
            Command::Answers(states) => self.answer_rest(*states, text),
            Command::Watch(is_on) => self.answer_watch(*is_on, text),
            other => self.answer_view(other, text),
        }
    }

    // Turns of one process.
    fn answer_turns(
        &mut self,
        number: u64,
        goes_on: bool,
        text: Vec<u8>,
    ) -> Result<Vec<u8>, PlayFault> {
        let Some(pid) = pid_of(number) else {
            let sentence = no_process(self.alloc, number)?;
            return self.fault(text, sentence.as_slice());
        };
        if self.kernel().state(pid) != State::Runnable {
            let sentence = self.why(pid)?;
            return self.fault(text, sentence.as_slice());
        }
        let pace = if goes_on {
            Pace::Go(pid.index())
        } else {
            Pace::Once(pid.index())
        };
        let printed = self.take_turns(pace)?;
        self.answer_printed(printed, text)
    }

    // Why the process can't take a turn, in a sentence.
    fn why(&self, pid: Pid) -> Result<Vec<u8>, AllocError> {
        let mut sentence = Text::new(self.alloc);
        add_why(&mut sentence, &self.narrator, pid);
        sentence.end()
    }

    // What turns did, and how it stands after them.
    fn answer_printed(&self, printed: Printed, text: Vec<u8>) -> Result<Vec<u8>, PlayFault> {
        let mut text = Text::behind(self.alloc, text);
        if self.is_json {
            self.add_turns_object(
                &mut text,
                printed.records.as_slice(),
                printed.turns,
                printed.is_cut,
            );
            return Ok(text.end()?);
        }
        text.bytes(printed.text.end()?.as_slice());
        self.add_standing(&mut text, printed.turns, printed.is_cut);
        Ok(text.end()?)
    }

    // The object of turns: their records, how many they are, how the run stands, that they ended because there were too many, and
    // what was full.
    fn add_turns_object(&self, text: &mut Text, records: &[u8], turns: usize, is_cut: bool) {
        add_records(text, records);
        text.add(",\"turns\":");
        text.number(turns as u64);
        text.add(",\"stands\":\"");
        text.add(self.standing());
        text.byte(b'"');
        if is_cut {
            text.add(",\"cut\":true");
        }
        self.add_full(text);
        text.add("}\n");
    }

    // What was full, as a field.
    fn add_full(&self, text: &mut Text) {
        if let Some(full) = self.kernel().full() {
            text.add(",\"full\":\"");
            text.add(full_word(full));
            text.byte(b'"');
        }
    }

    // How the run stands after turns.
    fn add_standing(&self, text: &mut Text, turns: usize, is_cut: bool) {
        if self.is_apart() {
            text.add(APART);
        }
        if is_cut {
            text.count(turns, "turn");
            text.add(" are the most of one command\n");
        }
        text.add(match self.standing() {
            "finished" => "the run is finished: only init is left\n",
            "stuck" => "nobody is runnable, and the run isn't finished\n",
            _ => "",
        });
    }

    // How the run stands: it is finished, somebody is Runnable, or nobody is.
    fn standing(&self) -> &'static str {
        if self.kernel().is_finished() {
            "finished"
        } else if self.kernel().runnable() == 0 {
            "stuck"
        } else {
            "runnable"
        }
    }

    fn answer_back(&mut self, turns: u64, text: Vec<u8>) -> Result<Vec<u8>, PlayFault> {
        let alloc = self.alloc;
        let is_back = self.back(turns)?;
        if self.is_json && is_back {
            let mut line = begin(alloc, "back", text)?;
            line.count("turns", self.turns() as u64)?;
            return Ok(line.end()?);
        }
        let mut sentence = Text::new(alloc);
        sentence.count(self.turns(), "turn");
        sentence.add(if is_back {
            " left"
        } else {
            " can be taken back, and no more"
        });
        let text = self.fault(text, sentence.end()?.as_slice())?;
        if !is_back || self.is_json {
            return Ok(text);
        }
        let mut text = Text::behind(alloc, text);
        self.add_watched(&mut text);
        Ok(text.end()?)
    }

    // The process of this number, if there is one.
    fn there(&self, number: u64) -> Option<Pid> {
        let pid = pid_of(number)?;
        if self.kernel().state(pid) == State::Free {
            None
        } else {
            Some(pid)
        }
    }

    fn answer_fds(&self, number: u64, text: Vec<u8>) -> Result<Vec<u8>, PlayFault> {
        let alloc = self.alloc;
        let Some(pid) = self.there(number) else {
            let sentence = no_process(alloc, number)?;
            return self.fault(text, sentence.as_slice());
        };
        if self.is_json {
            let mut line = begin(alloc, "fds", text)?;
            write_fds(&mut line, self.kernel(), pid)?;
            return Ok(line.end()?);
        }
        let mut text = Text::behind(alloc, text);
        add_fds(&mut text, &self.narrator, pid);
        Ok(text.end()?)
    }

    fn answer_why(&self, number: u64, text: Vec<u8>) -> Result<Vec<u8>, PlayFault> {
        let alloc = self.alloc;
        let Some(pid) = self.there(number) else {
            let sentence = no_process(alloc, number)?;
            return self.fault(text, sentence.as_slice());
        };
        let sentence = self.why(pid)?;
        if self.is_json {
            let mut line = begin(alloc, "why", text)?;
            line.pid("pid", pid)?;
            write_state(&mut line, &self.narrator, pid)?;
            line.bytes("text", sentence.as_slice())?;
            return Ok(line.end()?);
        }
        self.fault(text, sentence.as_slice())
    }

    // What can still come out, by every order of turns from here.
    fn answer_rest(&self, states: Option<u64>, text: Vec<u8>) -> Result<Vec<u8>, PlayFault> {
        let taken = self.turns();
        let found = match self.rest(states_after(taken, states)) {
            Ok(found) => found,
            Err(fault) => return self.fault(text, no_rest(fault).as_bytes()),
        };
        if self.is_json {
            let mut line = begin(self.alloc, Name::Answers.word(), text)?;
            write_rest(&mut line, &found, taken)?;
            return Ok(line.end()?);
        }
        let mut text = Text::behind(self.alloc, text);
        add_rest(&mut text, &found, taken);
        Ok(text.end()?)
    }

    // The answers are printed after each turn from now on, or no more.
    fn answer_watch(&mut self, is_on: bool, text: Vec<u8>) -> Result<Vec<u8>, PlayFault> {
        if self.is_json {
            return self.fault(text, NO_WATCH.as_bytes());
        }
        self.watches = is_on;
        self.fault(text, if is_on { WATCHED } else { UNWATCHED }.as_bytes())
    }

    // What can still come out after a turn, where that is watched.
    pub(crate) fn add_watched(&self, text: &mut Text) {
        if !self.watches {
            return;
        }
        let taken = self.turns();
        match self.rest(states_after(taken, None)) {
            Ok(found) => add_rest(text, &found, taken),
            Err(fault) => {
                text.add(no_rest(fault));
                text.byte(b'\n');
            }
        }
    }

    // What is looked at, and nothing is done.
    fn answer_view(&self, command: &Command<'_>, text: Vec<u8>) -> Result<Vec<u8>, PlayFault> {
        if self.is_json {
            return Ok(self.object_of(command, text)?);
        }
        let mut text = Text::behind(self.alloc, text);
        match command {
            Command::Ps => add_ps(&mut text, &self.narrator)?,
            Command::Pipes => add_pipes(&mut text, &self.narrator)?,
            Command::Files => add_files(&mut text, self.kernel()),
            Command::Out => add_out(&mut text, self.kernel()),
            Command::Schedule => text.bytes(self.schedule()?.as_slice()),
            Command::Help => add_help(&mut text),
            Command::Save(_) => text.add("the schedule is written\n"),
            _ => {}
        }
        Ok(text.end()?)
    }

    fn object_of(&self, command: &Command<'_>, text: Vec<u8>) -> Result<Vec<u8>, AllocError> {
        let alloc = self.alloc;
        let mut line = begin(alloc, name_of(command), text)?;
        match command {
            Command::Ps => write_ps(&mut line, alloc, &self.narrator)?,
            Command::Pipes => write_pipes(&mut line, alloc, self.kernel())?,
            Command::Files => write_files(&mut line, self.kernel().files())?,
            Command::Out => {
                line.bytes("out", self.kernel().out())?;
                line.bytes("diag", self.kernel().diag())?;
            }
            Command::Schedule => {
                let events = schedule_text(alloc, self.kernel().schedule())?;
                line.bytes("events", events.as_slice())?;
            }
            Command::Help => write_help(&mut line)?,
            _ => {}
        }
        line.end()
    }

    /// Adds the processes to the text, of more lines than so many the first and how many are left out.
    pub fn add_view(&self, most: usize, text: Vec<u8>) -> Result<Vec<u8>, PlayFault> {
        let mut whole = Text::new(self.alloc);
        add_ps(&mut whole, &self.narrator)?;
        let mut text = Text::behind(self.alloc, text);
        add_first_lines(&mut text, whole.end()?.as_slice(), most);
        Ok(text.end()?)
    }

    /// The schedule so far, as `replay` takes it.
    pub fn schedule(&self) -> Result<Vec<u8>, PlayFault> {
        Ok(schedule_text(self.alloc, self.kernel().schedule())?)
    }
}

// Adds the first lines of these, so many, and how many are left out.
fn add_first_lines(text: &mut Text, whole: &[u8], most: usize) {
    let mut lines: usize = 0;
    for byte in whole {
        if lines < most {
            text.byte(*byte);
        }
        if *byte == b'\n' {
            lines = lines.saturating_add(1);
        }
    }
    if most < lines {
        text.add("and ");
        text.number((lines - most) as u64);
        text.add(" more\n");
    }
}

// What the answer to a command is called.
fn name_of(command: &Command<'_>) -> &'static str {
    match command {
        Command::Ps => Name::Ps.word(),
        Command::Pipes => Name::Pipes.word(),
        Command::Files => Name::Files.word(),
        Command::Out => Name::Out.word(),
        Command::Schedule => Name::Schedule.word(),
        Command::Save(_) => Name::Save.word(),
        Command::Help => Name::Help.word(),
        Command::Quit => Name::Quit.word(),
        _ => "nothing",
    }
}
