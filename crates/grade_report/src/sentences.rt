//! Verdicts in words.

use grade_verdicts::{Difference, Place, Race, Refusal, Verdict};
use kernel_model::Full;
use note_texts::sentence;
use result_json::full_word;
use script_notes::NoteKind;
use shown::add_shown;
use std::alloc::{AllocError, Global};

/// The verdict in a word or a few (own).
pub fn word_of(verdict: Option<&Verdict>) -> &'static str {
    let Some(verdict) = verdict else {
        return "not judged";
    };
    match verdict {
        Verdict::Pass => "pass",
        Verdict::PassEveryOrder => "pass, every order tried",
        Verdict::Wrong(_) => "wrong",
        Verdict::WrongSoFar(_) => "wrong so far",
        Verdict::Race(_) => "race",
        Verdict::Unsure(_) => "unsure",
        Verdict::Refused(_) => "refused",
        Verdict::TooLarge => "too large",
        Verdict::NoRoom(_) => "no room",
        Verdict::Spent => "spent",
    }
}

fn add(text: &mut Vec<u8>, words: &str) -> Result<(), AllocError> {
    text.extend_from_slice(words.as_bytes())
}

// Adds where the difference is.
fn add_place(text: &mut Vec<u8>, place: &Place) -> Result<(), AllocError> {
    match place {
        Place::Output => add(text, "output"),
        Place::File(name) | Place::NoFile(name) => {
            add(text, "file ")?;
            add_shown(text, name.as_slice())
        }
    }
}

// Adds a line, or that there is none.
fn add_line(text: &mut Vec<u8>, from: usize, line: Option<&Vec<u8>>) -> Result<(), AllocError> {
    match line {
        None => add(text, "no more"),
        Some(line) => {
            add(text, if from == 0 { "`" } else { "..`" })?;
            add_shown(text, line.as_slice())?;
            add(text, "`")
        }
    }
}

fn add_difference(
    alloc: Global,
    text: &mut Vec<u8>,
    difference: &Difference,
) -> Result<(), AllocError> {
    add_place(text, &difference.place)?;
    if let Place::NoFile(_) = &difference.place {
        return add(text, " is expected, and isn't there");
    }
    let line = format!(in alloc; ", line {}: expected ", difference.line)?;
    add(text, line.as_str())?;
    add_line(text, difference.from, difference.expected.as_ref())?;
    add(text, ", found ")?;
    add_line(text, difference.from, difference.found.as_ref())
}

fn add_race(alloc: Global, text: &mut Vec<u8>, race: &Race) -> Result<(), AllocError> {
    let right = race.right.len().saturating_mul(2);
    let wrong = race.wrong.len().saturating_mul(2);
    let begin = format!(in alloc;
        "right in one order of its processes ({right} events), and not in another ({wrong} events): "
    )?;
    add(text, begin.as_str())?;
    add_difference(alloc, text, &race.difference)
}

fn add_refusal(alloc: Global, text: &mut Vec<u8>, refusal: &Refusal) -> Result<(), AllocError> {
    match refusal {
        Refusal::Script(fault) => {
            let words = format!(in alloc; "{fault}")?;
            add(text, words.as_str())
        }
        Refusal::Line(line, kind) => {
            let begin = format!(in alloc; "line {line}: ")?;
            add(text, begin.as_str())?;
            text.extend_from_slice(sentence(*kind))
        }
    }
}

// Adds how many ends of runs were found, of which each is right.
fn add_unsure(alloc: Global, text: &mut Vec<u8>, found: usize) -> Result<(), AllocError> {
    if found == 0 {
        return add(text, UNFINISHED);
    }
    let ends = if found == 1 { "end" } else { "ends" };
    let words = format!(in alloc;
        "right in each order of its processes that was tried to its end ({found} different {ends}), but not every order was tried"
    )?;
    add(text, words.as_str())
}

// Adds what was full.
fn add_full(text: &mut Vec<u8>, full: Full) -> Result<(), AllocError> {
    add(text, NO_ROOM)?;
    add(text, full_word(full))
}

// Adds why this is the verdict.
fn add_verdict(alloc: Global, text: &mut Vec<u8>, verdict: &Verdict) -> Result<(), AllocError> {
    match verdict {
        Verdict::Pass | Verdict::PassEveryOrder => Ok(()),
        Verdict::Wrong(difference) | Verdict::WrongSoFar(difference) => {
            add_difference(alloc, text, difference)
        }
        Verdict::Race(race) => add_race(alloc, text, race),
        Verdict::Unsure(found) => add_unsure(alloc, text, *found),
        Verdict::Refused(refusal) => add_refusal(alloc, text, refusal),
        Verdict::TooLarge => add(text, TOO_LARGE),
        Verdict::NoRoom(full) => add_full(text, *full),
        Verdict::Spent => add(text, SPENT),
    }
}

/// Why this is the verdict, on one line in printable ASCII (own); empty of a test that is passed.
///
/// `AllocError` where memory is refused.
pub fn sentence_of(alloc: Global, verdict: Option<&Verdict>) -> Result<Vec<u8>, AllocError> {
    let mut text = Vec::new(alloc);
    match verdict {
        Some(verdict) => add_verdict(alloc, &mut text, verdict)?,
        None => add(&mut text, NOT_JUDGED)?,
    }
    Ok(text)
}

// Why a line is no command, in a few words.
fn brief_of(kind: NoteKind) -> &'static str {
    match kind {
        NoteKind::MissingName => "a file's name is missing",
        NoteKind::OpenParen => "a ( is open",
        NoteKind::TenthWord => "a command has ten words",
        NoteKind::LateParen => "a ( stands behind a word",
        NoteKind::StrayParen => "a ) closes nothing",
        _ => "the line can't go on like this",
    }
}

/// The same in a report that printed the sentences of these kinds before, of lines that are no command: such a sentence stands once, and
/// then a few words for it.
///
/// `AllocError` where memory is refused.
pub fn sentence_beside(
    alloc: Global,
    verdict: Option<&Verdict>,
    printed: &mut Vec<NoteKind>,
) -> Result<Vec<u8>, AllocError> {
    let Some(Verdict::Refused(Refusal::Line(line, kind))) = verdict else {
        return sentence_of(alloc, verdict);
    };
    if printed.contains(kind) {
        let brief = brief_of(*kind);
        let text = format!(in alloc; "line {line}: {brief}, as above")?;
        return Ok(text.into_bytes());
    }
    printed.push(*kind)?;
    sentence_of(alloc, verdict)
}

const UNFINISHED: &str =
    "not every order of its processes was tried, and no run by those that were came to an end";

const TOO_LARGE: &str =
    "the script is too long, or one of its files would be too large, or one too many";

const NO_ROOM: &str = "it would leave what is expected, but a run of it has no room: full ";

const SPENT: &str =
    "a run has more events than the test allows, or in some order all its processes sleep for ever";

const NOT_JUDGED: &str = "memory was refused";
