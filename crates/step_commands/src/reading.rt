//! Words to a command.

ghost use Rattle.std.specs.Prelude.{◌≡◌, [], IfSome, IfOk, IfErr, IsSome};
ghost use Rattle.std.specs.Fmt.{decimal};
ghost use Rattle.step_commands.specs.Commands.{IsMistake, IsMistakeIn, Spells, SpellsOut, StandsFor, goal_words, number_word, spelled, watch_word, word_of};

use crate::command::{Command, Goal, Mistake};
use crate::cutting::cut;
use crate::meaning::{Meant, meaning_of};
use crate::name::Name;
use schedule_lines::number_of;

// A command that takes nothing.
fn alone<'a>(command: Command<'a>, second: &[u8], third: &[u8]) -> Option<Command<'a>>
    ensures same { IfSome result (λ same. same ≡ command.entry) }
    ensures second { IsSome result → second.now ≡ [] }
    ensures third { IsSome result → third.now ≡ [] }
{
    if second.is_empty() && third.is_empty() {
        Some(command)
    } else {
        None
    }
}

// What `until` waits for, where one word says it.
fn lone_goal(second: &[u8]) -> Option<Goal>
    ensures { IfSome result (λ goal. goal_words goal ≡ (second.now, [])) }
{
    if second == b"out".as_slice() {
        return Some(Goal::Out);
    }
    if second == b"end".as_slice() {
        return Some(Goal::End);
    }
    None
}

// What `until` waits for.
fn goal_of(second: &[u8], third: &[u8]) -> Option<Goal>
    ensures { IfSome result (λ goal. goal_words goal ≡ (second.now, third.now)) }
{
    if second == b"sleep".as_slice() {
        return Some(Goal::Sleep(number_of(third)?));
    }
    if second == b"exit".as_slice() {
        return Some(Goal::Exit(number_of(third)?));
    }
    if third.is_empty() {
        return lone_goal(second);
    }
    None
}

// The number that stands alone behind a name.
fn number_alone(second: &[u8], third: &[u8]) -> Option<u64>
    ensures { IfSome result (λ number. (second.now ≡ decimal number) × (third.now ≡ [])) }
{
    if !third.is_empty() {
        return None;
    }
    number_of(second)
}

// The path that stands alone behind a name.
fn path_alone<'a>(second: &'a [u8], third: &[u8]) -> Option<&'a [u8]>
    ensures { IfSome result (λ path. (path.now ≡ second.now) × (third.now ≡ [])) }
{
    if second.is_empty() || !third.is_empty() {
        return None;
    }
    Some(second)
}

// The number that may stand alone behind a name.
fn number_or_none(second: &[u8], third: &[u8]) -> Option<Option<u64>>
    ensures { IfSome result (λ number. (second.now ≡ number_word number) × (third.now ≡ [])) }
{
    if second.is_empty() && third.is_empty() {
        return Some(None);
    }
    Some(Some(number_alone(second, third)?))
}

// Whether answers are printed after each turn from now on, as one word says.
fn is_watched(second: &[u8]) -> Option<bool>
    ensures { IfSome result (λ is_on. watch_word is_on ≡ second.now) }
{
    if second == b"answers".as_slice() {
        return Some(true);
    }
    if second == b"off".as_slice() {
        return Some(false);
    }
    None
}

// The same of a word that stands alone behind the name.
fn watch_of(second: &[u8], third: &[u8]) -> Option<bool>
    ensures { IfSome result (λ is_on. (second.now ≡ watch_word is_on) × (third.now ≡ [])) }
{
    if !third.is_empty() {
        return None;
    }
    is_watched(second)
}

// The command of this name, with what stands behind it.
fn named<'a>(name: Name, second: &'a [u8], third: &[u8]) -> Option<Command<'a>>
    ensures { IfSome result (λ command. spelled command ≡ (word_of name, second.now, third.now)) }
{
    match name {
        Name::Go => Some(Command::Go(number_alone(second, third)?)),
        Name::Back => Some(Command::Back(number_or_none(second, third)?)),
        Name::Until => Some(Command::Until(goal_of(second, third)?)),
        Name::Ps => alone(Command::Ps, second, third),
        Name::Pipes => alone(Command::Pipes, second, third),
        Name::Fds => Some(Command::Fds(number_alone(second, third)?)),
        Name::Files => alone(Command::Files, second, third),
        Name::Out => alone(Command::Out, second, third),
        Name::Why => Some(Command::Why(number_alone(second, third)?)),
        Name::Answers => Some(Command::Answers(number_or_none(second, third)?)),
        Name::Watch => Some(Command::Watch(watch_of(second, third)?)),
        Name::Schedule => alone(Command::Schedule, second, third),
        Name::Save => Some(Command::Save(path_alone(second, third)?)),
        Name::Help => alone(Command::Help, second, third),
        Name::Quit => alone(Command::Quit, second, third),
    }
}

// The command of this name, for which the first word stands, with what stands behind it.
fn meant<'a>(
    first: &'a [u8],
    name: Name,
    second: &'a [u8],
    third: &[u8],
) -> Result<Command<'a>, Mistake<'a>>
    requires { StandsFor first.now name }
    ensures ok { IfOk result (λ command. Spells command (first.now, second.now, third.now)) }
    ensures mistake { IfErr result (IsMistake first.now) }
{
    match named(name, second, third) {
        Some(command) => Ok(command),
        None => Err(Mistake::Misused(name)),
    }
}

// The command of these words, of which one that is empty isn't there.
fn read<'a>(first: &'a [u8], second: &'a [u8], third: &[u8]) -> Result<Command<'a>, Mistake<'a>>
    ensures ok { IfOk result (λ command. Spells command (first.now, second.now, third.now)) }
    ensures mistake { IfErr result (IsMistake first.now) }
{
    if first.is_empty() && second.is_empty() && third.is_empty() {
        return Ok(Command::Nothing);
    }
    if let Some(pid) = number_of(first) {
        return alone(Command::Turn(pid), second, third).ok_or(Mistake::MoreThanNumber);
    }
    match meaning_of(first) {
        Meant::One(name) => meant(first, name, second, third),
        Meant::Several => Err(Mistake::Ambiguous(first)),
        Meant::Nothing => Err(Mistake::Unknown(first)),
    }
}

// What is wrong with a line of more than three words, of which this is the first.
fn too_many<'a>(first: &'a [u8]) -> Mistake<'a>
    ensures { IsMistake first.now result }
{
    if number_of(first).is_some() {
        return Mistake::MoreThanNumber;
    }
    match meaning_of(first) {
        Meant::One(name) => Mistake::Misused(name),
        Meant::Several => Mistake::Ambiguous(first),
        Meant::Nothing => Mistake::Unknown(first),
    }
}

/// The command that a line, without its LF, asks for. Words stand between spaces, tabs and CRs. In the place of a command's word another
/// one may stand (`undo`, `?`, `exit`), or a beginning of it that no other command's word has.
pub fn command_of<'a>(line: &'a [u8]) -> Result<Command<'a>, Mistake<'a>>
    ensures ok { IfOk result (λ command. SpellsOut line.now (spelled command)) }
    ensures mistake { IfErr result (IsMistakeIn line.now) }
{
    let (first, rest) = cut(line);
    let (second, rest) = cut(rest);
    let (third, rest) = cut(rest);
    let (fourth, _) = cut(rest);
    if fourth.is_empty() {
        return read(first, second, third);
    }
    Err(too_many(first))
}
