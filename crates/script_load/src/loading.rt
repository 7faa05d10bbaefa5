//! Loading a script of its bytes.

ghost use Rattle.std.specs.Prelude.{◌≡◌, ◌↔◌, Contains, IfOk, IfErr, IsTrue, OnOk};
ghost use Rattle.script_load.specs.Line.{line_of, lines_of};
ghost use Rattle.script_load.specs.Script.{AllFine, HasLoadFault, IsLineOf, IsScript};

use crate::cutting::next_line;
use crate::fault::LoadFault;
use crate::line::{Line, Lines};
use crate::profile::Profile;
use crate::script::Script;
use bumpalo::Bump;
use sh_lexer::Bytes;
use sh_tree::{ParseFault, copy_in, parse};
use std::alloc::{AllocError, Allocator};

/// The most bytes that a line may have before its LF (own).
const MAX_LINE: usize = 511;

fn has_zero(line: &[u8]) -> bool
    ensures { IsTrue result ↔ Contains line.now 0 }
{
    line.contains(&0)
}

// Refuses the first line that is too long or holds a byte 0.
fn check(bytes: &[u8]) -> Result<(), LoadFault>
    ensures ok { OnOk result (AllFine bytes.now) }
    ensures err { IfErr result (HasLoadFault bytes.now) }
{
    let mut rest = bytes;
    let mut number = 1;
    while let Some((line, after)) = next_line(rest) {
        if line.len() > MAX_LINE {
            return Err(LoadFault::LineTooLong(number));
        }
        if has_zero(line) {
            return Err(LoadFault::ByteZero(number));
        }
        rest = after;
        number += 1;
    }
    Ok(())
}

// The line of a text. Its tree grows in an arena of its own, and is copied out of it in blocks of the
// right sizes; the arena is then freed whole.
fn read_line<A: Allocator + Copy>(alloc: A, text: &[u8]) -> Result<Line<A>, AllocError>
    ensures { IfOk result (λ line. IsLineOf text.now (line_of line)) }
{
    if let [b'c', b'd', b' ', rest @ ..] = text {
        return Ok(Line::Cd(Bytes::copy_of(alloc, rest)?));
    }
    let arena = Bump::new(alloc);
    match parse(&arena, text) {
        Ok(tree) => Ok(Line::Tree(copy_in(&tree, alloc)?)),
        Err(ParseFault::Memory) => Err(AllocError),
        Err(fault) => Ok(Line::Bad(fault, Bytes::copy_of(alloc, text)?)),
    }
}

// The lines of a script whose lines are fine.
fn read_script<A: Allocator + Copy>(
    alloc: A,
    bytes: &[u8],
    profile: Profile,
) -> Result<Script<A>, AllocError>
    requires { AllFine bytes.now }
    ensures script { IfOk result (λ script. IsScript bytes.now (lines_of script.lines)) }
    ensures profile { IfOk result (λ script. script.profile ≡ profile) }
{
    let mut lines = Vec::new(alloc);
    let mut rest = bytes;
    while let Some((text, after)) = next_line(rest) {
        lines.push(read_line(alloc, text)?)?;
        rest = after;
    }
    Ok(Script {
        lines: Lines::from_vec(lines),
        profile,
    })
}

/// The script of these bytes under xv6's profile, in which `>>` writes over a file from its beginning:
/// [`load_with`] at `Profile::Xv6`.
pub fn load<A: Allocator + Copy>(alloc: A, bytes: &[u8]) -> Result<Script<A>, LoadFault>
    ensures script { IfOk result (λ script. IsScript bytes.now (lines_of script.lines)) }
    ensures profile { IfOk result (λ script. script.profile ≡ Profile.Xv6) }
    ensures fault { IfErr result (HasLoadFault bytes.now) }
{
    load_with(alloc, bytes, Profile::Xv6)
}

/// The script of these bytes under a profile (`user/sh.c`'s `getcmd` and `main`; the limits are own).
///
/// A line ends at LF; a last line without LF counts if it has a byte. A line that begins with `cd `
/// is a `Cd`, a line that is no command a `Bad` with its fault, and any other a `Tree`: a line without
/// bytes is a command without words.
///
/// `LineTooLong` and `ByteZero` name the first line that has more than 511 bytes before its LF, or holds a
/// byte 0, counted from 1; a line with both is too long. These faults are looked for before anything is
/// allocated. `Memory` is returned only where no line has one.
pub fn load_with<A: Allocator + Copy>(
    alloc: A,
    bytes: &[u8],
    profile: Profile,
) -> Result<Script<A>, LoadFault>
    ensures script { IfOk result (λ script. IsScript bytes.now (lines_of script.lines)) }
    ensures profile { IfOk result (λ script. script.profile ≡ profile) }
    ensures fault { IfErr result (HasLoadFault bytes.now) }
{
    check(bytes)?;
    Ok(read_script(alloc, bytes, profile)?)
}
