//! The report of what was found in a script's lines.
ghost use Rattle.std.specs.Prelude.{◌≡◌, ◌++◌, ℕ, OnOk, IfOk};
ghost use Rattle.check_texts.specs.Findings.{clash_text, fault_line, fault_text, finding_text, findings_text, kind_name};

use conflict_check::ClashKind;
use sh_tree::ParseFault;
use std::alloc::{AllocError, Global};
use xvsh_checks::Finding;

// What is printed of a fault: its number, its name and its place.
#[derive(Clone, Copy)]
struct FaultParts {
    kind: usize,
    name: &'static [u8],
    at: usize,
}

fn parts_of(fault: ParseFault) -> FaultParts
    ensures { (number : ℕ) → fault_text number fault ≡ fault_line number result.kind result.name.now result.at }
{
    match fault {
        ParseFault::MissingFile(at) => FaultParts {
            kind: 1,
            name: b"MissingFile".as_slice(),
            at,
        },
        ParseFault::MissingParen(at) => FaultParts {
            kind: 2,
            name: b"MissingParen".as_slice(),
            at,
        },
        ParseFault::TooManyWords(at) => FaultParts {
            kind: 3,
            name: b"TooManyWords".as_slice(),
            at,
        },
        ParseFault::Unexpected(at) => FaultParts {
            kind: 4,
            name: b"Unexpected".as_slice(),
            at,
        },
        ParseFault::Leftover(at) => FaultParts {
            kind: 5,
            name: b"Leftover".as_slice(),
            at,
        },
        ParseFault::Memory => FaultParts {
            kind: 6,
            name: b"Memory".as_slice(),
            at: 0,
        },
    }
}

// Adds `N fault K NAME at P` and LF.
fn add_fault_line(
    alloc: Global,
    number: usize,
    fault: FaultParts,
    text: &mut Vec<u8>,
) -> Result<(), AllocError>
    ensures { OnOk result (text.new.items ≡ text.old.items ++ fault_line number fault.kind fault.name.now fault.at) }
{
    let FaultParts { kind, name, at } = fault;
    let begin = format!(in alloc; "{number} fault {kind} ")?;
    let end = format!(in alloc; " at {at}\n")?;
    text.extend_from_slice(begin.as_bytes())?;
    text.extend_from_slice(name)?;
    text.extend_from_slice(end.as_bytes())
}

fn add_fault(
    alloc: Global,
    number: usize,
    fault: ParseFault,
    text: &mut Vec<u8>,
) -> Result<(), AllocError>
    ensures { OnOk result (text.new.items ≡ text.old.items ++ fault_text number fault) }
{
    add_fault_line(alloc, number, parts_of(fault), text)
}

fn name_of_kind(kind: ClashKind) -> &'static [u8]
    ensures { result.now ≡ kind_name kind }
{
    match kind {
        ClashKind::PipeSides => b"PipeSides".as_slice(),
        ClashKind::Enclosing => b"Enclosing".as_slice(),
    }
}

// Adds `N clash KIND NAME` and LF.
fn add_clash(
    alloc: Global,
    number: usize,
    kind: ClashKind,
    name: &[u8],
    text: &mut Vec<u8>,
) -> Result<(), AllocError>
    ensures { OnOk result (text.new.items ≡ text.old.items ++ clash_text number kind name.now) }
{
    let begin = format!(in alloc; "{number} clash ")?;
    text.extend_from_slice(begin.as_bytes())?;
    text.extend_from_slice(name_of_kind(kind))?;
    text.push(b' ')?;
    text.extend_from_slice(name)?;
    text.push(b'\n')?;
    Ok(())
}

// Adds the line of a finding.
fn add_finding(alloc: Global, finding: &Finding, text: &mut Vec<u8>) -> Result<(), AllocError>
    ensures { OnOk result (text.new.items ≡ text.old.items ++ finding_text finding.now) }
{
    match finding {
        Finding::Fault { line, fault } => add_fault(alloc, *line, *fault, text),
        Finding::Background { line } => {
            let report = format!(in alloc; "{line} background\n")?;
            text.extend_from_slice(report.as_bytes())
        }
        Finding::Clash { line, kind, name } => {
            add_clash(alloc, *line, *kind, name.as_slice(), text)
        }
    }
}

/// The report of what was found in a script's lines, a line each, in their order: `N fault K NAME at P` of a line that is no command,
/// `N background` of one that holds a `&`, and `N clash KIND NAME` of its first clash (own). Lines are counted from 1, and places in a
/// line from 0.
///
/// `AllocError` where memory is refused.
pub fn text_of_findings(alloc: Global, findings: &[Finding]) -> Result<Vec<u8>, AllocError>
    ensures { IfOk result (λ text. text.items ≡ findings_text findings.now) }
{
    let mut text = Vec::new(alloc);
    let mut rest = findings;
    while let Some((finding, after)) = rest.split_first() {
        add_finding(alloc, finding, &mut text)?;
        rest = after;
    }
    Ok(text)
}
