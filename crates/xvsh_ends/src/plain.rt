//! How a run by its meaning ends.
ghost use Rattle.std.specs.Prelude.{◌≡◌, ◌↔◌, ◌++◌, true, ℕ, List, Contains, Option, IfOk, OnOk, map};
ghost use Rattle.mem_files.specs.Name.{Bytes};
ghost use Rattle.mem_files.specs.Files.{files};
ghost use Rattle.mem_files.specs.Listing.{AreFiles};
ghost use Rattle.meaning_model.specs.Value.{Value};
ghost use Rattle.reason_sentences.specs.Sentences.{reason_text};
ghost use Rattle.xvsh_plain.specs.Reasoned.{DidPlain};
ghost use Rattle.xvsh_plain.specs.Running.{IsRunText};
ghost use Rattle.xvsh_read.specs.Path.{Path};
ghost use Rattle.xvsh_read.specs.Writing.{out_text};
ghost use Rattle.xvsh_ends.specs.Ends.{IsDue, told_text, verdict_status, verdict_text};
ghost use Rattle.xvsh_ends.specs.Printed.{IsPrinted};
ghost use Rattle.xvsh_ends.specs.Reports.{diagnostics_text, known_text, why_text};
ghost use Rattle.xvsh_ends.specs.Requests.{diagnosed_asked, plain_printed_asked};
ghost use Rattle.xvsh_read.specs.Status.{status_code};

use crate::ending::{Ending, Line, report_no_memory};
use crate::printing::report_as;
use crate::values::{leaving, print_made};
use plain_run::Reason;
use reason_sentences::first_reason;
use result_json::plain_result;
use std::alloc::{AllocError, Global};
use xvsh_plain::{Diagnostics, PlainRequest, PlainRun, PrintedRun, printed, run_plain};
use xvsh_read::{Host, Output, Status};

/// The text of the verdict.
pub fn verdict(is_settled: bool) -> &'static str
    ensures { result.now ≡ verdict_text is_settled }
{
    if is_settled {
        "settled\n"
    } else {
        "not settled\n"
    }
}

/// The status of a script that ran: where it is requested strictly, one that isn't settled has 3.
pub fn verdict_status(is_strict: bool, is_settled: bool) -> Status
    ensures { status_code result ≡ verdict_status is_strict is_settled }
{
    Status::by(is_settled || !is_strict)
}

// The diagnostics of a script, where every order writes these, or a line that says why there are none (own).
fn diagnostics_text(known: &Diagnostics) -> &[u8]
    ensures { result.now ≡ diagnostics_text known.now }
{
    match known {
        Diagnostics::Same(text) => text.as_slice(),
        Diagnostics::Differ => b"diagnostics: not the same in every order\n",
        Diagnostics::Untried => b"diagnostics: not every order was tried\n",
        Diagnostics::Full => b"diagnostics: something is full in every order\n",
        Diagnostics::Asleep => b"diagnostics: in some order every process sleeps for ever\n",
    }
}

// Adds the same, where they were asked for.
fn add_known(known: &Option<Diagnostics>, text: &mut Vec<u8>) -> Result<(), AllocError>
    ensures { OnOk result (text.new.items ≡ text.old.items ++ known_text known.now) }
{
    match known {
        Some(known) => text.extend_from_slice(diagnostics_text(known)),
        None => Ok(()),
    }
}

// The sentence of the first of these reasons, if it is asked for.
fn why_if(alloc: Global, reasons: &[Reason<Global>], is_asked: bool) -> Result<Vec<u8>, AllocError>
    ensures { IfOk result (λ why. why.items ≡ why_text is_asked (map reason_text reasons.now)) }
{
    if is_asked {
        first_reason(alloc, reasons)
    } else {
        Ok(Vec::new(alloc))
    }
}

// What goes to standard error: what is known of the diagnostics, whether the script is settled, and strictly why it isn't.
fn report_of(alloc: Global, run: &PlainRun, is_strict: bool) -> Result<Vec<u8>, AllocError>
    ensures { IfOk result (λ text. text.items ≡ known_text run.now.known ++ (verdict_text run.now.reasoned.plain.settled ++ why_text is_strict (map reason_text run.now.reasoned.reasons.items))) }
{
    let mut text = Vec::new(alloc);
    add_known(&run.known, &mut text)?;
    text.extend_from_slice(verdict(run.reasoned.plain.settled).as_bytes())?;
    let why = why_if(alloc, run.reasoned.reasons.as_slice(), is_strict)?;
    text.extend_from_slice(why.as_slice())?;
    Ok(text)
}

// What a run prints, with its report.
fn text_of(alloc: Global, run: PlainRun, request: &PlainRequest<'_>) -> Result<Ending, AllocError>
    ensures out { IfOk result (λ ending. (value : Value) → AreFiles run.reasoned.plain.files → run.reasoned.plain.out ≡ value.out → ((name : List ℕ) → files run.reasoned.plain.files name ≡ value.files name) → ((name : List ℕ) → Contains run.reasoned.plain.soft name ↔ (value.soft name ≡ true))
        → IsRunText request.now.lists_files value (out_text ending.output)) }
    ensures report { IfOk result (λ ending. told_text ending ≡ known_text run.known ++ (verdict_text run.reasoned.plain.settled ++ why_text request.now.is_strict (map reason_text run.reasoned.reasons.items))) }
    ensures status { IfOk result (λ ending. status_code ending.status ≡ verdict_status request.now.is_strict run.reasoned.plain.settled) }
    ensures bad { IfOk result (λ ending. ending.bad.items ≡ run.bad.items) }
    ensures dead { IfOk result (λ ending. ending.dead.items ≡ run.dead.items) }
{
    let err = report_of(alloc, &run, request.is_strict)?;
    let status = verdict_status(request.is_strict, run.reasoned.plain.settled);
    let PlainRun {
        reasoned,
        bad,
        dead,
        ..
    } = run;
    let PrintedRun { output, files } = printed(alloc, reasoned.plain, request.lists_files)?;
    Ok(Ending {
        output: Output { err, ..output },
        line: Line::Fixed(""),
        status,
        recording: None,
        left: Some(files),
        hint: "",
        bad,
        dead,
    })
}

// The same, or that memory was refused for it.
fn text_ending(alloc: Global, run: PlainRun, request: &PlainRequest<'_>) -> Ending
    ensures { (input : Option Bytes) (file : Path → Option Bytes) → DidPlain input file request.now run → IsDue input file (diagnosed_asked request.now.finds_diagnostics request.now) result }
{
    match text_of(alloc, run, request) {
        Ok(ending) => ending,
        Err(_) => report_no_memory(alloc),
    }
}

// The object of a run.
fn object_of(alloc: Global, run: PlainRun, is_strict: bool) -> Ending
    ensures { (text report : Bytes) → IsPrinted true text report (verdict_status is_strict run.reasoned.plain.settled) result }
{
    let status = verdict_status(is_strict, run.reasoned.plain.settled);
    let made = plain_result(alloc, &run.reasoned, run.dead.as_slice(), status);
    leaving(print_made(alloc, made, status), run.reasoned.plain.files)
}

/// Runs a script by its meaning, and returns what it prints and whether it is settled, with what is known of its diagnostics and strictly
/// why it isn't settled, or why it can't be run; as one object of JSON, which has no diagnostics, if that is requested.
pub fn plain_ending<H: Host>(alloc: Global, request: &PlainRequest<'_>, host: &mut H) -> Ending
    ensures { IsDue (H.input host.old) (H.file host.old) (plain_printed_asked request.now.is_json request.now) result }
{
    let run = match run_plain(alloc, request, host) {
        Ok(run) => run,
        Err(fault) => return report_as(alloc, "plain", request.is_json, fault),
    };
    if request.is_json {
        object_of(alloc, run, request.is_strict)
    } else {
        text_ending(alloc, run, request)
    }
}
