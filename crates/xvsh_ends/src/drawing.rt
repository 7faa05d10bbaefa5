//! How a drawing of traces ends.
ghost use Rattle.std.specs.Prelude.{◌≡◌, []};
ghost use Rattle.xvsh_read.specs.Writing.{out_text};
ghost use Rattle.xvsh_ends.specs.Ends.{IsDue, asks_draw, told_text};
ghost use Rattle.xvsh_read.specs.Status.{status_code};

use crate::ending::{Ending, Line, no_output, report, report_no_memory};
use sh_lexer::Bytes;
use std::alloc::Global;
use xvsh_draws::{DrawFault, DrawRequest, run_draw};
use xvsh_read::{Host, Output, Status};

// Prints a page.
fn prints(alloc: Global, page: Vec<u8>) -> Ending
    ensures out { out_text result.output ≡ page.items }
    ensures told { told_text result ≡ [] }
    ensures status { status_code result.status ≡ 0 }
{
    Ending {
        output: Output {
            out: Bytes::from_vec(page),
            ..no_output(alloc)
        },
        line: Line::Fixed(""),
        status: Status::Done,
        recording: None,
        left: None,
        hint: "",
        bad: Vec::new(alloc),
        dead: Vec::new(alloc),
    }
}

// Reports why there is no page.
fn report_undrawn(alloc: Global, fault: DrawFault<'_>) -> Ending
    ensures nothing { out_text result.output ≡ [] }
{
    match format!(in alloc; "xvsh: {fault}\n") {
        Ok(text) => report(alloc, Line::Made(text), fault.status()),
        Err(_) => report_no_memory(alloc),
    }
}

/// Draws traces, and returns the page, or why there is none.
pub fn draw_ending<H: Host>(alloc: Global, request: &DrawRequest<'_>, host: &mut H) -> Ending
    ensures { IsDue (H.input host.old) (H.file host.old) asks_draw result }
{
    match run_draw(alloc, request, host) {
        Ok(page) => prints(alloc, page),
        Err(fault) => report_undrawn(alloc, fault),
    }
}
