//! How a request ends whose standard input can't be read.
ghost use Rattle.std.specs.Prelude.{◌≡◌, ℕ, List, [], None, Some, Option, is_some};
ghost use Rattle.xvsh_read.specs.Path.{Path};
ghost use Rattle.xvsh_read.specs.Reading.{IsReadFault, max_input, told_at};
ghost use Rattle.xvsh_read.specs.Writing.{out_text};
ghost use Rattle.xvsh_ends.specs.Ends.{IsDue};
ghost use Rattle.xvsh_ends.specs.Requests.{UnlessPrinted, unread_asked, wants_json};
ghost use Rattle.xvsh_read.specs.Status.{status_code};

use crate::ending::{Ending, report_fault};
use crate::request::Request;
use crate::values::print_made;
use result_json::fault_result;
use std::alloc::Global;
use xvsh_read::Fault;

// The name of the command, where it is to print an object of JSON.
fn json_name(request: &Request<'_>) -> Option<&'static str>
    ensures { is_some result ≡ wants_json request.now }
{
    let (is_json, name) = match request {
        Request::Run(run) => (run.is_json, "run"),
        Request::Replay(replay) => (replay.is_json, "replay"),
        Request::Plain(plain) => (plain.is_json, "plain"),
        Request::Check(check) => (check.is_json, "check"),
        Request::Explain(explain) => (explain.is_json, "explain"),
        Request::Explore(explore) => (explore.is_json, "explore"),
        Request::Draw(_) => (false, "draw"),
    };
    if is_json { Some(name) } else { None }
}

/// Returns how a request ends whose standard input, which is at a path, can't be read: with the report of the fault, or with its
/// object of JSON, where the request asks for one.
pub fn unread_ending(alloc: Global, request: &Request<'_>, fault: Fault<'_>) -> Ending
    ensures due { (input : Option (List ℕ)) (file : Path → Option (List ℕ)) (path : Path) → IsReadFault max_input (told_at input file path) path fault.entry → IsDue input file (unread_asked request.now path) result }
    ensures nothing { (path : Path) → UnlessPrinted (unread_asked request.now path) (status_code result.status) (out_text result.output ≡ []) }
{
    match json_name(request) {
        Some(name) => {
            let made = fault_result(alloc, name, fault);
            print_made(alloc, made, fault.status())
        }
        None => report_fault(alloc, fault),
    }
}
