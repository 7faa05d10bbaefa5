//! With what each request ends: what is printed, and the status; and how that is written.
#![tactic(auto)]

mod checks;
mod drawing;
mod ending;
mod explanations;
mod explorations;
mod filing;
mod lining;
mod objects;
mod pages;
mod plain;
mod playing;
mod printing;
mod process_faults;
mod processes;
mod request;
mod run_objects;
mod tracing;
mod unpaired;
mod unread;
mod values;
mod witnesses;

pub use ending::{
    Ending, Line, hint_of, no_output, report, report_fault, report_made, report_no_memory,
    write_ending,
};
pub use request::{Request, ending_of};
pub use unread::unread_ending;
pub use xvsh_checks::{CheckRequest, ExplainRequest};
pub use xvsh_draws::{Bounds, DrawRequest};
pub use xvsh_explores::{ExploreRequest, MAX_STATES};
pub use xvsh_plain::PlainRequest;
pub use xvsh_runs::{Lists, MAX_HARTS, MAX_TURNS, ReplayRequest, RunRequest};
