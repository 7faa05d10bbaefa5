//! What all runs of the program share: its host and its faults, what is read before a script runs, and how bytes and
//! files are written.
#![tactic(auto)]

mod collecting;
mod console;
mod fault;
mod file_list;
mod given;
mod host;
mod prepared;
mod reading;
mod starting;
mod status;
mod traces;
mod writing;

pub use collecting::read_all;
pub use console::Console;
pub use fault::Fault;
pub use file_list::listing;
pub use given::{Given, Inputs, NOTHING, TEXT_PATH, read_given};
pub use host::{Hints, Host, HostFault};
pub use prepared::prepare_read;
pub use reading::{MAX_INPUT, STDIN, read};
pub use starting::{Source, Start, prepare, profile_of, read_script};
pub use status::Status;
pub use traces::Traces;
pub use writing::{Output, Unwritten, write, write_out};
