//! How the program ends on words that are no command.

use std::io::{self, Write};
use xvsh_ends::{Ending, write_ending};

/// Writes an ending, and returns its status.
pub fn report<E: Write>(rt: &impl Print, ending: &Ending, err: &mut E) -> u8 {
    write_ending(ending, &mut io::writer(rt), err).code()
}
