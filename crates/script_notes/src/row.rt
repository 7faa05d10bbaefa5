//! A line of a script as notes speak of it.

/// A line of a script.
#[derive(Clone, Copy)]
pub struct Row<'t> {
    /// Counted from 1.
    pub number: usize,
    /// Its bytes, without its LF.
    pub text: &'t [u8],
}
