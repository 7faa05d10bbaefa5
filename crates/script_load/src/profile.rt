//! What `>>` means.

/// What `>>` means in a script.
#[derive(Clone, Copy, Debug, PartialEq, Eq)]
pub enum Profile {
    /// xv6's: `>>` opens the file without emptying it, and writes from its beginning (`user/sh.c`'s `parseredirs`
    /// and `runcmd`, whose mode has no appending).
    Xv6,
    /// `>>` appends: each write goes to the file's end at that time (own).
    Append,
}
