//! Where the program reads and writes.

/// Where a command reads and writes.
#[derive(Drop)]
pub struct Console<H, W, E> {
    /// Gives standard input and the files at paths.
    pub host: H,
    /// Standard output.
    pub out: W,
    /// Standard error.
    pub err: E,
}
