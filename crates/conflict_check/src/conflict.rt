//! How commands of a tree may meet at a file.

/// How commands of a tree may meet at a file (own).
#[derive(Clone, Copy, Debug, PartialEq, Eq)]
pub enum ClashKind {
    /// One side of a pipe writes the file, and the other reads or writes it.
    PipeSides,
    /// A redirection writes the file and its body reads or writes it, or a redirection reads the file
    /// and its body writes it.
    Enclosing,
}

/// A file at which commands of a tree may meet (own).
#[derive(Clone, Copy, Debug, PartialEq, Eq)]
pub struct Clash<'t> {
    /// The file's name, as the tree has it.
    pub name: &'t [u8],
    /// How they may meet there.
    pub kind: ClashKind,
}
