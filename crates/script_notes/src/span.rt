//! Places of a line.

/// The bytes of a line from `first` up to and without `past`, counted from 0 (own).
#[derive(Clone, Copy, Debug, PartialEq, Eq)]
pub struct Span {
    pub first: usize,
    pub past: usize,
}
