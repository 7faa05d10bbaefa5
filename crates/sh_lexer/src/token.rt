//! Tokens.

/// The kind of a token: a word, or a sign with this text (`user/sh.c`'s `gettoken`).
#[derive(Clone, Copy, Debug, PartialEq, Eq)]
pub enum Kind {
    /// A longest run of bytes that are neither white space nor signs.
    Word,
    /// `<`
    Less,
    /// `>`
    More,
    /// `>>`
    MoreMore,
    /// `|`
    Bar,
    /// `&`
    Amp,
    /// `;`
    Semi,
    /// `(`
    LeftParen,
    /// `)`
    RightParen,
}

/// A token of a line: its kind, and its bytes, from `first` up to and without `past`, counted from 0.
#[derive(Clone, Copy, Debug, PartialEq, Eq)]
pub struct Token {
    pub kind: Kind,
    pub first: usize,
    pub past: usize,
}
