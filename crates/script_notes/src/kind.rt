//! The kinds of notes.

/// What a note says of the places that it marks (own).
#[derive(Clone, Copy, Debug, PartialEq, Eq)]
pub enum NoteKind {
    /// The script begins with a byte order mark.
    ByteOrderMark,
    /// The line ends in a carriage return.
    CarriageReturn,
    /// A word begins with `#`.
    NoComment,
    /// A word holds a quote or a backslash.
    NoQuote,
    /// A word holds a back quote.
    NoBackQuote,
    /// A `|` right behind another: `||`.
    NoOr,
    /// A `&` right behind another: `&&`.
    NoAnd,
    /// A `&` right behind a `|`: `|&`.
    NoMessagePipe,
    /// A `;` right behind another: `;;`.
    NoCommand,
    /// A `|` at the end of the line.
    LastBar,
    /// A `<` right behind another: `<<`.
    NoHereText,
    /// A `<` right behind another, and before a third: `<<<`.
    NoHereWord,
    /// A `>` or `>>` right behind a number: `2>`.
    NoNumber,
    /// A word holds a `$` before its end, and isn't grep's pattern.
    NoVariable,
    /// A `(` right behind a `$`: `$(`.
    NoSubstitution,
    /// A word holds a `*` or a `[`, and isn't grep's pattern.
    NoPattern,
    /// A word is `~` or begins with `~/`, and isn't grep's pattern.
    NoHome,
    /// A word holds a `{`, behind it a `,` and behind that a `}`, and isn't grep's pattern.
    NoBraces,
    /// An option of `cat` or `wc`, or behind the first argument of `grep` or `head`.
    NoOption,
    /// A first argument of `head` that is an option, and no number of lines.
    HeadOption,
    /// An option of `tee`.
    TeeOption,
    /// An option before the pattern of `grep`.
    GrepOption,
    /// An option of `echo`.
    EchoOption,
    /// A command's name is none of the six programs.
    NoProgram,
    /// A word names a file, and no file can have that name.
    NoFileName,
    /// A `&`.
    Background,
    /// A `>>`.
    WritesOver,
    /// A `<` after another `<` of its command.
    InputUnread,
    /// A `>` after a `>` or `>>` of its command.
    OutputEmptied,
    /// A `>>` after a `>` or `>>` of its command.
    OutputUnwritten,
    /// A line that begins with `cd `.
    NoDirectories,
    /// The fault `MissingFile`.
    MissingName,
    /// The fault `MissingParen`.
    OpenParen,
    /// The fault `TooManyWords`.
    TenthWord,
    /// The fault `Unexpected`.
    LateParen,
    /// The fault `Leftover` at a `)`.
    StrayParen,
    /// The fault `Leftover`.
    LeftOver,
    /// A clash between the sides of a pipe.
    PipeClash,
    /// A clash of a redirection with the command inside it.
    RedirectionClash,
    /// A name of a program that shows which files there are.
    NoListing,
    /// A name of a program that copies or renames files.
    NoCopy,
    /// A name of a program that removes, makes or empties files.
    NoRemoval,
    /// A name of a program for directories.
    NoFolder,
    /// A name of a filter of other systems.
    NoFilter,
    /// A name of a program for processes, or for time.
    NoProcess,
    /// A name of a program that writes what nobody gave it.
    NoPrinter,
    /// A word of other shells.
    NoShellWord,
    /// The word `function` of other shells.
    NoFunction,
    /// The word `case` of other shells.
    NoCase,
    /// The word `export` of other shells.
    NoExport,
    /// The word `alias` of other shells.
    NoAlias,
}
