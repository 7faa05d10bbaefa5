//! What `check` and `explain` are asked for.

use xvsh_read::Source;

/// A check of a script.
#[derive(Clone, Copy, Debug)]
pub struct CheckRequest<'a> {
    /// The path of the script; `-` is standard input.
    pub script: &'a str,
    /// The paths of the script's files, in order. They count where turns or room are written.
    pub files: &'a [&'a str],
    /// Write last in how many turns the script runs to its end.
    pub counts_turns: bool,
    /// Write last how much of xv6's tables the script needs, unless turns are written.
    pub tells_room: bool,
    /// End with status 3 for a line that is no command, too.
    pub is_strict: bool,
    /// Print one object of JSON in place of the text.
    pub is_json: bool,
}

/// Notes on a script in sentences.
#[derive(Clone, Copy, Debug)]
pub struct ExplainRequest<'a> {
    /// The script. What `>>` means, and the files, count where the notes say why the script is settled.
    pub source: Source<'a>,
    /// Print last why the script is settled on its files and its input, or why it isn't.
    pub tells_why: bool,
    /// Print in place of the notes the script mended by rules, so that it is settled on its files and its input.
    pub fixes: bool,
    /// Print one object of JSON in place of the text.
    pub is_json: bool,
}
