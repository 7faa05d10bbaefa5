//! What `plain` is asked for.

use xvsh_read::Source;

/// A run of a script by its meaning.
#[derive(Clone, Copy, Debug)]
pub struct PlainRequest<'a> {
    pub source: Source<'a>,
    /// Write all files after the output.
    pub lists_files: bool,
    /// The folder in which a file is made for each that the run leaves.
    pub files_to: Option<&'a str>,
    /// End with status 3 if the script isn't settled.
    pub is_strict: bool,
    /// Print one object of JSON in place of the text.
    pub is_json: bool,
    /// Find the diagnostics that every order of the script's processes writes.
    pub finds_diagnostics: bool,
}
