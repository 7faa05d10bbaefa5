//! What `explore` is asked for.

use xvsh_read::Source;

/// The most states that an exploration may keep (own).
pub const MAX_STATES: u64 = 10_000_000;

/// An exploration of a script.
#[derive(Clone, Copy, Debug)]
pub struct ExploreRequest<'a> {
    pub source: Source<'a>,
    /// The most states to keep, 1 to `MAX_STATES`.
    pub states: u64,
    /// Explore a settled script too, whose one output is known without.
    pub is_thorough: bool,
    /// Try every turn in every state, for comparing. For it a settled script is explored too.
    pub is_full: bool,
    /// The folder for a schedule of each outcome. For these a settled script is explored too.
    pub witness: Option<&'a str>,
    /// The path of the page that draws two outcomes, if there is to be one. For it a settled script is explored too.
    pub draw: Option<&'a str>,
    /// The path of the page to play, if there is to be one. For it a settled script is explored too.
    pub play: Option<&'a str>,
    /// The word of the two outcomes that are compared and drawn, as `1,2`; without it those whose difference is easiest to see are.
    /// For it a settled script is explored too.
    pub pair: Option<&'a str>,
    /// Print an object of JSON.
    pub is_json: bool,
    /// The word of the standard input, if there is one, and the script, where it is among the words: for the line that says how
    /// to replay.
    pub input: Option<&'a str>,
    pub text: Option<&'a str>,
}
