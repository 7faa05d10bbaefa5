//! What is known of a script's diagnostics.

/// What is known of the diagnostics that a script writes, in whatever order its processes take their turns (own). A run is finished
/// where the script has come to its end, and what it wrote counts where nothing was full in it.
#[derive(Debug, Drop)]
pub enum Diagnostics {
    /// Each finished run writes these.
    Same(Vec<u8>),
    /// Two finished runs write others.
    Differ,
    /// Not every order was tried.
    Untried,
    /// In every finished run something was full.
    Full,
    /// In some order all processes come to sleep for ever.
    Asleep,
}
