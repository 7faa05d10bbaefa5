//! Limits of the runs of a script.

/// The most turns that a run may have, and so the most events (own).
pub const MAX_TURNS: u64 = 1_000_000_000;
