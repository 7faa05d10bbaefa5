//! A page in which the reader takes the scheduler's place: chooses which process goes next, and sees what can still come out.
//!
//! This crate walks over the states that it shows; `play_states` finds exactly what is shown of them. All else is words: no law speaks of it, and
//! tests read the page back.
#![tactic(auto)]

mod book;
mod deeds;
mod fault;
mod follow;
mod making;
mod page;
mod parts;
mod pools;
mod states;
mod walk;

pub use fault::PageFault;
pub use making::{Limits, play_page};
pub use page::Words;
pub use play_states::{Setting, Unwatched, Watch};
