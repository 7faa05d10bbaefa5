//! What is shown of an exploration: its text, its object of JSON, its schedules and its pages.
#![tactic(auto)]

mod cutting;
mod drawing;
mod findings;
mod objects;
mod playing;
mod replays;
mod showing;
mod texts;

pub use play_page::PageFault;
pub use playing::Played;
pub use showing::{Shown, object_of_found, show};
