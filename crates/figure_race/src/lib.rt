//! Where two runs of one script part, and why: two runs go in, and a sentence, a picture and a list are added to a page of HTML.
//!
//! Of the things that processes share (`things`) it looks for the first two calls that come in another order (`cause`). A process of
//! one run is that of the other which the same process made as the same child (`twins`). The picture has of each run a lane for each of
//! the two processes, with their calls on that thing (`picture`); the list has them in words (`side`).
#![tactic(auto)]

mod bars;
mod boxes;
mod cause;
mod deeds;
mod lane;
mod opened;
mod parting;
mod picked;
mod picture;
mod side;
mod things;
mod twins;
mod why;

pub use parting::add_turns;
pub use why::add_why;
