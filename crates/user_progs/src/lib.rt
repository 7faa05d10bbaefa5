//! The six programs that a command may run, as machines over words that are borrowed from a tree. Nothing here takes
//! memory.
//!
//! `cat`, `echo`, `grep` and `wc` are those of xv6's `user` folder; `head` and `tee` are own.
//!
//! | Program | Its calls, once the Exec that starts it is done |
//! |---|---|
//! | `echo` | Write of each argument to 1, with a Write of a space between two and of an LF at the end; Exit. Replies are ignored |
//! | `cat`, `grep`, `head`, `wc` | for each file word OpenFile to read, the calls below on what it gives, and Close; Exit. Without file words the calls below on descriptor 0, and Exit. Refused: an OpenFile, the message `NAME: cannot open FILE` and Exit; a Close, Exit |
//! | `cat`, on an input | Read of 512 bytes and Write of them to 1, until a Read gives none. Refused, the message `cat: read error` or `cat: write error` and Exit |
//! | `wc`, on an input | Read of 512 bytes, until one gives none; Write of the counts to 1, whose reply is ignored. Refused, a Read: the message `wc: read error` and Exit |
//! | `grep`, on an input | Read of as many bytes as its buffer of 1,023 still holds, and Write to 1 of each whole line that matches, whose reply is ignored; until a Read gives none or is refused, or the buffer is full and has no LF |
//! | `head`, on an input | Read of one byte and Write of it to 1, until its lines are written or a Read gives none. Refused, the message `head: read error` or `head: write error` and Exit |
//! | `tee` | OpenFile of each file word to write; Read of 512 bytes from 0, and Write of them to 1 and to each file, until a Read gives none; Exit. Refused, the message `tee: cannot open FILE`, `tee: read error` or `tee: write error` and Exit; so with a seventeenth file |
//!
//! `grep` without a pattern and `head` with a wrong option write how they are used, and exit. Each message ends in LF, is one
//! Write of at most 1,024 bytes to descriptor 2 (own; xv6 writes byte by byte), and its reply is ignored. A reply that a call
//! can't get makes the program exit (own).
#![tactic(auto)]

mod cat;
mod echo;
mod filter;
mod grep;
mod head;
mod prog;
mod says;
mod state;
mod tee;
mod wc;

pub use prog::{Prog, ProgState, Start, find, lookup};
