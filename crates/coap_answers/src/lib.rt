//! `answer` and `show`: what a server answers to one datagram, and a datagram in words.
//!
//! The server that the parts of the program begin, and what it is to hold, stand here too: [`fresh_server`], [`hold`].
#![tactic(auto)]

mod answering;
mod ends;
mod showing;

pub use answering::{ASKER, answer};
pub use ends::{fresh_server, fresh_server_after, hold, refusal_of, tell_refusal};
pub use showing::show;
