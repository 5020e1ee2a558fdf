//! What replaying a journal makes of a server: the one that ran, by a history that goes on. And what
//! goes out of it after a silence.
#![tactic(auto)]

mod laws;

pub use laws::{replay_law, silence_law};
