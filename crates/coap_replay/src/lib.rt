//! A server that is replayed from its journal.
//!
//! [`replay_frames`] does again what the whole frames of a journal hold, and so makes the server that
//! ran (`coap_replay_laws`).
#![tactic(auto)]

mod replay;

pub use replay::{ReplayError, Replayed, replay_frames};
