//! What follows from the law of a server, for its whole history; no code.
#![tactic(auto)]

mod laws;

pub use laws::{refusal_law, server_law, server_must_law, server_runs, silence_law};
