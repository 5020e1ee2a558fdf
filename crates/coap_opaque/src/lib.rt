//! An endpoint is opaque to an end: with others in the place of those that it meets it does the same, and it sends
//! nothing to one of which it has nothing; no code.
#![tactic(auto)]

mod laws;

pub use laws::{
    client_silence_law, heard_law, opaque_knows_law, opaque_law, opaque_runs_law, opaque_step_law,
    swap_law,
};
