//! What holds of a run in which nothing is lost and nothing is late; no code.
#![tactic(auto)]

mod smooth;
mod watches;

pub use smooth::{
    answered_law, due_law, open_law, received_law, reported_law, sent_law, smooth_witness,
};
pub use watches::watch_law;
