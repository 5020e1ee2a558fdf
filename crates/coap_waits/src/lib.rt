//! A client that waits for what becomes of a request: turn after turn over its link, until it is reported or given up.
//!
//! [`ask_over`] asks, and prints what came of it.
#![tactic(auto)]

mod ask;
mod beginning;
mod calling;
mod client_turns;
mod connection;
mod json_lines;
mod progress;
mod silence;

pub use ask::{ask_over, next_report_of, outcome_of, status_of};
pub use beginning::fresh_client;
pub use calling::{Outcome, call, get_request, outcome_text, put_request};
pub use client_turns::turn_now;
pub use connection::{Connection, Terms};
pub use json_lines::{write_line, write_outcome, write_outcome_now, write_report};
pub use progress::{Progress, ProgressTeller, SHOWN_MS, progress_of, progress_on};
pub use silence::{DEFAULT_MAX_AGE, Silence, SilentLink, silent_link_law};
