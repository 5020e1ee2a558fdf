//! What shows datagrams that were sent before: lines of hex, and captures, which may be drawn as a chart.
#![tactic(auto)]

mod captured;
mod captured_chart;
mod dumping;

pub use captured::{dump_capture, show_capture};
pub use dumping::{dump, dump_line, dump_to};
