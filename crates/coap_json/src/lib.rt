//! Lines of JSON, which programs read: an object a line, for each thing that is told (RFC 8259).
//!
//! [`report_line`] is the line of a client's report, [`applied_line`] that of a request that a server applied. A line
//! is made whole or not at all. Its members are those of the table in docs/PROGRAM.md, in their order.
#![tactic(auto)]

mod line;
mod links;
mod others;
mod report;

pub use links::{Parameter, link_line};
pub use others::{PingEnd, applied_line, gave_up_line, ping_line, refused_line};
pub use report::report_line;
