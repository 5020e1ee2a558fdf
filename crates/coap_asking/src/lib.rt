//! The subcommands of a client: get, put, post, delete, observe, discover and ping, each over the links, the clock, the
//! files and the writers that it is handed.
//!
//! [`observe_over`], [`watch_over`], [`poll_over`], [`discover_over`] and [`ping_over`] are without their sockets.
#![tactic(auto)]

mod anew;
mod asking;
mod discovering;
mod leaving;
mod link_lines;
mod observe;
mod ping_command;
mod pinging;
mod polling;
mod request;
mod watching;

pub use anew::Left;
pub use asking::{Task, ask, discover};
pub use discovering::discover_over;
pub use observe::observe_over;
pub use ping_command::ping;
pub use pinging::{PING_PERIOD_MS, Pinging, ping_over};
pub use polling::{Polling, poll_over};
pub use request::{body_of, request_of};
pub use watching::{Watching, watch_over};
