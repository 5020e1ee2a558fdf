//! A run for a page: a script is read, run over a client and a server, and told to the caller's room.
//!
//! [`sim_into`] prints what comes of a script, [`show_into`] what a datagram says. Each keeps nothing, takes its
//! memory from the allocator that it is handed, and answers how it [`Ended`].
#![tactic(auto)]

mod configured;
mod ended;
mod into_room;
mod played;
mod room;
mod shown;
mod telling;

pub use ended::Ended;
pub use into_room::{Printing, show_into, sim_into};
