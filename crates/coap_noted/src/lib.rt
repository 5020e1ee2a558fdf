//! A server that notes what it takes, so that its caller can keep a journal.
//!
//! [`Noted`] hands out what was taken as the bytes of a turn, and gives out no datagram before that.
//! [`open`] reads how the server of a journal began, and [`replay`] makes the server that ran.
#![tactic(auto)]

mod forgetting;
mod local;
mod noted;
mod notes;
mod opening;
mod refusing;
mod replaying;

pub use noted::{Noted, Untold};
pub use notes::{MAX_INPUT_LEN, Notes};
pub use opening::{OpenError, Opened, open};
pub use replaying::replay;
