//! What a client does and what waits at it, in a slab: calls and registrations, and the observations
//! that are live (RFC 7252, section 5; RFC 7641, section 3).
//!
//! Each has an entry in the slab. A queue of keys gives the order of what waits, one key is that of
//! what runs, and a list of keys has the observations in the order in which they went live. A key is
//! used again once its entry left, so an entry holds its own number, which never is.
#![tactic(auto)]

mod entry;
mod limits;
mod operations;
mod queued;
mod running;

pub use limits::MAX_WAITING;
pub use operations::Operations;
pub use queued::Queued;
pub use running::Running;
