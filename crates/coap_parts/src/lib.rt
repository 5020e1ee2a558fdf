//! Bodies in blocks whose parts may have no entity-tag (RFC 7959, section 2.4): a fetch that joins them where that is
//! allowed, and says that they are not proved to be of one version.
#![tactic(auto)]

mod fetch;
mod laws;
mod tags;

pub use fetch::{PartFetch, Progress};
pub use laws::parts_law;
