//! The calls of a table of names for peers.
mod datagrams;
mod holding;
mod keys;
mod load;
mod made;
pub(crate) mod peer_key;
