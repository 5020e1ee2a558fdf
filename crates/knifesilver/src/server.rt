//! The calls of a server.
mod ended;
mod getting;
mod load;
mod local;
pub(crate) mod made;
mod out;
mod paths;
mod peers;
mod plain;
mod refusing;
pub(crate) mod replaying;
pub(crate) mod turns;
mod would;
