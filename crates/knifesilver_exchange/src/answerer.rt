//! The calls of a server whose answers the application computes.
mod answering;
mod endings;
mod load;
mod made;
mod notifying;
mod plain;
mod turns;
