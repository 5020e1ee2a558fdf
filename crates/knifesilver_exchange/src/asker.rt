//! The calls of a client for any request of one datagram.
mod answers;
mod asking;
mod made;
mod out;
mod tokens;
mod turns;
