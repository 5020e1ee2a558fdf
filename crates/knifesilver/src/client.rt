//! The calls of a client.
mod calls;
mod load;
mod made;
mod out;
mod reports;
mod turns;
mod would;
