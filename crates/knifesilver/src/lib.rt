//! A client and a server of CoAP for C, and names for peers: the calls of `bindings/include/knifesilver.h`, which says
//! what each one is for.
//!
//! Each call takes the end out of its handle, makes one call of it and puts it back; the contracts say which one (`led`). What it refuses itself it answers below 0, and the end is as before.
#![tactic(auto)]

mod answers;
mod client;
mod config;
mod crossing;
mod handle;
mod held;
mod journal;
mod load;
mod names;
mod numbers;
mod outgoing;
mod path_text;
mod peek;
mod refuse;
mod released;
mod seed;
mod server;
mod version;
