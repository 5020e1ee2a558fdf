//! A server whose answers the application computes, a client for any request, and bodies in blocks, for C: the calls of
//! `bindings/include/knifesilver_exchange.h`, which says what each one is for.
//!  Each call takes what a handle holds out of it, makes one call of that and puts it back; the contracts say which one
//! (`led`). What it refuses itself it answers below 0, and what the handle holds is as before.
#![tactic(auto)]

mod answerer;
mod answers;
mod asker;
mod blocks;
mod crossing;
mod handle;
mod held;
mod numbers;
mod option_walk;
mod options;
mod outgoing;
mod released;
mod seed;
