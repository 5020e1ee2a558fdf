//! The parts of a client, and the moment and the word of an input.
use crate::client::held::Held;
use coap_exchange::Asker;
use coap_types::Moment;
use std::alloc::Allocator;
use std::hash::BuildHasher;

/// What a client is made of.
#[derive(Drop)]
pub struct Parts<A: Allocator + Copy, H: BuildHasher> {
    /// The request/response layer.
    pub asker: Asker<A, H>,
    /// What is kept beside it.
    pub held: Held<A>,
}

/// When a client does something, and with what it picks an initial timeout.
#[derive(Clone, Copy)]
pub struct Now {
    /// The moment that counts.
    pub at: Moment,
    /// The random word of the input.
    pub word: u64,
}
