//! What happens in a run.
use bytes::Bytes;
use coap_ends::CallId;
use coap_types::{Endpoint, Moment, Path, Request};
use std::alloc::{Allocator, Global};

/// One of the two ends.
#[derive(Clone, Copy, Debug, PartialEq, Eq)]
pub enum Side {
    Client,
    Server,
}

/// What happens.
#[derive(Drop)]
pub enum What<A: Allocator = Global> {
    /// A call of the client.
    Call(Request<A>),
    /// An observation (RFC 7641, section 3.1).
    Observe(Path<A>),
    /// The cancel of an observation (RFC 7641, section 3.6).
    Cancel(CallId),
    /// The end of an observation, without a message.
    Forget(CallId),
    /// A local change of the server.
    Set(Path<A>, Option<u16>, Bytes<A>),
    /// A removal at the server.
    Remove(Path<A>),
    /// The ticks of an end, up to the first that does nothing or meets want of memory.
    Tick(Side),
    /// The datagram of this number is delivered.
    Deliver(usize),
    /// A stranger's datagram comes to an end.
    Stranger(Side, Endpoint, Bytes<A>),
}

/// At a moment, with a word.
#[derive(Drop)]
pub struct Event<A: Allocator = Global> {
    pub at: Moment,
    pub word: u64,
    pub what: What<A>,
}
