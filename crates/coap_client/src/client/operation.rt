//! The operations of a client that wait or run, and its observations.
use crate::client::short_path::ShortPath;
use crate::client::taken_call::TakenCall;
use coap_block::Fetch;
use coap_observe::Watch;
use coap_operations::Operations;
use coap_types::Token;
use std::alloc::{Allocator, Global};

/// What waits or runs, beside the fetches and cancels of observations.
#[derive(Drop)]
pub enum Waiting<A: Allocator = Global> {
    /// A call, by its number.
    Calling(u64, TakenCall<A>),
    /// The registration of an observation: its number and its path.
    Registering(u64, ShortPath<A>),
}

/// What a client does, and what waits at it.
pub type ClientOperations<A = Global> = Operations<Waiting<A>, Observation<A>, A>;

/// What is fetched for a notification.
#[derive(Drop)]
pub struct Notified<A: Allocator = Global> {
    /// The sequence number of the notification (RFC 7641, section 3.4).
    pub sequence: u32,
    /// What was gathered, the notification's own part first (RFC 7959, section 2.6).
    pub fetch: Fetch<A>,
}

/// A live observation (RFC 7641, section 3.2).
#[derive(Drop)]
pub struct Observation<A: Allocator = Global> {
    /// Its number.
    pub number: u64,
    /// The path of the resource.
    pub path: ShortPath<A>,
    /// The token of its registration.
    pub token: Token,
    /// How fresh it is (RFC 7641, section 3.4).
    pub watch: Watch,
    /// What waits to be fetched, or is being fetched, for the newest notification.
    pub rest: Option<Notified<A>>,
}
