//! What a client keeps beside its exchanges.
ghost use Rattle.std.specs.Prelude.{◌≡◌};
ghost use Rattle.coap_client.specs.Own.{start};
ghost use Rattle.coap_client.specs.Object.Held.{own_of};

use crate::client::last_request::SentRequest;
use crate::client::operation::ClientOperations;
use crate::client::report::{CallId, Report};
use coap_operations::Operations;
use coap_types::{BodyLimit, Moment, Szx};
use std::alloc::{Allocator, Global};
use std::collections::VecDeque;

/// What a client keeps beside its exchanges.
#[derive(Drop)]
pub struct Held<A: Allocator + Copy = Global> {
    /// The latest moment.
    pub clock: Moment,
    /// The client's block size.
    pub szx: Szx,
    /// The longest body that it sends or joins.
    pub limit: BodyLimit,
    /// How many numbers were given.
    pub taken: u64,
    /// What waits, what runs, and the live observations, in the order of their numbers.
    pub operations: ClientOperations<A>,
    /// When the last datagram of the running operation was sent.
    pub sent: Moment,
    /// .. of the upload that holds back others.
    pub hold: Option<Moment>,
    /// The reports that wait to be taken.
    pub reports: VecDeque<(CallId, Report<A>), A>,
    /// The request that the last datagram or tick sent first, and of which call.
    pub asked: Option<SentRequest>,
}

impl<A: Allocator + Copy> Held<A> {
    /// Nothing yet.
    pub fn new(alloc: A, szx: Szx, limit: BodyLimit) -> Held<A>
        ensures { own_of result ≡ start (record { szx = szx; limit = limit }) }
    {
        Held {
            clock: Moment(0),
            szx,
            limit,
            taken: 0,
            operations: Operations::new(alloc),
            sent: Moment(0),
            hold: None,
            reports: VecDeque::new(alloc),
            asked: None,
        }
    }
}
