//! What a handle holds.
use crate::crossing::KsAnswer;
use crate::seed::SeededHash;
use bytes::Bytes;
use coap_block::{Assembly, Upload};
use coap_exchange::Asker;
use coap_handlers::Responder;
use coap_parts::PartFetch;
use std::alloc::Global;

/// A server whose answers the application computes.
pub(crate) type OurResponder = Responder<Global, SeededHash>;

/// A client for any request.
#[derive(Drop)]
pub struct OurAsker {
    /// Its exchanges.
    pub asker: Asker<Global, SeededHash>,
    /// What the last feed or tick brought, until it is told.
    pub brought: Option<KsAnswer>,
}

/// A body that is fetched in blocks.
#[derive(Drop)]
pub struct OurFetch {
    /// The parts so far.
    pub fetch: PartFetch<Global>,
    /// The body that the last part made whole.
    pub whole: Option<Bytes>,
}

/// Bodies that come in blocks.
#[derive(Drop)]
pub struct OurAssembly {
    /// The blocks so far.
    pub assembly: Assembly<Global>,
    /// The body that the last block made whole.
    pub whole: Option<Bytes>,
}

/// What a handle holds.
#[derive(Drop)]
pub enum Held {
    /// A server whose answers the application computes.
    Answerer(OurResponder),
    /// A client for any request.
    Asker(OurAsker),
    /// A body that is fetched in blocks.
    Fetch(OurFetch),
    /// A body that is sent in blocks.
    Upload(Upload<Global>),
    /// Bodies that come in blocks.
    Assembly(OurAssembly),
}
