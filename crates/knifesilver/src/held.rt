//! What a handle holds.
use crate::names::peer_key::PeerKey;
use crate::seed::SeededHash;
use coap_ends::{CallId, Client, Report, Server};
use coap_names::Names;
use coap_noted::Noted;
use coap_resource::MapStore;
use std::alloc::Global;

/// A server, with its resources in a map.
pub(crate) type MapServer = Server<MapStore, Global, SeededHash>;
/// .. and the notes of what it took, where these are kept.
pub(crate) type OurServer = Noted<MapStore, Global, SeededHash>;

/// Names for peers, by their keys.
pub(crate) type OurNames = Names<PeerKey, SeededHash, Global>;

/// A client, and the report that was taken from it and is still to be given out.
#[derive(Drop)]
pub struct OurClient {
    /// The client.
    pub client: Client<Global, SeededHash>,
    /// The report, for which the room was too small.
    pub report: Option<(CallId, Report)>,
}

/// What a handle holds.
#[derive(Drop)]
pub enum Held {
    /// A server.
    Server(OurServer),
    /// A client.
    Client(OurClient),
    /// Names for peers.
    Names(OurNames),
}
