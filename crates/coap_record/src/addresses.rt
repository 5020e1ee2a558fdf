//! Where the two ends of a run stand.
use coap_types::Endpoint;

/// The address of the client of a run, where none is chosen.
pub const CLIENT_END: Endpoint = Endpoint {
    ip: [127, 0, 0, 1],
    port: 40_001,
};

/// That of its server.
pub const SERVER_END: Endpoint = Endpoint {
    ip: [127, 0, 0, 1],
    port: 5_683,
};

/// The addresses of the client and of the server of a run.
#[derive(Clone, Copy, Debug, PartialEq, Eq)]
pub struct Addresses {
    pub client: Endpoint,
    pub server: Endpoint,
}
