//! How much an end has, as C is told.
ghost use Rattle.std.specs.Prelude.{◌≡◌};
ghost use Rattle.knifesilver.specs.Loads.{client_told, server_told};

use coap_ends::{ClientLoad, Load};

/// C's `ks_end_load`: how much an end has at a moment. What the other kind of end has alone is 0.
#[repr(C)]
#[derive(Clone, Copy)]
pub struct KsEndLoad {
    /// How many bytes the struct has.
    pub size: u32,
    /// How many Message IDs are left.
    pub ids_left: u32,
    /// How many changes a server's window has left.
    pub changes_left: u64,
    /// How many messages are remembered.
    pub remembered: u64,
    /// How many messages can be remembered at most.
    pub remembered_most: u64,
    /// How many Confirmable messages are outstanding.
    pub outstanding: u64,
    /// How many datagrams wait to be taken.
    pub queued: u64,
    /// How many observers a server has.
    pub observers: u64,
    /// How many uploads to a server have a partial body.
    pub partial: u64,
    /// How many requests a server has deferred.
    pub deferred: u64,
    /// How many paths of a server hold something.
    pub paths: u64,
    /// How many paths of a server have a delay.
    pub delays: u64,
    /// How many paths of a server are plain.
    pub plains: u64,
    /// How many operations of a client wait.
    pub waiting: u64,
    /// How many observations of a client are live.
    pub observations: u64,
    /// How many reports of a client wait to be taken.
    pub reports: u64,
}

/// How many bytes the struct has.
pub(crate) const LOAD_LEN: u32 = 120;

const _: () = prove!(LOAD_LEN == 120);

/// What is told of a server.
pub(crate) fn server_load(load: Load) -> KsEndLoad
    ensures { result ≡ server_told load }
{
    KsEndLoad {
        size: LOAD_LEN,
        ids_left: load.layer.ids_left,
        changes_left: u64::from(load.changes_left),
        remembered: load.layer.remembered as u64,
        remembered_most: load.layer.remembered_most as u64,
        outstanding: load.layer.outstanding as u64,
        queued: load.layer.queued as u64,
        observers: load.observers as u64,
        partial: load.partial as u64,
        deferred: load.deferred as u64,
        paths: load.paths as u64,
        delays: load.delays as u64,
        plains: load.plains as u64,
        waiting: 0,
        observations: 0,
        reports: 0,
    }
}

/// What is told of a client.
pub(crate) fn client_load(load: ClientLoad) -> KsEndLoad
    ensures { result ≡ client_told load }
{
    KsEndLoad {
        size: LOAD_LEN,
        ids_left: load.layer.ids_left,
        changes_left: 0,
        remembered: load.layer.remembered as u64,
        remembered_most: load.layer.remembered_most as u64,
        outstanding: load.layer.outstanding as u64,
        queued: load.layer.queued as u64,
        observers: 0,
        partial: 0,
        deferred: 0,
        paths: 0,
        delays: 0,
        plains: 0,
        waiting: load.waiting as u64,
        observations: load.observations as u64,
        reports: load.reports as u64,
    }
}
