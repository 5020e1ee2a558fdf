//! The parts of a server.
ghost use Rattle.std.specs.Prelude.{◌≡◌, ◌<◌, ◌++◌, ◌∷◌, [], vec_len, vec_capacity};

use bytes::Bytes;
use coap_block::Assembly;
use coap_exchange::{Answerer, Asked};
use coap_observe::Observers;
use coap_types::{Endpoint, Method, Moment, Path, Szx, Token};
use std::alloc::Allocator;
use std::hash::BuildHasher;

/// A path whose requests are answered later (RFC 7252, section 5.2.2; that a path has a delay is a
/// profile).
#[derive(Drop)]
pub struct Delay<A: Allocator> {
    /// Of which resource.
    pub path: Path<A>,
    /// By how many milliseconds.
    pub ms: u64,
}

/// An option of a request that is kept (RFC 7252, section 3.1).
#[derive(Drop)]
pub(crate) struct KeptOption<A: Allocator> {
    /// Which option it is.
    pub(crate) number: u16,
    /// Its value.
    pub(crate) value: Vec<u8, A>,
}

/// A request that is answered later (RFC 7252, section 5.2.2).
#[derive(Drop)]
pub(crate) struct Waiting<A: Allocator> {
    /// Whose it is.
    pub(crate) asked: Asked,
    /// Since when.
    pub(crate) at: Moment,
    /// By how many milliseconds.
    pub(crate) delay: u64,
    /// What it asks for.
    pub(crate) method: Method,
    /// Of which resource.
    pub(crate) path: Path<A>,
    /// Its options that are recognised, in order.
    pub(crate) options: Vec<KeptOption<A>, A>,
    /// Its whole body.
    pub(crate) body: Bytes<A>,
}

/// A request that was applied: a PUT, POST or DELETE that was answered 2.01, 2.02 or 2.04.
#[derive(Drop)]
pub struct Applied<A: Allocator> {
    /// Where it came from.
    pub from: Endpoint,
    /// Its token.
    pub token: Token,
    /// Of which resource.
    pub path: Path<A>,
    /// What it asked for.
    pub method: Method,
    /// The version that it made, 0 where it changed nothing.
    pub version: u64,
}

/// What a server keeps.
#[derive(Drop)]
pub(crate) struct Parts<S: Drop, A: Allocator + Copy, H: BuildHasher> {
    /// What grows takes its memory from.
    pub(crate) alloc: A,
    /// The size of the largest blocks that it sends (RFC 7959, section 2.2).
    pub(crate) szx: Szx,
    /// The last moment that counted.
    pub(crate) clock: Moment,
    /// The request/response layer.
    pub(crate) exchanges: Answerer<A, H>,
    /// The resources.
    pub(crate) store: S,
    /// The uploads in blocks (RFC 7959, section 2.5).
    pub(crate) uploads: Assembly<A>,
    /// Who observes which resource (RFC 7641, section 4.1).
    pub(crate) observers: Observers<A>,
    /// The paths whose observers are told in Non-confirmable messages.
    pub(crate) plains: Vec<Path<A>, A>,
    /// The paths whose requests are answered later.
    pub(crate) delays: Vec<Delay<A>, A>,
    /// The requests that are answered later, in order.
    pub(crate) waiting: Vec<Waiting<A>, A>,
    /// What the last input applied.
    pub(crate) applied: Option<Applied<A>>,
}

/// Puts one more behind the others, where there is room.
pub(crate) fn push_within<T: Drop, A: Allocator + Copy>(list: &mut Vec<T, A>, item: T)
    requires { vec_len list.old < vec_capacity list.old }
    ensures { list.new.items ≡ list.old.items ++ item ∷ [] }
{
    let _fits = list.push(item);
}
