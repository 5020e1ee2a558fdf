//! A datagram that is to be sent.
ghost use Rattle.std.specs.Prelude.{◌≡◌, ◌<◌, ◌+◌, ◌++◌, [], ◌∷◌, true, is_some, option_to_list};
ghost use Rattle.std.specs.VecDeque.{deque_len, deque_capacity};

use coap_types::Endpoint;
use std::alloc::Allocator;
use std::collections::VecDeque;
use std::marker::Model;

/// A datagram that is to be sent.
#[derive(Drop)]
pub struct Datagram<A: Allocator + Copy> {
    pub(crate) to: Endpoint,
    pub(crate) bytes: Vec<u8, A>,
}

impl<A: Allocator + Copy> Model for Datagram<A> {
    ghost use Rattle.coap_layer.specs.Trace.{Packet};

    ghost Value = { Packet };

    ghost view = { λ d. record { to = d.to; bytes = d.bytes.items } };
}

impl<A: Allocator + Copy> Datagram<A> {
    /// Where it is to go.
    pub fn to(&self) -> Endpoint
        // The endpoint is the one to which the datagram goes.
        ensures { result ≡ self.now.to }
    {
        self.to
    }

    /// What it carries.
    pub fn bytes(&self) -> &[u8]
        // The bytes are those that the datagram carries.
        ensures { result.now ≡ self.now.bytes }
    {
        &self.bytes
    }
}

/// Puts a datagram at the end of those that wait, among which there is room for it.
pub(crate) fn push_within<A: Allocator + Copy>(
    waiting: &mut VecDeque<Datagram<A>, A>,
    datagram: Datagram<A>,
)
    requires { deque_len waiting.old < deque_capacity waiting.old }
    ensures items { waiting.new.items ≡ waiting.old.items ++ datagram ∷ [] }
    ensures len { deque_len waiting.new ≡ deque_len waiting.old + 1 }
    ensures capacity { deque_capacity waiting.new ≡ deque_capacity waiting.old }
{
    let _ = waiting.push_back(datagram);
}

/// Puts it there, if there is one, and keeps a place for one more.
pub(crate) fn push_some<A: Allocator + Copy>(
    waiting: &mut VecDeque<Datagram<A>, A>,
    datagram: Option<Datagram<A>>,
)
    requires { is_some datagram ≡ true → deque_len waiting.old + 1 < deque_capacity waiting.old }
    ensures items { waiting.new.items ≡ waiting.old.items ++ option_to_list datagram }
    ensures capacity { deque_capacity waiting.new ≡ deque_capacity waiting.old }
    ensures place { deque_len waiting.old < deque_capacity waiting.old
        → deque_len waiting.new < deque_capacity waiting.new }
{
    if let Some(datagram) = datagram {
        push_within(waiting, datagram);
    }
}
