//! An end: what a client and a server have in common.
ghost use Rattle.std.specs.Prelude.{◌≡◌, ◌≤◌, ◌<◌, ◌^◌, max, ℕ, Bool, true, false, List, [], ◌∷◌, Ok, IfOk, IsOk};
ghost use Rattle.std.specs.Prelude.{OnOk, OnErr, IfSome, IfNone, length};
ghost use Rattle.coap_types.specs.declared.endpoint.Endpoint.{Endpoint as EndpointSpec};
ghost use Rattle.coap_layer.specs.Trace.{Packet};

use coap_layer::Datagram;
use coap_types::{Endpoint, Moment};
use std::alloc::{AllocError, Allocator};

/// A client or a server (RFC 7252, section 5), as what carries its datagrams sees it.
///
/// After each `feed` and `tick` take `next_out` until None; then wait for a datagram, at most until
/// `due`. Moments are milliseconds; one before
/// the last that was handed in counts as that. Nothing here reads a clock, a socket or a random
/// source.
pub trait End<A: Allocator + Copy> {
    /// What contracts see of it.
    ghost State: { Type 0 };

    /// The state that it is in.
    ghost state: { Self → State };

    /// The datagrams that are to be sent, the next one first.
    ghost waiting: { State → List Packet };

    /// The latest moment that counted.
    ghost latest: { State → ℕ };

    /// How much a tick at a moment still has to do.
    ghost work: { State → ℕ → ℕ };

    /// That feeding a datagram takes no memory: the state before, the moment, where it came from, its
    /// bytes.
    ghost quiet_feed: { State → ℕ → EndpointSpec → List ℕ → Type 0 };

    /// That a tick takes no memory: the state before, the moment.
    ghost quiet_tick: { State → ℕ → Type 0 };

    /// The state before a datagram is fed, the moment, where it came from, its bytes, the word, and
    /// the state after.
    ghost feeds: { State → ℕ → EndpointSpec → List ℕ → ℕ → State → Type 0 };

    /// The state before a tick, the moment, the word, whether it did something, and the state after.
    ghost ticks: { State → ℕ → ℕ → Bool → State → Type 0 };

    /// The state before a datagram is taken to be sent, the datagram, and the state after.
    ghost gives: { State → Packet → State → Type 0 };

    /// Takes a datagram that arrived. After an `Err` it is lost.
    fn feed(
        &mut self,
        now: Moment,
        from: Endpoint,
        bytes: &[u8],
        word: u64,
    ) -> Result<(), AllocError>
        // A datagram that is fed makes of an end what its own law says.
        ensures ok { OnOk result (feeds (state self.old) now.0 from bytes.now word (state self.new)) }
        // A datagram that is refused memory leaves an end as it was.
        ensures err { OnErr result (state self.new ≡ state self.old) }
        // A datagram of which an end says that it takes no memory is not refused any.
        ensures quiet { quiet_feed (state self.old) now.0 from bytes.now → IsOk result };

    /// Does one step that is due at the moment, and answers whether there was one.
    fn tick(&mut self, now: Moment, word: u64) -> Result<bool, AllocError>
        // A tick makes of an end what its own law says, and tells whether it did something.
        ensures ok { IfOk result (λ did. ticks (state self.old) now.0 word did (state self.new)) }
        // There is less to do after a step, so that the ticks of one moment come to an end.
        ensures less { result ≡ Ok true → work (state self.new) now.0 < work (state self.old) now.0 }
        // A tick that is refused memory leaves an end as it was.
        ensures err { OnErr result (state self.new ≡ state self.old) }
        // A tick of which an end says that it takes no memory is not refused any.
        ensures quiet { quiet_tick (state self.old) now.0 → IsOk result };

    /// The first moment at which a tick would do something, unless something is handed in before, and no
    /// earlier than the last that was handed in; None where it never would. Nothing changes. It takes no
    /// memory.
    fn due(&self) -> Option<Moment>
        // Where an end tells no moment, no tick does anything unless something is handed in.
        ensures none { IfNone result ((now word : ℕ) (did : Bool) (n : State) → now < 2 ^ 64
            → ticks (state self.now) now word did n → did ≡ false) }
        // No tick of an end before the moment that is told does anything.
        ensures some { IfSome result (λ at. (now word : ℕ) (did : Bool) (n : State)
            → max (latest (state self.now)) now < at.0 → ticks (state self.now) now word did n → did ≡ false) }
        // A tick of an end at the moment that is told does something, whatever the word.
        ensures does { IfSome result (λ at. (word : ℕ) (did : Bool) (n : State)
            → ticks (state self.now) at.0 word did n → did ≡ true) }
        // The moment that an end tells is not before its latest.
        ensures from { IfSome result (λ at. latest (state self.now) ≤ at.0) };

    /// The datagram that is to be sent next. It takes no memory.
    fn next_out(&mut self) -> Option<Datagram<A>>
        // The datagram that an end gives out is the first that waited.
        ensures some { IfSome result (λ datagram. (waiting (state self.old) ≡ datagram ∷ waiting (state self.new))
            × gives (state self.old) datagram (state self.new)) }
        // An end gives out none only where none waited, and nothing changes.
        ensures none { IfNone result ((waiting (state self.old) ≡ []) × (state self.new ≡ state self.old)) }
        // The datagrams that wait at an end can be counted.
        ensures few { length (waiting (state self.old)) < 2 ^ 64 };
}
