//! What an end keeps that commits each input.
ghost use Rattle.std.specs.Prelude.{ℕ, Bool, List};
ghost use Rattle.coap_layer.specs.Trace.{Packet};
ghost use Rattle.coap_types.specs.declared.endpoint.Endpoint.{Endpoint};
ghost use Rattle.coap_journaled.specs.Journal.{Journal};
ghost use Rattle.coap_journaled.specs.Runs.{Act, Runs, end_gives, end_takes};
ghost use Rattle.coap_kept.specs.Keeping.{GoesOn};

use crate::kept::Kept;
use coap_ends::End;
use coap_journaled::JournalFile;
use std::alloc::Allocator;

/// Each call of a kept end goes the run of its journal on: so what `journaled_law` says of a run holds of what a
/// server does that is turned over a link.
pub fn kept_law<A: Allocator + Copy, E: End<A>, F: JournalFile>()
    // A datagram that is fed to a kept end goes the run of its journal on.
    ensures feeds { (start old new : Journal E.State F) (t : List Act) (now word : ℕ) (from : Endpoint)
        (bytes : List ℕ)
        → Runs (end_takes E.feeds E.ticks) (end_gives E.waiting E.gives) F.appends F.syncs start t old
        → ⟦<Kept<E, F, A> as End<A>>⟧.feeds old now from bytes word new
        → GoesOn (end_takes E.feeds E.ticks) (end_gives E.waiting E.gives) F.appends F.syncs start t new }
    // A tick of a kept end goes the run of its journal on.
    ensures ticks { (start old new : Journal E.State F) (t : List Act) (now word : ℕ) (did : Bool)
        → Runs (end_takes E.feeds E.ticks) (end_gives E.waiting E.gives) F.appends F.syncs start t old
        → ⟦<Kept<E, F, A> as End<A>>⟧.ticks old now word did new
        → GoesOn (end_takes E.feeds E.ticks) (end_gives E.waiting E.gives) F.appends F.syncs start t new }
    // A datagram that is taken from a kept end goes the run of its journal on.
    ensures gives { (start old new : Journal E.State F) (t : List Act) (p : Packet)
        → Runs (end_takes E.feeds E.ticks) (end_gives E.waiting E.gives) F.appends F.syncs start t old
        → ⟦<Kept<E, F, A> as End<A>>⟧.gives old p new
        → GoesOn (end_takes E.feeds E.ticks) (end_gives E.waiting E.gives) F.appends F.syncs start t new }
{}
