//! What a journal keeps.
ghost use Rattle.std.specs.Prelude.{◌≡◌, ◌<◌, List, []};
ghost use Rattle.coap_layer.specs.Trace.{Packet};
ghost use Rattle.coap_journal.specs.Input.{Input};
ghost use Rattle.coap_server.specs.Led.{State};
ghost use Rattle.coap_replay.specs.Replaying.{Gives, Takes};
ghost use Rattle.coap_journaled.specs.Journal.{Journal, most};
ghost use Rattle.coap_journaled.specs.Runs.{Act, Runs, end_gives, end_takes};
ghost use Rattle.coap_journaled.specs.Synced.{IsBehindSync, IsNextFrame};

use crate::journal_file::JournalFile;
use coap_ends::{End, Server};
use coap_resource::Store;
use std::alloc::Allocator;
use std::hash::BuildHasher;

/// What the journal of an end keeps, whatever comes and whenever it stops.
pub fn journaled_law<A: Allocator + Copy, E: End<A>, F: JournalFile>()
    // What went out is what the end gives out that is replayed from the frames that are synced, and what that has to
    // give first then: nothing of an input that comes after the last sync.
    ensures behind { (start now : Journal E.State F) (t : List Act) → start.inputs ≡ [] → start.taken ≡ 0
        → Runs (end_takes E.feeds E.ticks) (end_gives E.waiting E.gives) F.appends F.syncs start t now
        → IsBehindSync (end_takes E.feeds E.ticks) (end_gives E.waiting E.gives) start.end start.place t }
    // With the frame that is to be written next, the end that is replayed is the one that ran.
    ensures next { (start now : Journal E.State F) (t : List Act) → start.inputs ≡ [] → start.taken ≡ 0
        → Runs (end_takes E.feeds E.ticks) (end_gives E.waiting E.gives) F.appends F.syncs start t now
        → now.taken < most
        → IsNextFrame (end_takes E.feeds E.ticks) (end_gives E.waiting E.gives) start.end start.place t now }
{}

/// The same of a server, with its local changes.
pub fn journaled_server_law<S: Store<A>, A: Allocator + Copy, H: BuildHasher, F: JournalFile>()
    // What a datagram and a tick make of a server is what a replay of them does.
    ensures takes { (old new : State) (input : Input)
        → end_takes ⟦<Server<S, A, H> as End<A>>⟧.feeds ⟦<Server<S, A, H> as End<A>>⟧.ticks old input new
        → Takes old input new }
    // What a datagram that is taken makes of a server is what a replay of that does.
    ensures gives { (old new : State) (p : Packet)
        → end_gives ⟦<Server<S, A, H> as End<A>>⟧.waiting ⟦<Server<S, A, H> as End<A>>⟧.gives old p new
        → Gives old p new }
    // What went out is what the server gives out that is replayed from the frames that are synced, and what that has to
    // give first then: nothing of an input that comes after the last sync.
    ensures behind { (start now : Journal State F) (t : List Act) → start.inputs ≡ [] → start.taken ≡ 0
        → Runs Takes Gives F.appends F.syncs start t now → IsBehindSync Takes Gives start.end start.place t }
    // With the frame that is to be written next, the server that is replayed is the one that ran.
    ensures next { (start now : Journal State F) (t : List Act) → start.inputs ≡ [] → start.taken ≡ 0
        → Runs Takes Gives F.appends F.syncs start t now → now.taken < most
        → IsNextFrame Takes Gives start.end start.place t now }
{}
