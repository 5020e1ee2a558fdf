//! What waits at an end is dropped.
ghost use Rattle.std.specs.Prelude.{◌≡◌, List, [], length};
ghost use Rattle.coap_layer.specs.Trace.{Packet};
ghost use Rattle.coap_journaled.specs.Journal.{shown};
ghost use Rattle.coap_journaled.specs.Runs.{end_gives};
ghost use Rattle.coap_kept.specs.Draining.{Drops, may_go};

use crate::put_away::put_away;
use coap_ends::End;
use coap_journaled::{JournalFile, Journaled};
use std::alloc::Allocator;

/// Takes each datagram that waits, and drops it. The next frame counts it as taken, so that a replay takes it, too.
pub(crate) fn drain<E: End<A>, F: JournalFile, A: Allocator + Copy>(
    journaled: &mut Journaled<E, F, A>,
)
    ensures drops { (dropped : List Packet)
        × Drops (end_gives E.waiting E.gives) (shown E.state journaled.old) dropped (shown E.state journaled.new)
        × (journaled.old.taken ≡ 0 → journaled.new.taken ≡ length dropped) }
    ensures left { shown E.state journaled.new ≡ record (shown E.state journaled.old) {
      end = E.state journaled.new.end;
      taken = journaled.new.taken;
      due = journaled.new.due;
    } }
    ensures empty { may_go E.waiting (shown E.state journaled.new) ≡ [] }
{
    while let Some(datagram) = journaled.next_out() {
        put_away(datagram);
    }
}
