//! An end that commits each input before it goes on.
ghost use Rattle.std.specs.Prelude.{◌≡◌, None};
ghost use Rattle.coap_journaled.specs.Journal.{shown};
ghost use Rattle.coap_kept.specs.Keeping.{CommitsTelling, IsCommitted};

use coap_ends::End;
use coap_journaled::{CommitError, JournalFile, Journaled};
use coap_layer::Datagram;
use coap_types::{Endpoint, Moment};
use std::alloc::{AllocError, Allocator};

/// An end with a journal that commits each input as it comes, a frame each. Where a commit fails, it takes nothing and
/// gives out nothing any more, and `failure` says why.
#[derive(Drop)]
pub struct Kept<E: End<A>, F: JournalFile, A: Allocator + Copy> {
    journaled: Journaled<E, F, A>,
    failure: Option<CommitError>,
}

impl<E: End<A>, F: JournalFile, A: Allocator + Copy> Kept<E, F, A> {
    /// Has an end with a journal commit each input.
    pub fn new(journaled: Journaled<E, F, A>) -> Self
        // A `new` kept end is around its journal as that is.
        ensures journaled { result.journaled ≡ journaled }
        // No commit of a `new` kept end has failed.
        ensures going { result.failure ≡ None }
    {
        Kept {
            journaled,
            failure: None,
        }
    }

    /// The end with its journal.
    pub fn journaled(&self) -> &Journaled<E, F, A>
        // The journal is the one that the kept end is around.
        ensures { result.now ≡ self.now.journaled }
    {
        &self.journaled
    }

    /// Why the last commit failed, if it did: the program is to end then. Nothing that went out is lost.
    pub fn failure(&self) -> Option<CommitError>
        // The failure is that of the last commit that failed.
        ensures { result ≡ self.now.failure }
    {
        self.failure
    }

    // Commits what was noted.
    fn commit(&mut self)
        ensures committed { IsCommitted F.appends F.syncs (shown E.state self.old.journaled)
            (shown E.state self.new.journaled) }
        ensures told { CommitsTelling F.appends F.syncs (shown E.state self.old.journaled) self.old.failure
            (shown E.state self.new.journaled) self.new.failure }
    {
        match self.journaled.commit() {
            Ok(()) => {}
            Err(why) => self.failure = Some(why),
        }
    }
}

impl<E: End<A>, F: JournalFile, A: Allocator + Copy> End<A> for Kept<E, F, A> {
    ghost use Rattle.coap_journaled.specs.Journal.{Journal, shown};
    ghost use Rattle.coap_kept.specs.Keeping.{IsCommitted};

    ghost State = { Journal E.State F };

    ghost state = { λ k. shown E.state k.journaled };

    ghost waiting = { ⟦<Journaled<E, F, A> as End<A>>⟧.waiting };

    ghost latest = { ⟦<Journaled<E, F, A> as End<A>>⟧.latest };

    ghost work = { ⟦<Journaled<E, F, A> as End<A>>⟧.work };

    ghost quiet_feed = { ⟦<Journaled<E, F, A> as End<A>>⟧.quiet_feed };

    ghost quiet_tick = { ⟦<Journaled<E, F, A> as End<A>>⟧.quiet_tick };

    ghost feeds = { λ j now from bytes word n. (m : Journal E.State F)
        × ⟦<Journaled<E, F, A> as End<A>>⟧.feeds j now from bytes word m × IsCommitted F.appends F.syncs m n };

    ghost ticks = { λ j now word did n. (m : Journal E.State F)
        × ⟦<Journaled<E, F, A> as End<A>>⟧.ticks j now word did m × IsCommitted F.appends F.syncs m n };

    ghost gives = { ⟦<Journaled<E, F, A> as End<A>>⟧.gives };

    fn feed(
        &mut self,
        now: Moment,
        from: Endpoint,
        bytes: &[u8],
        word: u64,
    ) -> Result<(), AllocError> {
        self.journaled.feed(now, from, bytes, word)?;
        self.commit();
        Ok(())
    }

    fn tick(&mut self, now: Moment, word: u64) -> Result<bool, AllocError> {
        let did = self.journaled.tick(now, word)?;
        self.commit();
        Ok(did)
    }

    fn due(&self) -> Option<Moment> {
        self.journaled.due()
    }

    fn next_out(&mut self) -> Option<Datagram<A>> {
        self.journaled.next_out()
    }
}
