//! An end that keeps a journal.
ghost use Rattle.std.specs.Prelude.{◌≡◌, ◌≢◌, ◌≤◌, ◌<◌, ◌+◌, ℕ, true, false, Option, List, [], OnOk, length};
ghost use Rattle.std.specs.Prelude.{option_map};
ghost use Rattle.std.specs.Vec.{vec_capacity};
ghost use Rattle.coap_types.specs.declared.endpoint.Moment.{Moment as MomentSpec};
ghost use Rattle.coap_journaled.specs.Due.{IsDueAt};
ghost use Rattle.coap_journaled.specs.Journal.{Rests, most, next_frame, shown};
ghost use Rattle.coap_journaled.specs.Runs.{Act, Commits};

use crate::journal_file::JournalFile;
use coap_ends::End;
use coap_journal::{feed_bytes, frame_bytes, tick_bytes, turn_bytes};
use coap_layer::Datagram;
use coap_types::{Endpoint, Moment};
use std::alloc::{AllocError, Allocator};
use std::marker::Model;
use thiserror::Error;

/// The longest datagram that is noted, and how many bytes of inputs a frame holds at most.
pub const MAX_TURN_LEN: usize = 1 << 24;

// No frame begins at this place of a file or after it.
const PLACES_END: u64 = 1 << 62;

/// Why the inputs since the last commit are not in the file.
#[derive(Clone, Copy, Debug, PartialEq, Eq, Error)]
pub enum CommitError {
    /// An allocation was refused. Nothing changed; it can be tried again.
    #[error("no memory for a frame of the journal")]
    Memory,
    /// The file can't hold a further frame.
    #[error("the journal is full")]
    NoRoom,
    /// The frame was not written, or not to its end.
    #[error("the journal was not written to")]
    NotWritten,
    /// The frame was written, and may be lost.
    #[error("the journal was not synced")]
    NotSynced,
    /// A commit failed before.
    #[error("the journal has ended")]
    Over,
}

/// An end and its journal. What is handed to it is noted; a `commit` writes all that was noted since the
/// last one to a file, in one frame, and syncs the file. Until then nothing goes out. Where a commit
/// fails, it is over: it takes nothing and gives out nothing any more.
///
/// After each turn, that is some `feed` and each `tick` that is due, `commit`, and then take `next_out`.
#[derive(Drop)]
pub struct Journaled<E: End<A>, F: JournalFile, A: Allocator + Copy> {
    pub(crate) alloc: A,
    pub(crate) end: E,
    file: F,
    place: u64,
    taken: u64,
    pub(crate) inputs: Vec<u8, A>,
    pub(crate) moment: Moment,
    pub(crate) due: Option<Moment>,
    pub(crate) over: bool,
}

impl<E: End<A>, F: JournalFile, A: Allocator + Copy> Model for Journaled<E, F, A> {
    ghost use Rattle.std.specs.Prelude.{option_map};
    ghost use Rattle.coap_types.specs.declared.endpoint.Moment.{Moment};
    ghost use Rattle.coap_journaled.specs.Due.{IsDueAt};
    ghost use Rattle.coap_journaled.specs.Journal.{Journal};

    ghost Value = { Journal E F };

    ghost view = { λ j. record {
      end = j.end;
      file = j.file;
      place = j.place;
      taken = j.taken;
      inputs = j.inputs.items;
      moment = j.moment.0;
      due = option_map (λ (at : Moment). at.0) j.due;
      over = j.over;
    } };

    ghost invariant = { λ j. IsDueAt E.latest E.ticks (E.state j.end) (option_map (λ (at : Moment). at.0) j.due) };
}

impl<E: End<A>, F: JournalFile, A: Allocator + Copy> Journaled<E, F, A> {
    /// An end with the file of its journal, whose next frame is to stand at this place. The moment is the
    /// latest that the journal tells, or that of the life that begins.
    pub fn new(alloc: A, end: E, file: F, place: u64, moment: Moment) -> Self
        // A `new` end with a journal has noted nothing and given out nothing.
        ensures { (due : Option ℕ) × (shown E.state result ≡ record {
          end = E.state end;
          file = file;
          place = place;
          taken = 0;
          inputs = [];
          moment = moment.0;
          due = due;
          over = false;
        }) }
    {
        let due = end.due();
        Journaled {
            alloc,
            end,
            file,
            place,
            taken: 0,
            inputs: Vec::new(alloc),
            moment,
            due,
            over: false,
        }
    }

    /// The end. What it is may be lost until the next `commit`.
    pub fn end(&self) -> &E
        // The end is the one that keeps the journal.
        ensures { result.now ≡ self.now.end }
    {
        &self.end
    }

    /// The file.
    pub fn file(&self) -> &F
        // The file is the one of the journal.
        ensures { result.now ≡ self.now.file }
    {
        &self.file
    }

    /// Whether a commit has failed.
    pub fn is_over(&self) -> bool
        // It is over exactly where a commit has failed.
        ensures { result ≡ self.now.over }
    {
        self.over
    }

    /// Writes a frame of all that was noted since the last commit, and syncs the file; where nothing was,
    /// it does nothing.
    pub fn commit(&mut self) -> Result<(), CommitError>
        // What was noted since the last commit is appended to the file in one frame, and then synced; where one of the
        // two fails, it is over.
        ensures { (acts : List Act)
            × Commits F.appends F.syncs (shown E.state self.old) result acts (shown E.state self.new) }
    {
        if self.over {
            return Err(CommitError::Over);
        }
        if self.inputs.is_empty() {
            return Ok(());
        }
        let turn = turn_bytes(self.alloc, self.moment, self.taken, self.inputs.as_slice());
        let Ok(turn) = turn else {
            return Err(CommitError::Memory);
        };
        if self.place >= PLACES_END || turn.len() > MAX_TURN_LEN || self.taken == u64::MAX {
            self.over = true;
            return Err(CommitError::NoRoom);
        }
        let Ok(framed) = frame_bytes(self.alloc, self.place, turn.as_slice()) else {
            return Err(CommitError::Memory);
        };
        let Some(next) = self.place.checked_add(framed.len() as u64) else {
            self.over = true;
            return Err(CommitError::NoRoom);
        };
        self.write(framed.as_slice(), next)
    }

    // Appends this frame, after which the next one stands there, and syncs the file.
    fn write(&mut self, framed: &[u8], next: u64) -> Result<(), CommitError>
        requires going { self.old.over ≡ false }
        requires some { self.old.inputs ≢ [] }
        requires counted { self.old.taken < most }
        requires framed { framed.now ≡ next_frame self.old }
        requires next { next ≡ self.old.place + length framed.now }
        ensures { (acts : List Act)
            × Commits F.appends F.syncs (shown E.state self.old) result acts (shown E.state self.new) }
    {
        match self.file.append(framed) {
            Ok(()) => {}
            Err(_) => {
                self.over = true;
                return Err(CommitError::NotWritten);
            }
        }
        match self.file.sync() {
            Ok(()) => {}
            Err(_) => {
                self.over = true;
                return Err(CommitError::NotSynced);
            }
        }
        self.place = next;
        self.taken = 0;
        self.inputs.clear();
        Ok(())
    }

    // Whether a tick at this moment does nothing.
    fn rests(&self, now: Moment) -> bool
        ensures rests { result ≡ true → Rests (shown E.state self.now) now.0 }
        ensures busy { result ≡ false → Rests (shown E.state self.now) now.0 → ⊥ }
        ensures going { result ≡ false → self.now.over ≡ false }
    {
        if self.over {
            return true;
        }
        match self.due {
            Some(at) => now.0 < at.0,
            None => true,
        }
    }
}

/// When a tick of an end is due.
pub(crate) fn due_of<A: Allocator + Copy, E: End<A>>(end: &E) -> Option<Moment>
    ensures { IsDueAt E.latest E.ticks (E.state end.now) (option_map (λ (at : MomentSpec). at.0) result) }
{
    end.due()
}

/// Makes room for a record in what is noted.
pub(crate) fn reserve<A: Allocator>(inputs: &mut Vec<u8, A>, len: usize) -> Result<(), AllocError>
    ensures same { inputs.new.items ≡ inputs.old.items }
    ensures room { OnOk result (length inputs.new.items + len ≤ vec_capacity inputs.new) }
{
    inputs.reserve(len)
}

impl<E: End<A>, F: JournalFile, A: Allocator + Copy> End<A> for Journaled<E, F, A> {
    ghost use Rattle.std.specs.Prelude.{◌≡◌, ◌⊎◌, false, [], if◌then◌else◌};
    ghost use Rattle.coap_journal.specs.Input.{Feed, Tick};
    ghost use Rattle.coap_journaled.specs.Journal.{IsNoted, IsTaken, Journal, Rests, is_open, shown};
    ghost use Rattle.coap_journaled.specs.Runs.{end_gives};

    ghost State = { Journal E.State F };

    ghost state = { λ j. shown E.state j };

    ghost waiting = { λ j. if is_open j then E.waiting j.end else [] };

    ghost latest = { λ j. E.latest j.end };

    ghost work = { λ j now. E.work j.end now };

    ghost quiet_feed = { λ _ _ _ _. ⊥ };

    ghost quiet_tick = { λ j now. Rests j now };

    ghost feeds = { λ j now from bytes word n. IsNoted j (Feed now from bytes word) n
        × E.feeds j.end now from bytes word n.end };

    ghost ticks = { λ j now word did n. (Rests j now × (did ≡ false) × (n ≡ j))
        ⊎ (IsNoted j (Tick now word) n × E.ticks j.end now word did n.end) };

    ghost gives = { λ j packet n. IsTaken j n × end_gives E.waiting E.gives j.end packet n.end };

    fn feed(
        &mut self,
        now: Moment,
        from: Endpoint,
        bytes: &[u8],
        word: u64,
    ) -> Result<(), AllocError> {
        if self.over || bytes.len() > MAX_TURN_LEN {
            return Err(AllocError);
        }
        let record = feed_bytes(self.alloc, now, from, bytes, word)?;
        reserve(&mut self.inputs, record.len())?;
        self.end.feed(now, from, bytes, word)?;
        let _ = self.inputs.extend_from_slice(record.as_slice());
        self.moment = self.moment.later(now);
        self.due = self.end.due();
        Ok(())
    }

    fn tick(&mut self, now: Moment, word: u64) -> Result<bool, AllocError> {
        if self.rests(now) {
            return Ok(false);
        }
        let record = tick_bytes(self.alloc, now, word)?;
        reserve(&mut self.inputs, record.len())?;
        let did = self.end.tick(now, word)?;
        let _ = self.inputs.extend_from_slice(record.as_slice());
        self.moment = self.moment.later(now);
        self.due = self.end.due();
        Ok(did)
    }

    fn due(&self) -> Option<Moment> {
        if self.over {
            return None;
        }
        self.due
    }

    fn next_out(&mut self) -> Option<Datagram<A>> {
        if self.over || !self.inputs.is_empty() {
            return None;
        }
        let datagram = self.end.next_out()?;
        self.taken = self.taken.saturating_add(1);
        self.due = self.end.due();
        Some(datagram)
    }
}
