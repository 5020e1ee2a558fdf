//! A server that notes what it takes.
ghost use Rattle.std.specs.Prelude.{◌≡◌, ◌≢◌, ◌⊎◌, ℕ, max, Bool, true, false, Option, Some, None, []};
ghost use Rattle.std.specs.Prelude.{IfOk, IsErr, IsOk, OnErr, OnOk, is_some, option_map};
ghost use Rattle.coap_codec.specs.Message.{Message};
ghost use Rattle.coap_layer.specs.Machine.State.{answer_of, copies, made};
ghost use Rattle.coap_layer.specs.Machine.Ups.{IsQuiet};
ghost use Rattle.coap_layer.specs.Trace as below;
ghost use Rattle.coap_exchange.specs.declared.answerer.Asked.{Asked as AskedSpec};
ghost use Rattle.coap_exchange.specs.declared.answerer.Due.{Due};
ghost use Rattle.coap_server.specs.Led.{Step};
ghost use Rattle.coap_server.specs.Object.Shown.{state_of};
ghost use Rattle.coap_server.specs.Trace.{Feeds, Handling, NextOut, Ticks};
ghost use Rattle.coap_server.specs.Turns.Idle.{IsIdle, moment};
ghost use Rattle.coap_journal.specs.Input.{Feed, Tick};
ghost use Rattle.coap_noted.specs.Notes.{IsDue, IsNotDue, IsUntold, begun_anew, given_with, noted_with, told_in};
ghost use Rattle.coap_noted.specs.Notes.{with_input};

use crate::notes::{MAX_INPUT_LEN, Notes, reserve};
use coap_journal::{feed_bytes, tick_bytes};
use coap_layer::Datagram;
use coap_resource::Store;
use coap_server::Server;
use coap_types::{Endpoint, Moment};
use std::alloc::{AllocError, Allocator};
use std::hash::BuildHasher;

/// A server, and what it took since that was asked last, where notes of that are kept.
///
/// With notes: after each turn, that is some inputs and each tick that is due, write what `noted` tells to
/// a journal, sync that, call `begin_anew`, and only then take `next_out`.
#[derive(Drop)]
pub struct Noted<S: Store<A>, A: Allocator + Copy, H: BuildHasher> {
    /// The server.
    pub server: Server<S, A, H>,
    /// The notes; None where none are kept.
    pub notes: Option<Notes<A>>,
}

/// What was taken since that was asked last isn't handed out, or too many datagrams were given out since.
#[derive(Clone, Copy, Debug, PartialEq, Eq)]
pub struct Untold;

impl<S: Store<A>, A: Allocator + Copy, H: BuildHasher> Noted<S, A, H> {
    /// Takes a datagram that arrived, as `Server::feed`. After an `Err` nothing changed.
    pub fn feed(
        &mut self,
        now: Moment,
        from: Endpoint,
        bytes: &[u8],
        word: u64,
    ) -> Result<(), AllocError>
        // What a datagram makes of the noted server is a step of its machine.
        ensures step { OnOk result ((up : below.Answer) × (came : Option (AskedSpec × Message)) × (h : Handling)
            × (sent : below.Answer) × Step (state_of S.content self.old.server)
            (Feeds now.0 from bytes.now word up came h sent) (state_of S.content self.new.server)) }
        // A datagram that is taken is noted, with its moment, its sender and its word.
        ensures noted { OnOk result (self.new.notes
            ≡ noted_with (Feed now.0 from bytes.now word) now.0 self.old.notes) }
        // A datagram that is refused memory is in no note, and leaves the server as it was.
        ensures err { OnErr result (self.new ≡ self.old) }
        // Where no notes are kept, a datagram for which nothing is sent and nothing is handed up takes no memory.
        ensures quiet { self.old.notes ≡ None → IsQuiet (made self.old.server.exchanges.layer
            (max self.old.server.clock now.0) (below.Receive from bytes.now)) → IsOk result }
    {
        match &mut self.notes {
            None => self.server.feed(now, from, bytes, word)?,
            Some(notes) => feed_noted(&mut self.server, notes, now, from, bytes, word)?,
        }
        Ok(())
    }

    /// Does the first that is due, as `Server::tick`. Where notes are kept, a tick that is not due yet changes
    /// nothing and is not noted. After an `Err` nothing changed.
    pub fn tick(&mut self, now: Moment, word: u64) -> Result<bool, AllocError>
        // A tick that is answered rests, where notes are kept and none is due; or it is noted, and is a step of the
        // server's machine.
        ensures ticked { IfOk result (λ did. ((did ≡ false) × (self.new ≡ self.old) × (self.old.notes ≢ None)
            × IsNotDue now.0 (state_of S.content self.old.server))
            ⊎ ((self.new.notes ≡ noted_with (Tick now.0 word) now.0 self.old.notes)
            × (done : below.Answer) × (room : Bool) × (due : Due) × (passed : ℕ) × (h : Handling) × (id : ℕ)
            × Step (state_of S.content self.old.server) (Ticks now.0 word done room due passed h id did)
            (state_of S.content self.new.server))) }
        // A tick is noted only if one is due by that moment.
        ensures due { IfOk result (λ _. (self.new.notes ≡ self.old.notes)
            ⊎ IsDue now.0 (state_of S.content self.old.server)) }
        // A tick that is refused memory is in no note, and leaves the server as it was.
        ensures err { OnErr result (self.new ≡ self.old) }
        // Where no notes are kept, and nothing is to be sent, a tick takes no memory.
        ensures quiet { self.old.notes ≡ None → IsIdle (state_of S.content self.old.server) now.0 → IsOk result }
        // Where no notes are kept, a tick at which a failure comes first is not refused memory.
        ensures fails { self.old.notes ≡ None
            → copies (moment (state_of S.content self.old.server) now.0) self.old.server.exchanges.layer.open_cons ≡ []
            → answer_of self.old.server.exchanges.layer (moment (state_of S.content self.old.server) now.0) below.Ticks
            ≢ below.Idle → IsOk result }
    {
        match &mut self.notes {
            None => {
                let did = self.server.tick(now, word)?;
                Ok(did)
            }
            Some(notes) => {
                let did = tick_noted(&mut self.server, notes, now, word)?;
                Ok(did)
            }
        }
    }

    /// The datagram that is to be sent next, as `Server::next_out`; an `Err` until what was taken is handed out.
    pub fn next_out(&mut self) -> Result<Option<Datagram<A>>, Untold>
        // Which datagram the noted server gives out is a step of its machine.
        ensures step { IfOk result (λ next. Step (state_of S.content self.old.server) (NextOut next)
            (state_of S.content self.new.server)) }
        // A datagram that is given out is counted.
        ensures counted { IfOk result (λ next. self.new.notes ≡ given_with (is_some next) self.old.notes) }
        // None is given out while an input is noted that wasn't handed out, or none can be counted.
        ensures untold { IsUntold self.old.notes → IsErr result }
        // .. and then alone.
        ensures only { OnErr result (IsUntold self.old.notes) }
        // Where none may be given out, nothing changes.
        ensures err { OnErr result (self.new ≡ self.old) }
    {
        match &mut self.notes {
            None => Ok(self.server.next_out()),
            Some(notes) => {
                let next = next_noted(&mut self.server, notes)?;
                Ok(next)
            }
        }
    }

    /// What was taken since that was asked last, as the bytes of a turn; None where nothing was, or no notes
    /// are kept.
    pub fn noted(&self) -> Result<Option<Vec<u8, A>>, AllocError>
        // What is handed out is the turn of the noted inputs, each spelled, after the number of the datagrams.
        ensures { IfOk result (λ told. option_map (λ v. v.items) told ≡ told_in self.now.notes) }
    {
        match &self.notes {
            None => Ok(None),
            Some(notes) => {
                let turn = notes.turn()?;
                Ok(turn)
            }
        }
    }

    /// Notes of nothing from now on: what `noted` told is in a journal.
    pub fn begin_anew(&mut self)
        // Where notes begin anew, the server is the same.
        ensures same { self.new.server ≡ self.old.server }
        // Notes that begin anew have no input and no datagram.
        ensures anew { self.new.notes ≡ begun_anew self.old.notes }
    {
        match &mut self.notes {
            None => {}
            Some(notes) => notes.begin_anew(),
        }
    }
}

fn feed_noted<S: Store<A>, A: Allocator + Copy, H: BuildHasher>(
    server: &mut Server<S, A, H>,
    notes: &mut Notes<A>,
    now: Moment,
    from: Endpoint,
    bytes: &[u8],
    word: u64,
) -> Result<(), AllocError>
    ensures step { OnOk result ((up : below.Answer) × (came : Option (AskedSpec × Message)) × (h : Handling)
        × (sent : below.Answer) × Step (state_of S.content server.old)
        (Feeds now.0 from bytes.now word up came h sent) (state_of S.content server.new)) }
    ensures noted { OnOk result (notes.new ≡ with_input (Feed now.0 from bytes.now word) now.0 notes.old) }
    ensures same { OnErr result (server.new ≡ server.old) }
    ensures err { OnErr result (notes.new ≡ notes.old) }
{
    if bytes.len() > MAX_INPUT_LEN {
        return Err(AllocError);
    }
    let record = feed_bytes(notes.alloc, now, from, bytes, word)?;
    reserve(&mut notes.inputs, record.len())?;
    server.feed(now, from, bytes, word)?;
    let _ = notes.inputs.extend_from_slice(record.as_slice());
    notes.moment = notes.moment.later(now);
    Ok(())
}

// Whether no tick is due by this moment.
fn rests<S: Store<A>, A: Allocator + Copy, H: BuildHasher>(
    server: &Server<S, A, H>,
    now: Moment,
) -> bool
    ensures rests { result ≡ true → IsNotDue now.0 (state_of S.content server.now) }
    ensures due { result ≡ false → IsDue now.0 (state_of S.content server.now) }
{
    match server.due() {
        Some(at) => {
            if at.0 <= now.0 {
                return false;
            }
            true
        }
        None => true,
    }
}

fn tick_noted<S: Store<A>, A: Allocator + Copy, H: BuildHasher>(
    server: &mut Server<S, A, H>,
    notes: &mut Notes<A>,
    now: Moment,
    word: u64,
) -> Result<bool, AllocError>
    ensures ticked { IfOk result (λ did. ((did ≡ false) × (server.new ≡ server.old) × (notes.new ≡ notes.old)
        × IsNotDue now.0 (state_of S.content server.old))
        ⊎ ((notes.new ≡ with_input (Tick now.0 word) now.0 notes.old)
        × (done : below.Answer) × (room : Bool) × (due : Due) × (passed : ℕ) × (h : Handling) × (id : ℕ)
        × Step (state_of S.content server.old) (Ticks now.0 word done room due passed h id did)
        (state_of S.content server.new))) }
    ensures due { IfOk result (λ _. (notes.new ≡ notes.old) ⊎ IsDue now.0 (state_of S.content server.old)) }
    ensures same { OnErr result (server.new ≡ server.old) }
    ensures err { OnErr result (notes.new ≡ notes.old) }
{
    if rests(server, now) {
        return Ok(false);
    }
    let record = tick_bytes(notes.alloc, now, word)?;
    reserve(&mut notes.inputs, record.len())?;
    let did = server.tick(now, word)?;
    let _ = notes.inputs.extend_from_slice(record.as_slice());
    notes.moment = notes.moment.later(now);
    Ok(did)
}

fn next_noted<S: Store<A>, A: Allocator + Copy, H: BuildHasher>(
    server: &mut Server<S, A, H>,
    notes: &mut Notes<A>,
) -> Result<Option<Datagram<A>>, Untold>
    ensures step { IfOk result (λ next. Step (state_of S.content server.old) (NextOut next)
        (state_of S.content server.new)) }
    ensures counted { IfOk result (λ next. Some notes.new ≡ given_with (is_some next) (Some notes.old)) }
    ensures untold { IsUntold (Some notes.old) → IsErr result }
    ensures only { OnErr result (IsUntold (Some notes.old)) }
    ensures same { OnErr result (server.new ≡ server.old) }
    ensures err { OnErr result (notes.new ≡ notes.old) }
{
    if notes.waits() {
        return Err(Untold);
    }
    match server.next_out() {
        Some(datagram) => {
            notes.taken += 1;
            Ok(Some(datagram))
        }
        None => Ok(None),
    }
}
