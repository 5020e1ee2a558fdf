//! The observers of a server, in order of registration (RFC 7641, section 4.1).
ghost use Rattle.std.specs.Prelude.{◌≡◌, ◌<◌, ◌≤◌, [], find, length, max, true, false, IfOk, IsOk, OnErr, slice_get};
ghost use Rattle.std.specs.List.{list_any};
ghost use Rattle.coap_types.specs.SameEndpoint.{same_endpoint};
ghost use Rattle.std.specs.Option.{option_map};
ghost use Rattle.coap_observe.specs.Notices.{but_noted, told_at, told_due};
ghost use Rattle.coap_observe.specs.Observers.{AreRegistrations, Observer, changed_at, elsewhere, is_registered};
ghost use Rattle.coap_observe.specs.Observers.{is_due_at};
ghost use Rattle.coap_observe.specs.Observers.{is_due_of, marked_in, noted_to, registered, rejected, removed};
ghost use Rattle.coap_observe.specs.Observers.{reset_at, sent_to};

use crate::entries::{
    due_behind, first_due, first_noted, has, has_endpoint, is_due, make_room, mark_all, note_all,
    others, push_within, take_all, take_out, unmark_all,
};
use crate::entry::Entry;
use crate::notice::Notice;
use coap_types::{Endpoint, Id, Moment, Path, Szx, Token};
use std::alloc::{AllocError, Allocator, Global};
use std::marker::Model;

/// The most registrations at a server (profile: RFC 7641 sets no bound).
pub const MAX_OBSERVERS: usize = 64;

const _: () = prove!(MAX_OBSERVERS == 64);

/// The observers of a server's resources, in order of registration (RFC 7641, section 4.1). Each is
/// known by its endpoint and the token of its registration. A contract sees the list of them, and
/// the last moment that was handed in: a `now` before it counts as that.
#[derive(Drop)]
pub struct Observers<A: Allocator = Global> {
    clock: Moment,
    list: Vec<Entry<A>, A>,
}

impl<A: Allocator> Model for Observers<A> {
    ghost use Rattle.std.specs.Vec.{vec_capacity};
    ghost use Rattle.coap_observe.specs.Observers.{AreRegistrations, HasPlaces, Roll};
    ghost use Rattle.coap_observe.specs.Shown.{observers_of};

    ghost Value = { Roll };

    ghost view = { λ o. record { clock = o.clock.0; list = observers_of o.list.items } };

    ghost invariant = { λ o. AreRegistrations (observers_of o.list.items)
        × HasPlaces (observers_of o.list.items) (vec_capacity o.list) };
}

impl<A: Allocator + Copy> Observers<A> {
    /// Nobody observes anything.
    pub fn new(alloc: A) -> Observers<A>
        // At first nobody observes anything.
        ensures { result ≡ record { clock = 0; list = [] } }
    {
        Observers {
            clock: Moment(0),
            list: Vec::new(alloc),
        }
    }

    /// How many are registered.
    pub fn len(&self) -> usize
        // The number is that of the registrations.
        ensures { result ≡ length self.now.list }
    {
        self.list.len()
    }

    /// Whether this endpoint observes something.
    pub fn observes(&self, to: Endpoint) -> bool
        // An endpoint observes something where one of the registrations is its own.
        ensures { result ≡ list_any (λ o. same_endpoint o.to to) self.now.list }
    {
        has_endpoint(&self.list, to)
    }

    /// Registers an observer last, with nothing due to it, in place of an earlier registration of
    /// the same endpoint and token (RFC 7641, section 4.1). False where `MAX_OBSERVERS` others are
    /// there: then the moment alone counts. After an `Err` all is as before. The first registration takes
    /// the memory of as many as there may be. Where somebody observes, it takes no memory.
    pub fn register(
        &mut self,
        now: Moment,
        from: Endpoint,
        token: Token,
        path: Path<A>,
        szx: Szx,
    ) -> Result<bool, AllocError>
        // Where 64 others observe, a registration has no place, and nothing changes (profile).
        ensures full { MAX_OBSERVERS ≤ length (removed from token self.old.list)
            → (result ≡ Ok false)
            × (self.new ≡ record { clock = max self.old.clock now.0; list = self.old.list }) }
        // Where fewer than 64 others observe, a registration stands last, in place of an earlier one of its pair.
        ensures taken { length (removed from token self.old.list) < MAX_OBSERVERS
            → IfOk result (λ done. (done ≡ true)
            × (self.new ≡ record {
              clock = max self.old.clock now.0;
              list = registered (max self.old.clock now.0) from token path szx self.old.list;
            })) }
        // A registration of a pair that is there takes no memory.
        ensures again { is_registered from token self.old.list ≡ true → IsOk result }
        // Where somebody observes, a registration takes no memory.
        ensures had { 0 < length self.old.list → IsOk result }
        // A registration that is refused memory changes nothing.
        ensures err { OnErr result (self.new ≡ self.old) }
    {
        let at = self.clock.later(now);
        if others(&self.list, from, &token) >= MAX_OBSERVERS {
            self.clock = at;
            return Ok(false);
        }
        make_room(&mut self.list)?;
        self.clock = at;
        take_out(&mut self.list, from, &token);
        push_within(
            &mut self.list,
            Entry {
                to: from,
                token,
                path,
                szx,
                marked: false,
                con: at,
                changed: at,
                plain: None,
            },
        );
        Ok(true)
    }

    /// Removes the registration of this endpoint and token: whether there was one.
    pub fn remove(&mut self, from: Endpoint, token: &Token) -> bool
        // The answer is whether that endpoint and token were registered.
        ensures was { result ≡ is_registered from token.now self.old.list }
        // After a removal that endpoint and token are not registered, and the others are as they were.
        ensures left { self.new ≡ record { clock = self.old.clock; list = removed from token.now self.old.list } }
    {
        let was_there = has(&self.list, from, token);
        take_out(&mut self.list, from, token);
        was_there
    }

    /// Removes each registration of this endpoint, which never comes again.
    pub fn forget(&mut self, to: Endpoint)
        // After it that endpoint observes nothing, and the registrations of others are as they were.
        ensures { self.new ≡ record { clock = self.old.clock; list = elsewhere to self.old.list } }
    {
        take_all(&mut self.list, to);
    }

    /// The representation of the resource at this path changed: a notification is due to each of its
    /// observers (RFC 7641, section 4.2).
    pub fn changed(&mut self, now: Moment, path: &Path<A>)
        // A change marks each registration of its path, and changes nothing else (RFC 7641, section 4.2).
        ensures { self.new ≡ record {
          clock = max self.old.clock now.0;
          list = changed_at (max self.old.clock now.0) path.now self.old.list;
        } }
    {
        let at = self.clock.later(now);
        self.clock = at;
        mark_all(&mut self.list, at, path);
    }

    /// The first observer at this endpoint, in order of registration, to which a notification is due.
    pub fn due(&self, to: Endpoint) -> Option<Notice<'_, A>>
        // Who is told is the first marked registration of that endpoint.
        ensures first { told_due result ≡ option_map but_noted (find (is_due_at to) self.now.list) }
        // Those among which it is looked for are registrations.
        ensures registrations { AreRegistrations self.now.list }
    {
        let entry = first_due(&self.list, to)?;
        Some(entry.notice())
    }

    /// The observer behind `passed` others, of those to which a notification is due, in order of
    /// registration.
    pub fn due_after(&self, passed: usize) -> Option<Notice<'_, A>>
        // Who is told is the marked registration behind so many others.
        ensures place { told_due result ≡ option_map but_noted (slice_get (marked_in self.now.list) passed) }
        // Those that are gone through are registrations.
        ensures registrations { AreRegistrations self.now.list }
    {
        let entry = due_behind(&self.list, passed)?;
        Some(entry.notice())
    }

    /// The observer at this place, in order of registration from 0, and whether a notification is due
    /// to it.
    pub fn at(&self, i: usize) -> Option<(Notice<'_, A>, bool)>
        // What is told is the registration at that place.
        ensures place { told_at result ≡ option_map but_noted (slice_get self.now.list i) }
        // At the places stand registrations.
        ensures registrations { AreRegistrations self.now.list }
    {
        let entry = self.list.get(i)?;
        Some((entry.notice(), entry.marked))
    }

    /// The notification of this endpoint and token was sent, in a CON or a NON, so it is due no more:
    /// whether it was.
    pub fn sent(&mut self, now: Moment, to: Endpoint, token: &Token, con: bool) -> bool
        // The answer is whether a notification was due to that endpoint and token.
        ensures was { result ≡ list_any (is_due_of to token.now) self.old.list }
        // After a sending nothing is due to that endpoint and token, and the others are as they were.
        ensures left { self.new ≡ record {
          clock = max self.old.clock now.0;
          list = sent_to (max self.old.clock now.0) to token.now con self.old.list;
        } }
    {
        let at = self.clock.later(now);
        self.clock = at;
        let was_due = is_due(&self.list, to, token);
        unmark_all(&mut self.list, at, to, token, con);
        was_due
    }

    /// The notification of this endpoint and token went in a NON with this Message ID: a Reset of it
    /// is known by that (RFC 7641, section 3.6).
    pub fn noted(&mut self, now: Moment, to: Endpoint, token: &Token, id: Id)
        // The registration keeps this NON as its last one, and nothing else changes.
        ensures { self.new ≡ record {
          clock = max self.old.clock now.0;
          list = noted_to (max self.old.clock now.0) to token.now id.0 self.old.list;
        } }
    {
        let at = self.clock.later(now);
        self.clock = at;
        note_all(&mut self.list, at, to, token, id);
    }

    /// A Reset with this Message ID arrived from there: it removes the registration whose last NON it
    /// rejects, and that one's token is answered.
    pub fn reset(&mut self, now: Moment, to: Endpoint, id: Id) -> Option<Token>
        // The answer is the token of the registration whose last NON that is.
        ensures whose { result
            ≡ option_map (λ (o : Observer). o.token) (rejected (max self.old.clock now.0) to id.0 self.old.list) }
        // That registration is gone, and the others are as they were.
        ensures left { self.new ≡ record {
          clock = max self.old.clock now.0;
          list = reset_at (max self.old.clock now.0) to id.0 self.old.list;
        } }
    {
        let at = self.clock.later(now);
        self.clock = at;
        let entry = first_noted(&self.list, at, to, id)?;
        let from = entry.to;
        let token = entry.token.copy();
        take_out(&mut self.list, from, &token);
        Some(token)
    }
}
