//! Message IDs, in groups that rest before they are used again (RFC 7252, section 4.4).
mod left;

ghost use Rattle.std.specs.Prelude.{not, Some, ◌≡◌, ◌+◌, ◌*◌, ◌/◌, ◌%◌, IsTrue, false, List, [], ◌∷◌, ℕ, None};
ghost use Rattle.std.specs.Prelude.{replicate, slice_set};
ghost use Rattle.coap_layer.specs.Ids.{Issued, IdEntry, Ids, IdsAreExact, NumbersLaw, AreApart, IsHeld, IsRested};
ghost use Rattle.coap_layer.specs.Ids.{MayGive, Withholds, numbers, upcoming as upcoming_number};
ghost use Rattle.coap_types.specs.FirstMoment.{IsFirstMoment};
ghost use Rattle.coap_layer.specs.declared.message_id.TheConstants.{GROUP_SIZE as group_size, GROUPS as groups};
ghost use Rattle.coap_layer.specs.Machine.State.{is_free, is_rested};
ghost use Rattle.coap_types.specs.declared.message.TheConstants.{MESSAGE_IDS as message_ids};
ghost use Rattle.coap_layer.specs.Machine.IdStep.{Asks, Draws};
ghost use Rattle.coap_layer.specs.Machine.IdState.{AreUses, Led, next_entry, free_entry, use_of, uses_of};

use coap_types::transmission::ID_REUSE_AFTER_MS;
use coap_types::{Id, Moment, after};
use std::marker::Model;

// How many groups the Message IDs are in (profile).
const GROUPS: usize = 16;
// How many Message IDs a group has (profile).
const GROUP_SIZE: u16 = 4_096;

const _: () = prove!(GROUPS == 16 && GROUP_SIZE == 4_096);

/// A source of Message IDs (RFC 7252, section 4.4): `GROUPS` groups of `GROUP_SIZE` numbers, given in rising
/// order, each group used again only more than `ID_REUSE_AFTER_MS` after its last use
/// (profile).
#[derive(Drop)]
pub struct IdSource {
    clock: Moment,
    upcoming: u16,
    last_used: [Option<Moment>; GROUPS],
}

impl Model for IdSource {
    ghost use Rattle.std.specs.Prelude.{◌≡◌};
    ghost use Rattle.coap_layer.specs.Machine.IdState.{IdState, uses_of};

    ghost Value = { IdState };

    ghost view = { λ s. record { clock = s.clock.0; upcoming = s.upcoming; last_used = uses_of s.last_used } };
}

// Whether a group last used then is still held.
fn is_held(last_use: Option<Moment>, now: Moment) -> bool
    ensures yes { IsTrue result → IsHeld (use_of last_use) now.0 }
    ensures no { result ≡ false → IsRested (use_of last_use) now.0 }
    ensures test { result ≡ not (is_rested now.0 (Some (use_of last_use))) }
{
    match last_use {
        Some(last) => now.since(last) <= ID_REUSE_AFTER_MS,
        None => false,
    }
}

// Whether the number that comes next may be given.
fn may_give(upcoming: u16, last_used: &[Option<Moment>; GROUPS], now: Moment) -> bool
    ensures yes { (word : ℕ) (past : List Issued) → upcoming ≡ upcoming_number word past
        → AreUses past (uses_of last_used.now)
        → IsTrue result → MayGive word past now.0 }
    ensures no { (word : ℕ) (past : List Issued) → upcoming ≡ upcoming_number word past
        → AreUses past (uses_of last_used.now)
        → result ≡ false → Withholds word past now.0 }
    ensures test { result ≡ is_free now.0 upcoming (uses_of last_used.now) }
{
    upcoming % GROUP_SIZE != 0 || !is_held(last_used[(upcoming / GROUP_SIZE) as usize], now)
}

// The first moment, from this one on, at which a group last used then is held no more.
fn rested_from(last_use: Option<Moment>, from: Moment) -> Option<Moment>
    ensures { IsFirstMoment (λ now. is_rested now (Some (use_of last_use))) from.0 result }
{
    match last_use {
        Some(last) => after(last, ID_REUSE_AFTER_MS + 1, from),
        None => Some(from),
    }
}

// The first moment, from this one on, at which the number that comes next may be given.
fn free_from(upcoming: u16, last_used: &[Option<Moment>; GROUPS], from: Moment) -> Option<Moment>
    ensures { IsFirstMoment (λ now. is_free now upcoming (uses_of last_used.now)) from.0 result }
{
    if upcoming % GROUP_SIZE != 0 {
        return Some(from);
    }
    rested_from(last_used[(upcoming / GROUP_SIZE) as usize], from)
}

impl IdSource {
    /// The first moment, from this one on, at which a number may be given.
    pub(crate) fn gives_from(&self, from: Moment) -> Option<Moment>
        ensures { IsFirstMoment (λ now. is_free now self.now.upcoming self.now.last_used) from.0 result }
    {
        free_from(self.upcoming, &self.last_used, from)
    }

    /// The same source again.
    pub(crate) fn copied(&self) -> IdSource
        ensures { result ≡ self.now }
    {
        IdSource {
            clock: self.clock,
            upcoming: self.upcoming,
            last_used: self.last_used,
        }
    }

    /// Whether a number may be given at this moment.
    pub(crate) fn would_give(&self, at: Moment) -> bool
        ensures { result ≡ is_free at.0 self.now.upcoming self.now.last_used }
    {
        may_give(self.upcoming, &self.last_used, at)
    }

    /// Gives the number that comes next.
    pub(crate) fn give(&mut self, at: Moment) -> Id
        ensures id { result.0 ≡ self.old.upcoming }
        ensures new { self.new ≡ record {
          clock = at.0;
          upcoming = (self.old.upcoming + 1) % message_ids;
          last_used = slice_set self.old.last_used (self.old.upcoming / group_size) (Some at.0);
        } }
    {
        let id = self.upcoming;
        self.clock = at;
        self.last_used[(id / GROUP_SIZE) as usize] = Some(at);
        self.upcoming = id.wrapping_add(1);
        Id(id)
    }

    /// A source that begins at the group that the word picks: group `word` mod 16.
    pub fn new(word: u64) -> IdSource
        // To a `new` source of Message IDs no call has led.
        ensures led { Led word [] result }
        // A `new` source has given no Message ID, and begins at the group that its word names.
        ensures start { result ≡ record {
          clock = 0;
          upcoming = word % groups * group_size;
          last_used = replicate groups None;
        } }
    {
        IdSource {
            clock: Moment(0),
            upcoming: (word % GROUPS as u64) as u16 * GROUP_SIZE,
            last_used: [None; GROUPS],
        }
    }

    /// Whether `next` would give a number now. A moment before the last one counts as the last.
    pub fn is_free(&mut self, now: Moment) -> bool
        // Every history that led to the source leads on with the question whether a Message ID is free.
        ensures led { (word : ℕ) (t : List IdEntry) → Led word t self.old
            → Led word (free_entry t now.0 result ∷ t) self.new }
        // Whether a Message ID is free is what the next call would find.
        ensures step { Asks self.old now.0 result self.new }
    {
        self.clock = self.clock.later(now);
        may_give(self.upcoming, &self.last_used, self.clock)
    }

    /// The next number; `None` where the group is spent and the next one was used at most
    /// `ID_REUSE_AFTER_MS` ago. A moment before the last one counts as the last.
    pub fn next(&mut self, now: Moment) -> Option<Id>
        // Every history that led to the source leads on with the Message ID that it gives, or with none.
        ensures led { (word : ℕ) (t : List IdEntry) → Led word t self.old
            → Led word (next_entry t now.0 result ∷ t) self.new }
        // Which Message ID is given, and what that leaves, is by the rule of groups.
        ensures step { Draws self.old now.0 result self.new }
    {
        self.clock = self.clock.later(now);
        if !may_give(self.upcoming, &self.last_used, self.clock) {
            return None;
        }
        Some(self.give(self.clock))
    }
}

/// What leads to a source stands in the law, which leaves each call one answer, and by which equal
/// numbers are more than `ID_REUSE_AFTER_MS` apart.
pub fn ids_law()
    // A history that leads to a source stands in its law.
    ensures law { (word : ℕ) (t : List IdEntry) (s : _) → Led word t s → Ids word t }
    // The law leaves each question for a Message ID one answer.
    ensures exact { IdsAreExact }
    // The Message IDs that are given follow the rule of groups (profile).
    ensures numbers { (word : ℕ) (t : List IdEntry) → Ids word t → NumbersLaw word (numbers t) }
    // Two Message IDs of a source that are equal are more than 400 s apart (section 4.4).
    ensures apart { (word : ℕ) (issued : List Issued) → NumbersLaw word issued → AreApart issued }
{}
