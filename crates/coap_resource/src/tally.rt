//! The counter of versions, and how many changes a window takes.
ghost use Rattle.std.specs.Prelude.{◌≡◌, ◌<◌, ◌≤◌, ◌+◌, None, max};
ghost use Rattle.coap_resource.specs.Content.{append_refusal_by, put_refusal_by};
ghost use Rattle.coap_resource.specs.Rate.{changes_left, counted, rate_refusal, unused, used, waited, window};

use crate::refusal::StoreRefusal;
use crate::store::MAX_PATHS;
use crate::version_base::VersionBase;
use coap_types::{BodyLimit, MAX_BODY_LIMIT, Moment};
use std::marker::Model;

/// How long a window is in which changes are counted, in milliseconds (profile: the 256 s within
/// which sequence numbers have to tell notifications apart, RFC 7641, section 4.4).
pub const WINDOW_MS: u64 = 256_000;
/// The most changes that a window takes (profile: two windows take fewer than the 2^23 of RFC 7641,
/// section 4.4).
pub const MAX_CHANGES_PER_WINDOW: u32 = 4_194_303;

const _: () = prove!(WINDOW_MS == 256_000 && MAX_CHANGES_PER_WINDOW == 4_194_303);

const _: () = prove!(2 * MAX_CHANGES_PER_WINDOW < 1 << 23);

/// The changes of a store, as numbers.
#[derive(Clone, Copy, Debug)]
pub(crate) struct Tally {
    /// The version of the last change; before the first the base.
    pub(crate) version: u64,
    /// The last moment that counted.
    pub(crate) clock: Moment,
    /// How many changes a window takes.
    pub(crate) per_window: u32,
    /// The longest body that is held.
    pub(crate) limit: BodyLimit,
    /// The version after which the versions begin.
    pub(crate) base: VersionBase,
    /// How many changes there were in the window of `clock`.
    pub(crate) changes: u32,
}

impl Model for Tally {
    ghost use Rattle.coap_resource.specs.Rate.{Tally};

    ghost Value = { Tally };

    ghost view = { λ t. record {
      version = t.version;
      clock = t.clock.0;
      limits = record { changes = t.per_window; body = t.limit; base = t.base };
      changes = t.changes;
    } };

    ghost inverse = { λ t. record {
      version = t.version;
      clock = record { 0 = t.clock };
      per_window = t.limits.changes;
      limit = t.limits.body;
      base = t.limits.base;
      changes = t.changes;
    } };
}

// The window of a moment, by its number.
fn window(moment: Moment) -> u64
    ensures { result ≡ window moment.0 }
{
    moment.0 / WINDOW_MS
}

impl Tally {
    /// No change yet, and no moment.
    pub(crate) fn new(changes_per_window: u32, limit: BodyLimit, base: VersionBase) -> Tally
        ensures tally { result ≡ unused (record { changes = changes_per_window; body = limit; base = base }) }
        ensures within { limit ≤ MAX_BODY_LIMIT }
    {
        let _most = limit.get();
        Tally {
            version: base.get(),
            clock: Moment(0),
            per_window: changes_per_window,
            limit,
            base,
            changes: 0,
        }
    }

    /// The longest body that is held.
    pub(crate) fn limit(&self) -> BodyLimit
        ensures { result ≡ self.now.limits.body }
    {
        self.limit
    }

    // The last moment that counted, when this one has: one before the last counts as the last.
    fn clock_at(&self, now: Moment) -> Moment
        ensures { result.0 ≡ max self.now.clock now.0 }
    {
        self.clock.max(now)
    }

    // How many changes there were in the window of this moment.
    fn used(&self, now: Moment) -> u32
        ensures { result ≡ used self.now now.0 }
    {
        if window(self.clock_at(now)) == window(self.clock) {
            self.changes
        } else {
            0
        }
    }

    /// Why there can be no further change at this moment.
    pub(crate) fn refusal(&self, now: Moment) -> Option<StoreRefusal>
        ensures refusal { result ≡ rate_refusal self.now now.0 }
        ensures room { result ≡ None → used self.now now.0 < self.now.limits.changes }
        ensures next { result ≡ None → self.now.version < u64.MAX }
    {
        if self.used(now) >= self.per_window {
            return Some(StoreRefusal::RateExceeded);
        }
        if self.version == u64::MAX {
            return Some(StoreRefusal::VersionsSpent);
        }
        None
    }

    /// How many changes can be made one after the other at this moment.
    pub(crate) fn changes_left(&self, now: Moment) -> u32
        ensures { result ≡ changes_left self.now now.0 }
    {
        let changes = self.per_window.saturating_sub(self.used(now));
        u64::from(changes).min(u64::MAX - self.version) as u32
    }

    /// Why a body of this length can't be put, where the path holds something or not and so many paths do.
    pub(crate) fn put_refusal(
        &self,
        now: Moment,
        there: bool,
        paths: usize,
        len: usize,
    ) -> Option<StoreRefusal>
        ensures refusal { result ≡ put_refusal_by self.now now.0 there paths len }
        ensures rate { result ≡ None → rate_refusal self.now now.0 ≡ None }
        ensures room { result ≡ None → used self.now now.0 < self.now.limits.changes }
        ensures next { result ≡ None → self.now.version < u64.MAX }
        ensures short { result ≡ None → len ≤ self.now.limits.body }
    {
        if len > self.limit.get() {
            return Some(StoreRefusal::TooLarge);
        }
        if !there && paths >= MAX_PATHS {
            return Some(StoreRefusal::TooManyPaths);
        }
        self.refusal(now)
    }

    /// Why so many bytes can't be joined to a body of this length.
    pub(crate) fn append_refusal(&self, now: Moment, had: usize, len: usize) -> Option<StoreRefusal>
        ensures refusal { result ≡ append_refusal_by self.now now.0 had len }
        ensures rate { result ≡ None → rate_refusal self.now now.0 ≡ None }
        ensures room { result ≡ None → used self.now now.0 < self.now.limits.changes }
        ensures next { result ≡ None → self.now.version < u64.MAX }
        ensures short { result ≡ None → had + len ≤ self.now.limits.body }
    {
        if had.saturating_add(len) > self.limit.get() {
            return Some(StoreRefusal::TooLarge);
        }
        self.refusal(now)
    }

    /// The tally when this moment has counted, and nothing changed.
    pub(crate) fn waited(self, now: Moment) -> Tally
        ensures { result ≡ waited self now.0 }
    {
        Tally {
            clock: self.clock_at(now),
            changes: self.used(now),
            ..self
        }
    }

    /// The tally after a further change at this moment.
    pub(crate) fn counted(self, now: Moment) -> Tally
        requires room { used self now.0 < self.limits.changes }
        requires next { self.version < u64.MAX }
        ensures { result ≡ counted self now.0 }
    {
        Tally {
            version: self.version + 1,
            clock: self.clock_at(now),
            changes: self.used(now) + 1,
            ..self
        }
    }
}
