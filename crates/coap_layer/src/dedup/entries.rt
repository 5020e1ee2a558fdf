//! How many of what is kept, the first ones, are no longer remembered.
ghost use Rattle.std.specs.Prelude.{◌≡◌, ◌<◌, ◌≤◌, ◌+◌, ◌-◌, true, false, filter, drop, length};
ghost use Rattle.std.specs.List.Sorted.{IsNonDecreasingBy};
ghost use Rattle.coap_layer.specs.Machine.State.{is_live};
ghost use Rattle.coap_layer.specs.Machine.Entries.{arrivals_as, is_passed_at};

use crate::dedup::log::Log;
use crate::dedup::{Kept, Key, is_live};
use coap_types::Moment;
use std::alloc::Allocator;
use std::hash::BuildHasher;

/// Whether there is one at this place that is no longer remembered.
pub(crate) fn is_passed_at<A: Allocator + Copy, S: BuildHasher>(
    log: &Log<Key, Kept<A>, A, S>,
    place: usize,
    now: Moment,
) -> bool
    ensures { result ≡ is_passed_at now.0 log.now.entries place }
{
    match log.get(place) {
        Some(kept) => !is_live(kept, now),
        None => false,
    }
}

// Whether so many more are no longer remembered.
fn leaps<A: Allocator + Copy, S: BuildHasher>(
    log: &Log<Key, Kept<A>, A, S>,
    held: usize,
    passed: usize,
    step: usize,
    now: Moment,
) -> bool
    requires held { held ≡ length log.now.entries }
    requires passed { passed ≤ held }
    requires step { 0 < step }
    ensures within { result ≡ true → passed + step ≤ held }
    ensures passed { result ≡ true → is_passed_at now.0 log.now.entries (passed + step - 1) ≡ true }
    ensures live { result ≡ false → passed + step ≤ held
        → is_passed_at now.0 log.now.entries (passed + step - 1) ≡ false }
{
    step <= held - passed && is_passed_at(log, passed + (step - 1), now)
}

/// How many of them, the first ones, are no longer remembered: found by steps that grow, and then shrink.
pub(crate) fn passed_by<A: Allocator + Copy, S: BuildHasher>(
    log: &Log<Key, Kept<A>, A, S>,
    now: Moment,
) -> usize
    requires order { IsNonDecreasingBy (λ e. e.1.at.0) log.now.entries }
    ensures within { result ≤ length log.now.entries }
    ensures live { arrivals_as (drop result log.now.entries) ≡ filter (is_live now.0) (arrivals_as log.now.entries) }
{
    let held = log.len();
    let mut passed = 0;
    let mut step = 1;
    'far: while leaps(log, held, passed, step, now) {
        passed += step;
        step = passed + 1;
    }
    'near: while step > 1 {
        step -= step / 2;
        if leaps(log, held, passed, step, now) {
            passed += step;
        }
    }
    passed
}
