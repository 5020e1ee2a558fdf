//! How many Message IDs are left at a moment (RFC 7252, section 4.4).
ghost use Rattle.std.specs.Prelude.{◌≡◌, ◌≤◌, ◌<◌, ◌+◌, ◌++◌, length};
ghost use Rattle.coap_layer.specs.Machine.IdState.{uses_of};
ghost use Rattle.coap_layer.specs.Machine.Load.{ids_left, others_from, rested_first};
ghost use Rattle.coap_layer.specs.declared.message_id.TheConstants.{GROUPS as groups};

use crate::message_id::{GROUP_SIZE, GROUPS, IdSource, is_held};
use coap_types::Moment;

// How many of these groups, from the first on, rest.
fn rested(last_used: &[Option<Moment>], now: Moment) -> usize
    ensures rested { result ≡ rested_first now.0 (uses_of last_used.now) }
    ensures within { result ≤ length last_used.now }
{
    match last_used {
        [] => 0,
        [first, ..] if is_held(*first, now) => 0,
        [_, rest @ ..] => 1 + rested(rest, now),
    }
}

// How many of these groups and then of those, from the first on, rest.
fn rested_through(these: &[Option<Moment>], those: &[Option<Moment>], now: Moment) -> usize
    ensures rested { result ≡ rested_first now.0 (uses_of these.now ++ uses_of those.now) }
    ensures within { result ≤ length these.now + length those.now }
{
    let first = rested(these, now);
    if first < these.len() {
        first
    } else {
        first + rested(those, now)
    }
}

// How many of the other groups, in the order in which they come after this one, can be entered one after the other.
fn others_rested(last_used: &[Option<Moment>; GROUPS], group: usize, now: Moment) -> usize
    requires { group < groups }
    ensures rested { result ≡ rested_first now.0 (others_from group (uses_of last_used.now)) }
    ensures within { result < groups }
{
    rested_through(&last_used[group + 1..], &last_used[..group], now)
}

impl IdSource {
    /// How many numbers can be given one after the other at this moment.
    pub(crate) fn left(&self, at: Moment) -> u32
        ensures { result ≡ ids_left at.0 self.now.upcoming self.now.last_used }
    {
        if !self.would_give(at) {
            return 0;
        }
        let group = (self.upcoming / GROUP_SIZE) as usize;
        let others = others_rested(&self.last_used, group, at) as u32;
        u32::from(GROUP_SIZE - self.upcoming % GROUP_SIZE) + u32::from(GROUP_SIZE) * others
    }
}
