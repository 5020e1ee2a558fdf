//! The first moment at which something holds, of one thing and of two.

ghost use Rattle.std.specs.Prelude.{◌≡◌, ◌≤◌, ◌-◌, ◌||◌, ◌&&◌, ℕ, Bool, nat_le};
ghost use Rattle.coap_types.specs.FirstMoment.{HoldsOn, IsFirstMoment};

use crate::Moment;

/// The earlier of two moments, where there are two: that at which the first of two things holds.
pub fn earlier(a: Option<Moment>, b: Option<Moment>) -> Option<Moment>
    // The earlier of two first moments is the first at which the one thing holds or the other.
    ensures { (p q : ℕ → Bool) (from : ℕ) → IsFirstMoment p from a → IsFirstMoment q from b
        → IsFirstMoment (λ now. p now || q now) from result }
{
    match (a, b) {
        (Some(x), Some(y)) => Some(if x.0 <= y.0 { x } else { y }),
        (Some(x), None) => Some(x),
        (None, y) => y,
    }
}

/// The later of two moments, where there are two: that at which both of two things hold that hold on.
pub fn latest(a: Option<Moment>, b: Option<Moment>) -> Option<Moment>
    // The later of two first moments is the first at which both things hold, where they hold on.
    ensures { (p q : ℕ → Bool) (from : ℕ) → HoldsOn p → HoldsOn q → IsFirstMoment p from a → IsFirstMoment q from b
        → IsFirstMoment (λ now. p now && q now) from result }
{
    match (a, b) {
        (Some(x), Some(y)) => Some(x.later(y)),
        (_, _) => None,
    }
}

/// The first moment, from this one on, that comes so long after another.
pub fn after(first: Moment, wait: u64, from: Moment) -> Option<Moment>
    // The moment that is answered is the first, from this one on, that comes so long after the other.
    ensures { IsFirstMoment (λ now. nat_le wait (now - first.0)) from.0 result }
{
    if wait == 0 {
        return Some(from);
    }
    match first.0.checked_add(wait) {
        Some(at) => Some(Moment(at).later(from)),
        None => None,
    }
}
