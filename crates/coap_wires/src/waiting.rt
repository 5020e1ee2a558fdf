//! How long a program waits.
ghost use Rattle.std.specs.Prelude.{◌≡◌, ◌↔◌, ℕ, Some, IfNone, IfSome, true};
ghost use Rattle.coap_wires.specs.Waiting.{HasLasted, HasPassed};

use coap_types::Moment;

/// The milliseconds of a second.
pub const MS_PER_SECOND: u64 = 1_000;

const _: () = prove!(MS_PER_SECOND == 1_000);

/// So many seconds, where they have passed since this moment.
pub fn passed(seconds: Option<u64>, begin: Moment, now: Moment) -> Option<u64>
    // As many seconds as passed are those that were chosen, and have passed.
    ensures some { IfSome result (λ n. (seconds ≡ Some n) × HasPassed n begin.0 now.0) }
    // Where none passed, as many seconds as were chosen have not passed.
    ensures none { IfNone result ((n : ℕ) → seconds ≡ Some n → HasPassed n begin.0 now.0 → ⊥) }
{
    match seconds {
        Some(seconds) if seconds <= now.since(begin) / MS_PER_SECOND => Some(seconds),
        _ => None,
    }
}

/// Whether something that has lasted for so many milliseconds has lasted for so many seconds.
pub fn has_lasted(seconds: Option<u64>, elapsed: u64) -> bool
    // What is to end after so many seconds has lasted exactly where they have passed; with none chosen it never has.
    ensures { (result ≡ true) ↔ HasLasted seconds elapsed }
{
    match seconds {
        Some(seconds) => seconds <= elapsed / MS_PER_SECOND,
        None => false,
    }
}
