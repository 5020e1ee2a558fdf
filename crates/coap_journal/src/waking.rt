//! The moment at which the server of a journal goes on.
ghost use Rattle.std.specs.Prelude.{◌≡◌, ◌+◌, ◌-◌, ◌^◌, min};
ghost use Rattle.coap_journal.specs.Waking.{IsSameBoot, same_boot_moment};
ghost use Rattle.coap_journal.specs.declared.waking.Waking.TheVariants as wakings;

use crate::beginning::{Boot, Life};
use coap_types::Moment;
use coap_types::transmission::LAST_RETRANSMISSION_MS;

/// How long a server is silent after another boot of its machine: nothing is fed to it and nothing is
/// sent. No retransmission of what it sent before goes out after that (RFC 7252, section 4.2).
pub const SILENCE_MS: u64 = LAST_RETRANSMISSION_MS + 1;

const _: () = prove!(SILENCE_MS == 47_001);

/// When a server goes on that is replayed.
#[derive(Clone, Copy, Debug, PartialEq, Eq)]
pub enum Waking {
    /// At once, and this is its moment.
    At(Moment),
    /// How long it was away isn't known: it is silent for `SILENCE_MS`, and then this is its moment.
    AfterSilence(Moment),
}

/// When a server goes on, by its last life, the latest moment that counted, the boot of its machine and
/// the uptime, in milliseconds.
pub fn go_on(life: Life, latest: Moment, boot: Boot, uptime: u64) -> Waking
    // In the same boot its moment is that of its last life and what passed since, by the uptime.
    ensures same { IsSameBoot life boot uptime
        → result ≡ wakings.At (record { 0 = same_boot_moment life latest.0 uptime }) }
    // In another boot it is silent, and the silence alone is counted.
    ensures other { (IsSameBoot life boot uptime → ⊥)
        → result ≡ wakings.AfterSilence (record { 0 = min (latest.0 + SILENCE_MS) (2 ^ 64 - 1) }) }
{
    if life.boot == boot && life.uptime <= uptime {
        let passed = life.moment.0.saturating_add(uptime - life.uptime);
        Waking::At(latest.later(Moment(passed)))
    } else {
        Waking::AfterSilence(Moment(latest.0.saturating_add(SILENCE_MS)))
    }
}
