//! What a server takes at most, and how long it tells by NON (profiles).
use coap_observe::REORDERING_MS;
use coap_resource::WINDOW_MS;
use coap_types::transmission::MAX_LATENCY_MS;

/// How many paths of a server have a delay at most.
pub const MAX_DELAYS: usize = 16;

/// How many paths of a server are plain at most.
pub const MAX_PLAINS: usize = 16;

/// So long after the last Confirmable notification to an observer the next one is Confirmable too: 24
/// hours (RFC 7641, section 4.5).
pub const CON_NOTIFICATION_MS: u64 = 86_400_000;

/// A representation whose last change is older is told in a Confirmable message.
pub const MAX_PLAIN_AGE_MS: u64 = 100_000;

const _: () = prove!(MAX_DELAYS == 16 && MAX_PLAINS == 16 && CON_NOTIFICATION_MS == 86_400_000);

const _: () = prove!(MAX_PLAIN_AGE_MS == 100_000);

// What goes in a NON arrives within the window of the change that made it and the next one, and so
// fewer than half of all sequence numbers lie between it and the newest (RFC 7641, section 4.4) ..
const _: () = prove!(MAX_PLAIN_AGE_MS + MAX_LATENCY_MS <= WINDOW_MS);
// .. and before a client takes any sequence number for a newer one (RFC 7641, section 3.4).
const _: () = prove!(MAX_LATENCY_MS < REORDERING_MS);
