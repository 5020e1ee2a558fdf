//! Transmission parameters (RFC 7252, sections 4.8 and 4.8.2), in milliseconds where the name says
//! so.

/// The least initial timeout of a Confirmable message (RFC 7252, section 4.8).
pub const ACK_TIMEOUT_MS: u64 = 2_000;
/// ACK_RANDOM_FACTOR is 1.5: this over `ACK_RANDOM_FACTOR_DENOMINATOR` (RFC 7252, section 4.8).
pub const ACK_RANDOM_FACTOR_NUMERATOR: u64 = 3;
/// ACK_RANDOM_FACTOR is 1.5: `ACK_RANDOM_FACTOR_NUMERATOR` over this (RFC 7252, section 4.8).
pub const ACK_RANDOM_FACTOR_DENOMINATOR: u64 = 2;
/// The most retransmissions of a Confirmable message (RFC 7252, section 4.8).
pub const MAX_RETRANSMIT: u32 = 4;
/// The most outstanding interactions with one endpoint (RFC 7252, sections 4.7 and 4.8).
pub const NSTART: usize = 1;

/// The longest that a datagram takes from its sending to its arrival (RFC 7252, section 4.8.2).
pub const MAX_LATENCY_MS: u64 = 100_000;
/// The longest that a node takes to acknowledge a message (RFC 7252, section 4.8.2).
pub const PROCESSING_DELAY_MS: u64 = ACK_TIMEOUT_MS;

/// The greatest initial timeout of a Confirmable message (RFC 7252, section 4.2).
pub const MAX_ACK_TIMEOUT_MS: u64 = ACK_TIMEOUT_MS * ACK_RANDOM_FACTOR_NUMERATOR
    / ACK_RANDOM_FACTOR_DENOMINATOR;
/// How many initial timeouts there are, in whole milliseconds (RFC 7252, section 4.2).
pub const TIMEOUT_VALUES: u64 = MAX_ACK_TIMEOUT_MS - ACK_TIMEOUT_MS + 1;
/// From the first sending of a Confirmable message to its last retransmission (RFC 7252, section
/// 4.8.2).
pub const MAX_TRANSMIT_SPAN_MS: u64 = MAX_ACK_TIMEOUT_MS * ((1 << MAX_RETRANSMIT) - 1);
/// From the first sending of a Confirmable message until no acknowledgement is awaited any more, in
/// initial timeouts: the timeout doubles with each retransmission (RFC 7252, section 4.2).
pub const FAILURE_TIMEOUTS: u64 = (1 << (MAX_RETRANSMIT + 1)) - 1;
/// From the first sending of a Confirmable message until no acknowledgement is awaited any more
/// (RFC 7252, section 4.8.2).
pub const MAX_TRANSMIT_WAIT_MS: u64 = MAX_ACK_TIMEOUT_MS * FAILURE_TIMEOUTS;
/// From the first sending of a Confirmable message until nothing of its exchange is awaited
/// (RFC 7252, section 4.8.2).
pub const EXCHANGE_LIFETIME_MS: u64 = MAX_TRANSMIT_SPAN_MS
    + 2 * MAX_LATENCY_MS
    + PROCESSING_DELAY_MS;

/// No retransmission goes out later than this after the first sending (profile: a late tick gets
/// this much grace over MAX_TRANSMIT_SPAN).
pub const LAST_RETRANSMISSION_MS: u64 = MAX_TRANSMIT_SPAN_MS + PROCESSING_DELAY_MS;
/// No retransmission arrives later than this after the first sending.
pub const LAST_ARRIVAL_MS: u64 = LAST_RETRANSMISSION_MS + MAX_LATENCY_MS;
/// A Message ID is not used again within this time (profile: longer than the EXCHANGE_LIFETIME that
/// RFC 7252, section 4.4, asks for).
pub const ID_REUSE_AFTER_MS: u64 = 400_000;

// What the standard gives as numbers.
const _: () = prove!(ACK_TIMEOUT_MS == 2_000);

const _: () = prove!(ACK_RANDOM_FACTOR_NUMERATOR == 3 && ACK_RANDOM_FACTOR_DENOMINATOR == 2);

const _: () = prove!(MAX_RETRANSMIT == 4 && NSTART == 1);

const _: () = prove!(MAX_LATENCY_MS == 100_000 && PROCESSING_DELAY_MS == 2_000);

const _: () = prove!(MAX_TRANSMIT_SPAN_MS == 45_000 && MAX_TRANSMIT_WAIT_MS == 93_000);

const _: () = prove!(FAILURE_TIMEOUTS == 31 && TIMEOUT_VALUES == 1_001);

const _: () = prove!(EXCHANGE_LIFETIME_MS == 247_000);

// The profile: when a retransmission arrives, the message is still remembered, and before a
// Message ID is used again, everything of its last use is forgotten.
const _: () = prove!(LAST_RETRANSMISSION_MS == 47_000 && ID_REUSE_AFTER_MS == 400_000);

const _: () = prove!(LAST_ARRIVAL_MS == 147_000 && LAST_ARRIVAL_MS < EXCHANGE_LIFETIME_MS);

const _: () = prove!(LAST_ARRIVAL_MS + EXCHANGE_LIFETIME_MS < ID_REUSE_AFTER_MS);
