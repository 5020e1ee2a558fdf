//! How long messages and bodies are, in bytes.

/// The longest message that is sent (RFC 7252, section 4.6).
pub const MAX_MESSAGE_LEN: usize = 1_152;

const _: () = prove!(MAX_MESSAGE_LEN == 1_152);
