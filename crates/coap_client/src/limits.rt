//! What a client takes at most (a profile).

use coap_operations::MAX_WAITING;
use coap_types::limits::MAX_MESSAGE_LEN;
use coap_types::{MAX_SZX, MAX_TOKEN_LEN};

/// How many calls wait at a client at most.
pub const MAX_WAITING_CALLS: usize = MAX_WAITING;

/// How many observations wait, run or are live at a client at most.
pub const MAX_OBSERVATIONS: usize = 16;

/// How many bytes the options of a request take at most: what header, token, payload marker and the
/// largest block leave of a message.
pub const MAX_OPTIONS_LEN: usize = MAX_MESSAGE_LEN - 4 - MAX_TOKEN_LEN - 1 - (1 << (MAX_SZX + 4));

const _: () = prove!(MAX_WAITING_CALLS == 8 && MAX_OPTIONS_LEN == 115);

const _: () = prove!(MAX_OBSERVATIONS == 16);
