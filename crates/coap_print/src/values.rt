//! Values in print.
ghost use Rattle.std.specs.Prelude.{◌≡◌, IfOk, string_bytes};
ghost use Rattle.coap_print.specs.Values.{shown_hex};

use std::alloc::{AllocError, Allocator};

/// Bytes in lower case hex, or `-` where there are none.
pub fn hex_or_dash<A: Allocator + Copy>(alloc: A, bytes: &[u8]) -> Result<String<A>, AllocError>
    // The text is the hex of the bytes, and a dash where there are none.
    ensures { IfOk result (λ text. string_bytes text ≡ shown_hex bytes.now) }
{
    if bytes.is_empty() {
        return String::from_str(alloc, "-");
    }
    hex::encode(alloc, bytes)
}
