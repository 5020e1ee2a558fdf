//! What the program says where nothing else is said.
ghost use Rattle.std.specs.Prelude.{◌≡◌};

use coap_types::{MAX_SZX, Szx};

/// The format of what the server's own side sets: text/plain (RFC 7252, section 12.3).
pub const TEXT_PLAIN: u16 = 0;

const _: () = prove!(TEXT_PLAIN == 0);

/// Standard input, as a file.
pub const STANDARD_INPUT_FILE: &str = "/dev/stdin";

/// The largest size of blocks (RFC 7959, section 2.2).
pub fn largest_szx() -> Szx
    // The size exponent is the greatest, 6.
    ensures { result ≡ MAX_SZX }
{
    match Szx::new(MAX_SZX) {
        Some(szx) => szx,
        None => unreachable!(),
    }
}
