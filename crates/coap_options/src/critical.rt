//! Critical options that are not known (RFC 7252, section 5.4.1).
ghost use Rattle.std.specs.Prelude.{◌≡◌, IsTrue, ◌↔◌};
ghost use Rattle.coap_options.specs.Critical.{first_unknown, is_known};

use coap_codec::View;

// Whether the number is one of these.
fn is_known(known: &[u16], number: u16) -> bool
    ensures { result ≡ is_known known.now number }
{
    for one in known {
        if *one == number {
            return true;
        }
    }
    false
}

/// The number of the first critical option of the message that is not among these; None where it has none (RFC 7252,
/// section 5.4.1).
pub fn unknown_critical(message: &View<'_>, known: &[u16]) -> Option<u16>
    // The number that is answered is that of the first critical option that isn't known, in the order of the message.
    ensures { result ≡ first_unknown known.now message.now.options }
{
    for option in message.options() {
        if option.number % 2 == 1 && !is_known(known, option.number) {
            return Some(option.number);
        }
    }
    None
}
