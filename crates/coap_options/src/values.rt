//! The value of an option by its number (RFC 7252, section 5.4.5).
ghost use Rattle.std.specs.Prelude.{◌≡◌, option_copied};
ghost use Rattle.coap_types.specs.OptionValues.{value_of};

use coap_codec::View;

/// The value of the first option of this number; None where the message has none.
pub fn value_of<'a>(message: &View<'a>, number: u16) -> Option<&'a [u8]>
    // The value that is answered is that of the first option of this number, in the order of the message.
    ensures { option_copied result ≡ value_of number message.now.options }
{
    for option in message.options() {
        if option.number == number {
            return Some(option.value);
        }
    }
    None
}
