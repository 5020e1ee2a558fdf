//! The options of a message, by their places, and all of them.
ghost use Rattle.std.specs.Prelude.{◌≡◌, option_map, slice_get, IfOk};
ghost use Rattle.coap_types.specs.CoapOption.{option_of, options_of};

use coap_codec::View;
use coap_types::Opt;
use std::alloc::{AllocError, Allocator};

/// The option at this place, counted from 0; None where the message has no more (RFC 7252, section 3.1).
pub fn option_at<'a>(message: &View<'a>, place: usize) -> Option<Opt<'a>>
    // The option at a place is the one that stands there among those of the message, in order.
    ensures { option_map option_of result ≡ slice_get message.now.options place }
{
    let mut between = place;
    for option in message.options() {
        if between == 0 {
            return Some(option);
        }
        between -= 1;
    }
    None
}

/// All options of the message, in order.
pub fn options_in<'a, A: Allocator + Copy>(
    alloc: A,
    message: &View<'a>,
) -> Result<Vec<Opt<'a>, A>, AllocError>
    // The options that are answered are those of the message, in order.
    ensures { IfOk result (λ options. options_of options.items ≡ message.now.options) }
{
    let mut options = Vec::new(alloc);
    for option in message.options() {
        options.push(option)?;
    }
    Ok(options)
}
