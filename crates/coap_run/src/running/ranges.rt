//! Which values the types of an event have.
ghost use Rattle.std.specs.Prelude.{◌<◌, ◌^◌, IfSome};
ghost use Rattle.coap_types.specs.Bytes.{AreBytes};
ghost use Rattle.coap_record.specs.Legal.{InRange, IsEndpoint};
ghost use Rattle.coap_run.specs.Run.Happening.{what_of};

use crate::running::event::{Side, What};
use coap_types::Endpoint;
use std::alloc::Allocator;

// Each number of a slice of bytes is that of a byte.
fn show_bytes(bytes: &[u8])
    ensures { AreBytes bytes.now }
{}

// A number that is there has 16 bits.
fn show_16_bits(number: Option<u16>)
    ensures { IfSome number (λ n. n < 2 ^ 16) }
{}

// A number has 64 bits.
fn show_64_bits(number: u64)
    ensures { number < 2 ^ 64 }
{}

/// An endpoint is one of IPv4.
pub(crate) fn show_endpoint(endpoint: Endpoint)
    ensures { IsEndpoint endpoint }
{
    show_bytes(&endpoint.ip);
}

/// What its types say of an event: its numbers are in range, and its fields within their bounds. It
/// does nothing.
pub(crate) fn show_ranges<A: Allocator + Copy>(what: &What<A>)
    ensures { InRange (what_of what.now) }
{
    match what {
        What::Call(request) => request.ranges(),
        What::Observe(path) => {
            let _path = path.segments();
        }
        What::Cancel(id) => show_64_bits(id.0),
        What::Forget(id) => show_64_bits(id.0),
        What::Set(path, format, body) => {
            let _path = path.segments();
            show_16_bits(*format);
            show_bytes(body.as_slice());
        }
        What::Remove(path) => {
            let _path = path.segments();
        }
        What::Tick(side) => match side {
            Side::Client => {}
            Side::Server => {}
        },
        What::Deliver(_) => {}
        What::Stranger(side, from, bytes) => {
            show_endpoint(*from);
            show_bytes(bytes.as_slice());
            match side {
                Side::Client => {}
                Side::Server => {}
            }
        }
    }
}
