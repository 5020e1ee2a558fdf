//! The bytes of an input.
ghost use Rattle.std.specs.Prelude.{◌≡◌, ◌∷◌, ◌++◌, ◌<◌, ◌^◌, [], length, OnOk, IfOk};
ghost use Rattle.coap_journal.specs.Input.{Delay, Feed, Forget, Plain, Refuse, Remove, Set, Tick, endpoint_bytes};
ghost use Rattle.coap_journal.specs.Input.{feed_bytes as feed_spelled, format_bytes};
ghost use Rattle.coap_journal.specs.Input.{path_bytes, spelled, text, texts};
ghost use Rattle.coap_journal.specs.Numbers.{number};
ghost use Rattle.coap_types.specs.Path.{HoldsAtMost, segments_of};

use crate::numbers::{put_half, put_number, put_short};
use coap_types::{Endpoint, Moment, Path};
use std::alloc::{AllocError, Allocator};

/// The kind of a datagram that came. A kind is the first byte of an input or of a record.
pub const FEED: u8 = 1;
/// The kind of a tick.
pub const TICK: u8 = 2;
/// The kind of a local change.
pub const SET: u8 = 3;
/// The kind of a local removal.
pub const REMOVE: u8 = 4;
/// The kind of a delay.
pub const DELAY: u8 = 5;
/// The kind of a plain path.
pub const PLAIN: u8 = 6;
/// The kind of a turn.
pub const TURN: u8 = 9;
/// The kind of a datagram that came, and whose request was to be refused.
pub const REFUSE: u8 = 10;
/// The kind of a peer that is forgotten.
pub const FORGET: u8 = 11;

// A path without a content-format.
const NO_FORMAT: [u8; 3] = [0, 0, 0];
// What stands in front of a content-format.
const SOME_FORMAT: u8 = 1;

const _: () = prove!(FEED == 1 && TICK == 2 && SET == 3);

const _: () = prove!(
    REMOVE == 4 && DELAY == 5 && PLAIN == 6 && TURN == 9 && REFUSE == 10 && FORGET == 11
);

fn put_text<A: Allocator>(out: &mut Vec<u8, A>, bytes: &[u8]) -> Result<(), AllocError>
    requires { length bytes.now < 2 ^ 32 }
    ensures { OnOk result (out.new.items ≡ out.old.items ++ text bytes.now) }
{
    let len = bytes.len() as u32;
    put_short(out, len)?;
    out.extend_from_slice(bytes)
}

fn put_endpoint<A: Allocator>(out: &mut Vec<u8, A>, at: Endpoint) -> Result<(), AllocError>
    ensures { OnOk result (out.new.items ≡ out.old.items ++ endpoint_bytes at) }
{
    out.extend_from_slice(&at.ip)?;
    put_half(out, at.port)
}

fn put_format<A: Allocator>(out: &mut Vec<u8, A>, format: Option<u16>) -> Result<(), AllocError>
    ensures { OnOk result (out.new.items ≡ out.old.items ++ format_bytes format) }
{
    match format {
        None => out.extend_from_slice(&NO_FORMAT),
        Some(number) => {
            out.extend_from_slice(&[SOME_FORMAT])?;
            put_half(out, number)
        }
    }
}

// What follows the kind of a datagram.
fn put_feed<A: Allocator>(
    out: &mut Vec<u8, A>,
    now: Moment,
    from: Endpoint,
    bytes: &[u8],
    word: u64,
) -> Result<(), AllocError>
    requires { length bytes.now < 2 ^ 32 }
    ensures { OnOk result (out.new.items ≡ out.old.items ++ feed_spelled now.0 from bytes.now word) }
{
    put_number(out, now.0)?;
    put_number(out, word)?;
    put_endpoint(out, from)?;
    put_text(out, bytes)
}

/// The bytes of a datagram that came.
pub fn feed_bytes<A: Allocator + Copy>(
    alloc: A,
    now: Moment,
    from: Endpoint,
    bytes: &[u8],
    word: u64,
) -> Result<Vec<u8, A>, AllocError>
    requires { length bytes.now < 2 ^ 32 }
    // A datagram is spelled with its moment, its word and where it came from.
    ensures { IfOk result (λ v. v.items ≡ spelled (Feed now.0 from bytes.now word)) }
{
    let mut out = Vec::from_slice(alloc, &[FEED])?;
    put_feed(&mut out, now, from, bytes, word)?;
    Ok(out)
}

/// The bytes of a datagram that came, and whose request was to be refused with this code.
pub fn refuse_bytes<A: Allocator + Copy>(
    alloc: A,
    now: Moment,
    from: Endpoint,
    bytes: &[u8],
    word: u64,
    code: u8,
) -> Result<Vec<u8, A>, AllocError>
    requires { length bytes.now < 2 ^ 32 }
    // A datagram whose request was to be refused is spelled as a datagram, behind the code.
    ensures { IfOk result (λ v. v.items ≡ spelled (Refuse now.0 from bytes.now word code)) }
{
    let mut out = Vec::from_slice(alloc, &[REFUSE, code])?;
    put_feed(&mut out, now, from, bytes, word)?;
    Ok(out)
}

/// The bytes of a peer that is forgotten.
pub fn forget_bytes<A: Allocator + Copy>(alloc: A, peer: Endpoint) -> Result<Vec<u8, A>, AllocError>
    // A peer that is forgotten is spelled as its endpoint.
    ensures { IfOk result (λ v. v.items ≡ spelled (Forget peer)) }
{
    let mut out = Vec::from_slice(alloc, &[FORGET])?;
    put_endpoint(&mut out, peer)?;
    Ok(out)
}

/// The bytes of a tick.
pub fn tick_bytes<A: Allocator + Copy>(
    alloc: A,
    now: Moment,
    word: u64,
) -> Result<Vec<u8, A>, AllocError>
    // A tick is spelled with its moment and its word.
    ensures { IfOk result (λ v. v.items ≡ spelled (Tick now.0 word)) }
{
    let mut out = Vec::from_slice(alloc, &[TICK])?;
    put_number(&mut out, now.0)?;
    put_number(&mut out, word)?;
    Ok(out)
}

fn put_texts<A: Allocator, B: Allocator>(
    out: &mut Vec<u8, A>,
    segments: &[Vec<u8, B>],
) -> Result<(), AllocError>
    requires { HoldsAtMost 16 255 (segments_of segments.now) }
    ensures { OnOk result (out.new.items ≡ out.old.items ++ texts (segments_of segments.now)) }
{
    for segment in segments {
        put_text(out, segment.as_slice())?;
    }
    Ok(())
}

fn put_path<A: Allocator, B: Allocator + Copy>(
    out: &mut Vec<u8, A>,
    path: &Path<B>,
) -> Result<(), AllocError>
    ensures { OnOk result (out.new.items ≡ out.old.items ++ path_bytes path.now) }
{
    let segments = path.segments();
    out.extend_from_slice(&[segments.len() as u8])?;
    put_texts(out, segments)
}

/// The bytes of a local change.
pub fn set_bytes<A: Allocator + Copy>(
    alloc: A,
    now: Moment,
    path: &Path<A>,
    format: Option<u16>,
    body: &[u8],
) -> Result<Vec<u8, A>, AllocError>
    requires { length body.now < 2 ^ 32 }
    // A local change is spelled with its moment, its path, the format and the body.
    ensures { IfOk result (λ v. v.items ≡ spelled (Set now.0 path.now format body.now)) }
{
    let mut out = Vec::from_slice(alloc, &[SET])?;
    put_number(&mut out, now.0)?;
    put_format(&mut out, format)?;
    put_path(&mut out, path)?;
    put_text(&mut out, body)?;
    Ok(out)
}

/// The bytes of a local removal.
pub fn remove_bytes<A: Allocator + Copy>(
    alloc: A,
    now: Moment,
    path: &Path<A>,
) -> Result<Vec<u8, A>, AllocError>
    // A local removal is spelled with its moment and its path.
    ensures { IfOk result (λ v. v.items ≡ spelled (Remove now.0 path.now)) }
{
    let mut out = Vec::from_slice(alloc, &[REMOVE])?;
    put_number(&mut out, now.0)?;
    put_path(&mut out, path)?;
    Ok(out)
}

/// The bytes of a delay.
pub fn delay_bytes<A: Allocator + Copy>(
    alloc: A,
    path: &Path<A>,
    ms: u64,
) -> Result<Vec<u8, A>, AllocError>
    // A delay is spelled with its milliseconds and its path.
    ensures { IfOk result (λ v. v.items ≡ spelled (Delay path.now ms)) }
{
    let mut out = Vec::from_slice(alloc, &[DELAY])?;
    put_number(&mut out, ms)?;
    put_path(&mut out, path)?;
    Ok(out)
}

/// The bytes of a plain path.
pub fn plain_bytes<A: Allocator + Copy>(alloc: A, path: &Path<A>) -> Result<Vec<u8, A>, AllocError>
    // A plain path is spelled as it is.
    ensures { IfOk result (λ v. v.items ≡ spelled (Plain path.now)) }
{
    let mut out = Vec::from_slice(alloc, &[PLAIN])?;
    put_path(&mut out, path)?;
    Ok(out)
}

/// The bytes of a turn: by its moment so many datagrams were taken, and then the server took the inputs
/// of these bytes.
pub fn turn_bytes<A: Allocator + Copy>(
    alloc: A,
    moment: Moment,
    taken: u64,
    inputs: &[u8],
) -> Result<Vec<u8, A>, AllocError>
    // A turn is spelled with its moment, the number of datagrams that were taken before it, and its inputs.
    ensures { IfOk result (λ v. v.items ≡ TURN ∷ (number moment.0 ++ (number taken ++ inputs.now))) }
{
    let mut out = Vec::from_slice(alloc, &[TURN])?;
    put_number(&mut out, moment.0)?;
    put_number(&mut out, taken)?;
    out.extend_from_slice(inputs)?;
    Ok(out)
}
