//! An input, read from its bytes.
ghost use Rattle.std.specs.Prelude.{◌≡◌, ◌<◌, ◌+◌, ◌^◌, ◌∷◌, ◌++◌, ℕ, List, Option, length, Err, IfOk, IfSome, IfNone};
ghost use Rattle.coap_journal.specs.Input.{AreShort, Feed, Forget, IsFormat, IsInput, IsSegments, Refuse, Set};
ghost use Rattle.coap_journal.specs.Input.{endpoint_bytes, feed_bytes, refuse_bytes};
ghost use Rattle.coap_journal.specs.Input.{format_bytes, path_bytes, set_bytes, text, texts, tick_bytes};
ghost use Rattle.coap_journal.specs.Numbers.{number};
ghost use Rattle.coap_journal.specs.declared.reading.ReadError.TheVariants.{Unreadable};
ghost use Rattle.coap_types.specs.declared.endpoint.Endpoint.{Endpoint as EndpointSpec};

use crate::numbers::{read_half, read_number, read_short};
use coap_types::{Endpoint, Moment, Path, PathRefusal};
use std::alloc::Allocator;

/// Why no input is read.
#[derive(Clone, Copy, Debug, PartialEq, Eq)]
pub enum ReadError {
    /// An allocation was refused.
    Memory,
    /// There is none.
    Unreadable,
}

/// A datagram that came.
#[derive(Clone, Copy)]
pub struct Fed<'a> {
    /// The moment.
    pub now: Moment,
    /// The word.
    pub word: u64,
    /// Where it came from.
    pub from: Endpoint,
    /// Its bytes.
    pub bytes: &'a [u8],
}

pub(crate) fn read_text(bytes: &[u8]) -> Option<(&[u8], &[u8])>
    ensures some { IfSome result (λ p. bytes.now ≡ text p.0.now ++ p.1.now) }
    ensures short { IfSome result (λ p. length p.0.now < 2 ^ 32) }
    ensures none { IfNone result ((xs rest : List ℕ) → length xs < 2 ^ 32 → bytes.now ≡ text xs ++ rest → ⊥) }
{
    let (len, rest) = read_short(bytes)?;
    let len = len as usize;
    if rest.len() < len {
        return None;
    }
    Some(rest.split_at(len))
}

fn read_endpoint(bytes: &[u8]) -> Option<(Endpoint, &[u8])>
    ensures some { IfSome result (λ p. bytes.now ≡ endpoint_bytes p.0 ++ p.1.now) }
    ensures left { IfSome result (λ p. length bytes.now ≡ length p.1.now + 6) }
    ensures lacks { IfNone result (length bytes.now < 6) }
{
    match bytes {
        [a, b, c, d, behind @ ..] => {
            let (port, rest) = read_half(behind)?;
            let ip = [*a, *b, *c, *d];
            Some((Endpoint { ip, port }, rest))
        }
        _ => None,
    }
}

fn read_format(bytes: &[u8]) -> Option<(Option<u16>, &[u8])>
    ensures some { IfSome result (λ p. bytes.now ≡ format_bytes p.0 ++ p.1.now) }
    ensures fits { IfSome result (λ p. IsFormat p.0) }
    ensures none { IfNone result ((format : Option ℕ) (rest : List ℕ) → IsFormat format
        → bytes.now ≡ format_bytes format ++ rest → ⊥) }
{
    match bytes {
        [0, 0, 0, rest @ ..] => Some((None, rest)),
        [1, behind @ ..] => {
            let (format, rest) = read_half(behind)?;
            Some((Some(format), rest))
        }
        _ => None,
    }
}

/// Reads what stands after the kind of a datagram.
pub fn read_feed(bytes: &[u8]) -> Option<(Fed<'_>, &[u8])>
    // What is read is the datagram that the bytes spell.
    ensures some { IfSome result (λ p. bytes.now ≡ feed_bytes p.0.now.0 p.0.from p.0.bytes.now p.0.word ++ p.1.now) }
    // A datagram that was written is read.
    ensures none { IfNone result ((now word : ℕ) (from : EndpointSpec) (xs rest : List ℕ)
        → IsInput (Feed now from xs word) → bytes.now ≡ feed_bytes now from xs word ++ rest → ⊥) }
{
    let (now, behind) = read_number(bytes)?;
    let (word, behind) = read_number(behind)?;
    let (from, behind) = read_endpoint(behind)?;
    let (bytes, rest) = read_text(behind)?;
    let now = Moment(now);
    Some((
        Fed {
            now,
            word,
            from,
            bytes,
        },
        rest,
    ))
}

/// Reads what stands after the kind of a datagram whose request was to be refused: the code, and the datagram.
pub fn read_refuse(bytes: &[u8]) -> Option<(u8, Fed<'_>, &[u8])>
    // What is read is the code and the datagram that the bytes spell.
    ensures some { IfSome result (λ p. bytes.now
        ≡ refuse_bytes p.1.now.0 p.1.from p.1.bytes.now p.1.word p.0 ++ p.2.now) }
    // A datagram to be refused that was written is read.
    ensures none { IfNone result ((now word code : ℕ) (from : EndpointSpec) (xs rest : List ℕ)
        → IsInput (Refuse now from xs word code) → bytes.now ≡ refuse_bytes now from xs word code ++ rest → ⊥) }
{
    match bytes {
        [code, behind @ ..] => {
            let (fed, rest) = read_feed(behind)?;
            Some((*code, fed, rest))
        }
        [] => None,
    }
}

/// Reads what stands after the kind of a peer that is forgotten.
pub fn read_forget(bytes: &[u8]) -> Option<(Endpoint, &[u8])>
    // What is read is the endpoint that the bytes spell.
    ensures some { IfSome result (λ p. bytes.now ≡ endpoint_bytes p.0 ++ p.1.now) }
    // A peer that was written is read.
    ensures none { IfNone result ((peer : EndpointSpec) (rest : List ℕ) → IsInput (Forget peer)
        → bytes.now ≡ endpoint_bytes peer ++ rest → ⊥) }
{
    read_endpoint(bytes)
}

/// Reads what stands after the kind of a tick: its moment and its word.
pub fn read_tick(bytes: &[u8]) -> Option<(Moment, u64, &[u8])>
    // What is read is the tick that the bytes spell.
    ensures some { IfSome result (λ p. bytes.now ≡ tick_bytes p.0.0 p.1 ++ p.2.now) }
    // A tick that was written is read.
    ensures none { IfNone result ((now word : ℕ) (rest : List ℕ) → bytes.now ≡ tick_bytes now word ++ rest → ⊥) }
{
    let (now, behind) = read_number(bytes)?;
    let (word, rest) = read_number(behind)?;
    Some((Moment(now), word, rest))
}

// So many texts, as the segments of a path, and what is behind them.
fn read_texts<A: Allocator + Copy>(
    alloc: A,
    count: u8,
    bytes: &[u8],
) -> Result<(Path<A>, &[u8]), ReadError>
    ensures ok { IfOk result (λ p. (length p.0 ≡ count) × (bytes.now ≡ texts p.0 ++ p.1.now)) }
    ensures short { IfOk result (λ p. AreShort p.0) }
    ensures written { (path : List (List ℕ)) (rest : List ℕ) → IsSegments path → length path ≡ count
        → bytes.now ≡ texts path ++ rest → result ≡ Err Unreadable → ⊥ }
{
    let mut path = Path::new(alloc);
    let mut rest = bytes;
    for _ in 0..count {
        match read_text(rest) {
            Some((segment, behind)) => {
                match path.push(segment) {
                    Ok(()) => rest = behind,
                    Err(PathRefusal::Memory) => return Err(ReadError::Memory),
                    Err(PathRefusal::SegmentTooLong) => return Err(ReadError::Unreadable),
                    Err(PathRefusal::TooManySegments) => return Err(ReadError::Unreadable),
                }
            }
            None => return Err(ReadError::Unreadable),
        }
    }
    Ok((path, rest))
}

/// Reads a path.
pub fn read_path<A: Allocator + Copy>(alloc: A, bytes: &[u8]) -> Result<(Path<A>, &[u8]), ReadError>
    // What is read is the path that the bytes spell.
    ensures ok { IfOk result (λ p. bytes.now ≡ path_bytes p.0 ++ p.1.now) }
    // The length of each segment that is read is a number of 32 bits.
    ensures short { IfOk result (λ p. AreShort p.0) }
    // A path that was written is not unreadable.
    ensures written { (path : List (List ℕ)) (rest : List ℕ) → IsSegments path → bytes.now ≡ path_bytes path ++ rest
        → result ≡ Err Unreadable → ⊥ }
{
    match bytes {
        [count, rest @ ..] => read_texts(alloc, *count, rest),
        [] => Err(ReadError::Unreadable),
    }
}

/// Reads a number and a path, as stand after the kinds of a removal and of a delay.
pub fn read_numbered_path<A: Allocator + Copy>(
    alloc: A,
    bytes: &[u8],
) -> Result<(u64, Path<A>, &[u8]), ReadError>
    // What is read is the number and the path that the bytes spell.
    ensures ok { IfOk result (λ p. bytes.now ≡ (number p.0 ++ path_bytes p.1) ++ p.2.now) }
    // A number and a path that were written are not unreadable.
    ensures written { (n : ℕ) (path : List (List ℕ)) (rest : List ℕ) → IsSegments path
        → bytes.now ≡ (number n ++ path_bytes path) ++ rest → result ≡ Err Unreadable → ⊥ }
{
    match read_number(bytes) {
        Some((n, behind)) => match read_path(alloc, behind) {
            Ok((path, rest)) => Ok((n, path, rest)),
            Err(why) => Err(why),
        },
        None => Err(ReadError::Unreadable),
    }
}

/// Reads what stands after the kind of a local change.
pub fn read_set<A: Allocator + Copy>(
    alloc: A,
    bytes: &[u8],
) -> Result<(Moment, Option<u16>, Path<A>, &[u8], &[u8]), ReadError>
    // What is read is the change that the bytes spell.
    ensures ok { IfOk result (λ p. bytes.now ≡ set_bytes p.0.0 p.2 p.1 p.3.now ++ p.4.now) }
    // A change that was written is not unreadable.
    ensures written { (now : ℕ) (path : List (List ℕ)) (format : Option ℕ) (body rest : List ℕ)
        → IsInput (Set now path format body) → bytes.now ≡ set_bytes now path format body ++ rest
        → result ≡ Err Unreadable → ⊥ }
{
    match read_number(bytes) {
        Some((now, behind)) => read_change(alloc, Moment(now), behind),
        None => Err(ReadError::Unreadable),
    }
}

fn read_change<A: Allocator + Copy>(
    alloc: A,
    now: Moment,
    bytes: &[u8],
) -> Result<(Moment, Option<u16>, Path<A>, &[u8], &[u8]), ReadError>
    ensures ok { IfOk result (λ p. (p.0 ≡ now)
        × (bytes.now ≡ (format_bytes p.1 ++ (path_bytes p.2 ++ text p.3.now)) ++ p.4.now)) }
    ensures written { (path : List (List ℕ)) (format : Option ℕ) (body rest : List ℕ)
        → IsFormat format → IsSegments path → length body < 2 ^ 32
        → bytes.now ≡ (format_bytes format ++ (path_bytes path ++ text body)) ++ rest → result ≡ Err Unreadable → ⊥ }
{
    match read_format(bytes) {
        Some((format, behind)) => read_content(alloc, now, format, behind),
        None => Err(ReadError::Unreadable),
    }
}

fn read_content<A: Allocator + Copy>(
    alloc: A,
    now: Moment,
    format: Option<u16>,
    bytes: &[u8],
) -> Result<(Moment, Option<u16>, Path<A>, &[u8], &[u8]), ReadError>
    ensures ok { IfOk result (λ p. (p.0 ≡ now) × (p.1 ≡ format)
        × (bytes.now ≡ (path_bytes p.2 ++ text p.3.now) ++ p.4.now)) }
    ensures written { (path : List (List ℕ)) (body rest : List ℕ) → IsSegments path → length body < 2 ^ 32
        → bytes.now ≡ (path_bytes path ++ text body) ++ rest → result ≡ Err Unreadable → ⊥ }
{
    match read_path(alloc, bytes) {
        Ok((path, behind)) => match read_text(behind) {
            Some((body, rest)) => Ok((now, format, path, body, rest)),
            None => Err(ReadError::Unreadable),
        },
        Err(why) => Err(why),
    }
}

/// Reads what stands after the kind of a turn: its moment, how many datagrams were taken before its
/// inputs, and the bytes of these.
pub fn read_turn(bytes: &[u8]) -> Option<(Moment, u64, &[u8])>
    // What is read is the moment, the number and the inputs that the bytes spell.
    ensures some { IfSome result (λ p. bytes.now ≡ number p.0.0 ++ (number p.1 ++ p.2.now)) }
    // A turn that was written is read.
    ensures none { IfNone result ((moment n : ℕ) (rest : List ℕ) → bytes.now ≡ number moment ++ (number n ++ rest)
        → ⊥) }
{
    let (moment, behind) = read_number(bytes)?;
    let (taken, rest) = read_number(behind)?;
    Some((Moment(moment), taken, rest))
}
