//! The turns of a journal and their inputs, read as far as they name a path.

use coap_journal::{
    DELAY, FEED, FORGET, PLAIN, REFUSE, REMOVE, ReadError, SET, TICK, TURN, read_feed, read_forget,
    read_frame, read_numbered_path, read_path, read_refuse, read_set, read_tick, read_turn,
};
use coap_types::Path;
use std::alloc::{AllocError, Global};

/// What an input handed to a server, as far as a path can come to hold something by it.
#[derive(Drop)]
pub(crate) enum Handed<'a> {
    /// This datagram.
    Datagram(&'a [u8]),
    /// A body at this path.
    Body(Path),
    /// Nothing of that kind.
    Other,
}

/// What reads the turns of a journal.
pub(crate) trait ReadsTurns {
    /// A turn begins.
    fn turn(&mut self);

    /// An input of it.
    fn input(&mut self, input: Handed<'_>) -> Result<(), AllocError>;
}

// What is read where there is something, and that nothing is where there isn't.
fn read_or_none<T: Drop>(read: Result<T, ReadError>) -> Result<Option<T>, AllocError> {
    match read {
        Ok(found) => Ok(Some(found)),
        Err(ReadError::Memory) => Err(AllocError),
        Err(ReadError::Unreadable) => Ok(None),
    }
}

// A datagram, of the bytes behind its kind, and what follows it.
fn feed_in(bytes: &[u8]) -> Option<(Handed<'_>, &[u8])> {
    let (fed, rest) = read_feed(bytes)?;
    Some((Handed::Datagram(fed.bytes), rest))
}

// .. one whose request was refused, by which a path holds nothing.
fn refuse_in(bytes: &[u8]) -> Option<(Handed<'_>, &[u8])> {
    let (_, _, rest) = read_refuse(bytes)?;
    Some((Handed::Other, rest))
}

// .. a peer that was forgotten.
fn forget_in(bytes: &[u8]) -> Option<(Handed<'_>, &[u8])> {
    let (_, rest) = read_forget(bytes)?;
    Some((Handed::Other, rest))
}

// .. a tick.
fn tick_in(bytes: &[u8]) -> Option<(Handed<'_>, &[u8])> {
    let (_, _, rest) = read_tick(bytes)?;
    Some((Handed::Other, rest))
}

// .. a local change.
fn set_in(alloc: Global, bytes: &[u8]) -> Result<Option<(Handed<'_>, &[u8])>, AllocError> {
    match read_or_none(read_set(alloc, bytes))? {
        Some((_, _, path, _, rest)) => Ok(Some((Handed::Body(path), rest))),
        None => Ok(None),
    }
}

// .. a local removal or a delay, neither of which a path holds anything by.
fn numbered_in(alloc: Global, bytes: &[u8]) -> Result<Option<(Handed<'_>, &[u8])>, AllocError> {
    match read_or_none(read_numbered_path(alloc, bytes))? {
        Some((_, _, rest)) => Ok(Some((Handed::Other, rest))),
        None => Ok(None),
    }
}

// .. a plain path.
fn plain_in(alloc: Global, bytes: &[u8]) -> Result<Option<(Handed<'_>, &[u8])>, AllocError> {
    match read_or_none(read_path(alloc, bytes))? {
        Some((_, rest)) => Ok(Some((Handed::Other, rest))),
        None => Ok(None),
    }
}

// The first input that the bytes spell, and what follows it.
fn first_input(alloc: Global, bytes: &[u8]) -> Result<Option<(Handed<'_>, &[u8])>, AllocError> {
    match bytes {
        [FEED, rest @ ..] => Ok(feed_in(rest)),
        [TICK, rest @ ..] => Ok(tick_in(rest)),
        [SET, rest @ ..] => set_in(alloc, rest),
        [REMOVE, rest @ ..] => numbered_in(alloc, rest),
        [DELAY, rest @ ..] => numbered_in(alloc, rest),
        [PLAIN, rest @ ..] => plain_in(alloc, rest),
        [REFUSE, rest @ ..] => Ok(refuse_in(rest)),
        [FORGET, rest @ ..] => Ok(forget_in(rest)),
        _ => Ok(None),
    }
}

// Reads the inputs that the bytes spell.
fn read_inputs<V: ReadsTurns>(
    alloc: Global,
    bytes: &[u8],
    reader: &mut V,
) -> Result<(), AllocError> {
    let mut rest = bytes;
    // An input has one byte at least.
    for _input in 0..bytes.len() {
        match first_input(alloc, rest)? {
            Some((input, behind)) => {
                reader.input(input)?;
                rest = behind;
            }
            None => return Ok(()),
        }
    }
    Ok(())
}

// Reads a turn, of the bytes that a frame holds; another record has no input.
fn read_record<V: ReadsTurns>(
    alloc: Global,
    body: &[u8],
    reader: &mut V,
) -> Result<(), AllocError> {
    let [TURN, behind @ ..] = body else {
        return Ok(());
    };
    match read_turn(behind) {
        Some((_, _, inputs)) => {
            reader.turn();
            read_inputs(alloc, inputs, reader)
        }
        None => Ok(()),
    }
}

/// Reads the turns of the whole frames of a journal of these bytes, up to the first that is unreadable.
pub(crate) fn read_turns<V: ReadsTurns>(
    alloc: Global,
    bytes: &[u8],
    reader: &mut V,
) -> Result<(), AllocError> {
    let mut rest = bytes;
    // A frame has one byte at least.
    for _frame in 0..bytes.len() {
        let place = bytes.len().saturating_sub(rest.len());
        match read_frame(place as u64, rest) {
            Some((body, behind)) => {
                read_record(alloc, body, reader)?;
                rest = behind;
            }
            None => return Ok(()),
        }
    }
    Ok(())
}
