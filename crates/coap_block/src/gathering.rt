//! The bytes of a body that has not come whole yet.
ghost use Rattle.std.specs.Prelude.{◌≡◌, ◌<◌, ◌≤◌, ◌+◌, ◌*◌, ◌++◌, [], IfOk, OnOk, OnErr, length, max, take, vec_len};
ghost use Rattle.std.specs.Prelude.{vec_capacity};

use bytes::Bytes;
use coap_types::{DEFAULT_BODY_LIMIT, appended};
use std::alloc::{AllocError, AllocFailed, Allocator};
use std::marker::Model;
use std::mem;

// So much more room as there are bytes is made for a body that grows, while all that is not over the usual limit of a
// body. From there on the room doubles.
const MORE: usize = 3;

const QUICK: usize = DEFAULT_BODY_LIMIT / (MORE + 1);

/// The bytes of a body as far as they came. They grow in place; where a body was given out of them,
/// they are its front, and share its memory. A contract sees the bytes.
#[derive(Drop)]
#[derive_where(Debug)]
pub(crate) struct Gathering<A: Allocator> {
    own: Vec<u8, A>,
    // In place of `own`: the front of the body that was given out.
    shared: Option<Bytes<A>>,
}

impl<A: Allocator> Model for Gathering<A> {
    ghost use Rattle.std.specs.Prelude.{ℕ, List};
    ghost use Rattle.coap_block.specs.InMemory.{bytes_in};

    ghost Value = { List ℕ };

    ghost view = { λ g. bytes_in g.own.items g.shared };
}

impl<A: Allocator + Copy> Gathering<A> {
    /// No bytes.
    pub(crate) fn new(alloc: A) -> Gathering<A>
        ensures { result ≡ [] }
    {
        Gathering {
            own: Vec::new(alloc),
            shared: None,
        }
    }

    /// Those of the first block.
    pub(crate) fn of(alloc: A, bytes: &[u8]) -> Result<Gathering<A>, AllocError>
        ensures { IfOk result (λ gathering. gathering ≡ bytes.now) }
    {
        Ok(Gathering {
            own: Vec::from_slice(alloc, bytes)?,
            shared: None,
        })
    }

    /// The bytes.
    pub(crate) fn as_slice(&self) -> &[u8]
        ensures { result.now ≡ self.now }
    {
        match &self.shared {
            Some(front) => front.as_slice(),
            None => self.own.as_slice(),
        }
    }

    /// Cuts them to the first `len`.
    pub(crate) fn truncate(&mut self, len: usize)
        ensures { self.new ≡ take len self.old }
    {
        match &mut self.shared {
            Some(front) => front.truncate(len),
            None => self.own.truncate(len),
        }
    }

    /// Puts bytes behind the first `len`, in place of what is there.
    #[inline(always)]
    pub(crate) fn put_at(&mut self, len: usize, more: &[u8]) -> Result<(), AllocError>
        requires { len ≤ length self.old }
        ensures ok { OnOk result (self.new ≡ take len self.old ++ more.now) }
        ensures bound { OnOk result (length self.new ≤ usize.MAX) }
        ensures err { OnErr result (self.new ≡ self.old) }
    {
        if let Some(front) = &self.shared {
            let mut own = Vec::from_slice(*self.own.allocator(), &front.as_slice()[..len])?;
            own.extend_from_slice(more)?;
            self.own = own;
            self.shared = None;
            return Ok(());
        }
        reserve(&mut self.own, more.len())?;
        self.own.truncate(len);
        let _room_was_reserved = self.own.extend_from_slice(more);
        Ok(())
    }

    /// The first `len` with the last bytes behind them, as one body. They stay as they were. Where no
    /// others are behind them, the body takes their memory over, and they share it.
    pub(crate) fn whole_at(&mut self, len: usize, last: &[u8]) -> Result<Bytes<A>, AllocError>
        requires { len ≤ length self.old }
        ensures whole { IfOk result (λ whole. whole ≡ take len self.old ++ last.now) }
        ensures same { self.new ≡ self.old }
    {
        if self.shared.is_none() && self.own.len() == len {
            let mut front = freeze(&mut self.own, last)?;
            let whole: Result<Bytes<A>, AllocError> = front.clone();
            front.truncate(len);
            self.shared = Some(front);
            return whole;
        }
        appended(*self.own.allocator(), &self.as_slice()[..len], last)
    }
}

// How much room is made where so many bytes are to be put behind so many: enough for them, and else at most `MORE`
// times as much as is there.
fn room_for(len: usize, more: usize) -> usize
    ensures enough { more ≤ result }
    ensures most { result ≤ max more (MORE * len) }
    ensures long { QUICK < len → result ≡ more }
{
    if len > QUICK {
        more
    } else {
        more.max(MORE * len)
    }
}

// Makes room for so many more bytes. A body that grows is copied where the allocator finds no room behind it, so there
// is to be room for the next ones too.
fn reserve<A: Allocator>(own: &mut Vec<u8, A>, more: usize) -> Result<(), AllocError>
    ensures items { own.new.items ≡ own.old.items }
    ensures room { OnOk result (vec_len own.new + more ≤ vec_capacity own.new) }
{
    let there = own.len();
    if own.capacity() - there < more {
        own.reserve(room_for(there, more))?;
    }
    Ok(())
}

// Bytes with the last ones behind them, in the memory that they had; where less than half of it is needed, the rest is
// given back, unless the allocator refuses to.
fn freeze<A: Allocator + Copy>(own: &mut Vec<u8, A>, last: &[u8]) -> Result<Bytes<A>, AllocError>
    ensures whole { IfOk result (λ whole. whole ≡ own.old.items ++ last.now) }
    ensures err { OnErr result (own.new.items ≡ own.old.items) }
{
    let alloc = *own.allocator();
    let len = own.len();
    own.extend_from_slice(last)?;
    if own.len() < own.capacity() / 2 {
        own.shrink_to_fit();
    }
    match Bytes::from_vec(mem::replace(own, Vec::new(alloc))) {
        Ok(whole) => Ok(whole),
        Err(AllocFailed { value }) => {
            *own = value;
            own.truncate(len);
            Err(AllocError)
        }
    }
}
