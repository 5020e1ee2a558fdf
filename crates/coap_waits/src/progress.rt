//! How far a body is that goes or comes in blocks (RFC 7959).
ghost use Rattle.std.specs.Prelude.{◌≡◌, ◌+◌, is_some, option_copied, option_map, IfSome};
ghost use Rattle.coap_types.specs.OptionValues.{uint_at, value_of};
ghost use Rattle.coap_waits.specs.Progress.{block_at, blocks_of, is_fresh, is_in_blocks, len_after, told_in};
ghost use Rattle.coap_waits.specs.Progress.{told_of};

use coap_codec::{View, decode};
use coap_links::{Teller, Way};
use coap_types::option_number::{BLOCK1, BLOCK2, SIZE2};
use coap_types::{Block, Endpoint, Moment, Szx, uint_of};
use coap_wires::{Screen, Timekeeper};
use std::cell::RefCell;
use std::io::{ErrorKind, Write};
use std::{fmt, io};

/// For how long at least it is shown how far a body is, in milliseconds.
pub const SHOWN_MS: u64 = 200;

const _: () = prove!(SHOWN_MS == 200);

/// How far a body is: the number of the block that goes or comes, from 1, and of how many, where that is known.
#[derive(Clone, Copy, Debug, PartialEq, Eq)]
pub struct Progress {
    /// Whether the body goes or comes.
    pub way: Way,
    /// Which block goes or comes, from 1.
    pub block: u64,
    /// How many blocks the body has.
    pub of: Option<u64>,
}

impl fmt::Display for Progress {
    fn fmt<W: fmt::Write>(&self, f: &mut fmt::Formatter<W>) -> fmt::Result {
        let way = match self.way {
            Way::Goes => "sent",
            Way::Comes => "got",
        };
        let block = self.block;
        write!(f, "{way} block {block}")?;
        if let Some(of) = self.of {
            write!(f, " of {of}")?;
        }
        Ok(())
    }
}

// How many blocks of this size a body of so many bytes has.
fn blocks_of(len: u64, size: Szx) -> u64
    ensures { result ≡ blocks_of len size }
{
    let size = size.size() as u64;
    len / size + u64::from(len % size > 0)
}

// The same, where the length is known.
fn blocks_in(len: Option<u64>, size: Szx) -> Option<u64>
    ensures { result ≡ option_map (λ n. blocks_of n size) len }
{
    match len {
        Some(len) => Some(blocks_of(len, size)),
        None => None,
    }
}

// Whether a body has another block than the one of this number, where more follow or not.
fn is_in_blocks(num: u32, more: bool) -> bool
    ensures { result ≡ is_in_blocks num more }
{
    num > 0 || more
}

/// How far a body of so many bytes is, where this block of it goes or comes; None of a body that is one block.
pub fn progress_of(way: Way, block: Block, len: Option<u64>) -> Option<Progress>
    // Only a body of more than one block is told of.
    ensures told { is_some result ≡ is_in_blocks block.num block.more }
    // The first block, of NUM 0, is told of as the block 1 (RFC 7959, section 2.2).
    ensures block { IfSome result (λ progress. progress.block ≡ block.num + 1) }
    // Of how many blocks is told where the length is known, as so many blocks of that size hold it.
    ensures count { IfSome result (λ progress. progress.of ≡ option_map (λ n. blocks_of n block.szx) len) }
    // Whether the body goes or comes is told as it is.
    ensures way { IfSome result (λ progress. progress.way ≡ way) }
    // What is told of a block of a body is just that.
    ensures exact { result ≡ told_of way block len }
{
    let Block { num, more, szx } = block;
    let of = blocks_in(len, szx);
    if is_in_blocks(num, more) {
        Some(Progress {
            way,
            block: u64::from(num) + 1,
            of,
        })
    } else {
        None
    }
}

// The value of the first option with this number.
fn value_of<'a>(message: &View<'a>, number: u16) -> Option<&'a [u8]>
    ensures { option_copied result ≡ value_of number message.now.options }
{
    for option in message.options() {
        if option.number == number {
            return Some(option.value);
        }
    }
    None
}

// The block that a message says in the option with this number.
fn block_of(message: &View<'_>, number: u16) -> Option<Block>
    ensures { result ≡ block_at number message.now.options }
{
    Block::read(value_of(message, number)?)
}

/// The number that it says there.
pub(crate) fn number_of(message: &View<'_>, number: u16) -> Option<u64>
    ensures { result ≡ uint_at number message.now.options }
{
    Some(u64::from(uint_of(value_of(message, number)?)?))
}

/// Shows on a screen how far a body is that goes to a server or comes from it, not more often than each `SHOWN_MS`.
#[derive(Drop)]
pub struct ProgressTeller<'a, T, W> {
    time: T,
    screen: &'a RefCell<Screen<W>>,
    // The server.
    server: Endpoint,
    // How many bytes the body has that goes.
    sent_len: u64,
    // How many bytes the body has that comes, where the server said so (RFC 7959, section 4).
    got_len: Option<u64>,
    // When it was shown last.
    shown: Option<Moment>,
}

/// Who shows it by this clock, where that is wanted, of this server and of a body of so many bytes that goes there.
pub fn progress_on<'a, T: Timekeeper + Drop, W: Write>(
    time: T,
    screen: &'a RefCell<Screen<W>>,
    server: Endpoint,
    sent_len: u64,
    is_wanted: bool,
) -> Option<ProgressTeller<'a, T, W>>
    // How far a body is is shown exactly where that is wanted.
    ensures { is_some result ≡ is_wanted }
{
    if is_wanted {
        Some(ProgressTeller {
            time,
            screen,
            server,
            sent_len,
            got_len: None,
            shown: None,
        })
    } else {
        None
    }
}

impl<'a, T: Timekeeper, W: Write> ProgressTeller<'a, T, W> {
    // How far the body is of which a block goes or comes in this message.
    fn progress(&mut self, way: Way, message: &View<'_>) -> Option<Progress>
        ensures told { result ≡ told_in way self.old.sent_len message.now.options self.old.got_len }
        ensures len { self.new.got_len ≡ len_after way message.now.options self.old.got_len }
    {
        match way {
            Way::Goes => progress_of(way, block_of(message, BLOCK1)?, Some(self.sent_len)),
            Way::Comes => {
                let block = block_of(message, BLOCK2)?;
                if let Some(len) = number_of(message, SIZE2) {
                    self.got_len = Some(len);
                }
                progress_of(way, block, self.got_len)
            }
        }
    }

    // Whether something was shown just now.
    fn is_fresh(&self, now: Moment) -> bool
        ensures { result ≡ is_fresh self.now.shown now }
    {
        match self.shown {
            Some(shown) => now.since(shown) < SHOWN_MS,
            None => false,
        }
    }

    // Shows how far it is, where that wasn't shown just now.
    fn show(&mut self, progress: &Progress) -> io::Result<()> {
        let now = self.time.now()?;
        if self.is_fresh(now) {
            return Ok(());
        }
        self.shown = Some(now);
        match self.screen.try_borrow_mut() {
            Ok(mut screen) => screen.show(progress),
            Err(_) => Err(io::Error::from(ErrorKind::ResourceBusy)),
        }
    }
}

impl<'a, T: Timekeeper, W: Write> Teller for ProgressTeller<'a, T, W> {
    ghost use Rattle.std.specs.Prelude.{⊤};

    ghost tells = { λ _ _ _ _ _ _. ⊤ };

    fn tell(&mut self, way: Way, peer: Endpoint, bytes: &[u8]) -> io::Result<()> {
        if peer != self.server {
            return Ok(());
        }
        let Ok(message) = decode(bytes) else {
            return Ok(());
        };
        match self.progress(way, &message) {
            Some(progress) => self.show(&progress),
            None => Ok(()),
        }
    }
}
