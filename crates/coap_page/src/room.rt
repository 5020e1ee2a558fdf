//! A text, and the caller's room.
ghost use Rattle.std.specs.Prelude.{◌≡◌, ◌≢◌, ◌<◌, ◌↔◌, [], length};
ghost use Rattle.coap_page.specs.Endings.{Answers};
ghost use Rattle.coap_page.specs.declared.ended.Ended.TheVariants as endings;

use crate::ended::Ended;
use std::alloc::{AllocError, Allocator};
use std::io;

/// A text, and how what it tells of ended.
#[derive(Drop)]
pub(crate) struct Told<A: Allocator> {
    pub(crate) ended: Ended,
    pub(crate) text: Vec<u8, A>,
}

/// An allocation was refused.
#[derive(Clone, Copy, Debug, PartialEq, Eq)]
pub(crate) struct NoMemory;

impl From<AllocError> for NoMemory {
    fn from(_error: AllocError) -> NoMemory {
        NoMemory
    }
}

impl From<io::Error> for NoMemory {
    // What is written to memory fails for want of it.
    fn from(_error: io::Error) -> NoMemory {
        NoMemory
    }
}

/// Answers a text in the room: whole, or not at all.
pub(crate) fn answer(ended: Ended, text: &[u8], room: &mut [u8], used: &mut usize) -> Ended
    requires { ended ≢ endings.Small }
    ensures told { Answers ended text.now room.old room.new used.new result }
    ensures small { (result ≡ endings.Small) ↔ (length room.old < used.new) }
{
    *used = text.len();
    if room.len() < text.len() {
        return Ended::Small;
    }
    room[..text.len()].copy_from_slice(text);
    ended
}

/// Answers that there was no memory, without a text.
pub(crate) fn answer_no_memory(room: &mut [u8], used: &mut usize) -> Ended
    ensures told { Answers endings.Memory [] room.old room.new used.new result }
    ensures small { (result ≡ endings.Small) ↔ (length room.old < used.new) }
{
    answer(Ended::Memory, &[], room, used)
}
