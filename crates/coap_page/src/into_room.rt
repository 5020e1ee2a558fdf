//! Runs, and datagrams, printed to the caller's room.
ghost use Rattle.std.specs.Prelude.{◌≡◌, ◌<◌, ◌↔◌, length};
ghost use Rattle.coap_page.specs.Endings.{AnswersOne};
ghost use Rattle.coap_page.specs.Runs.{IsTold};
ghost use Rattle.coap_page.specs.Shows.{IsShown};
ghost use Rattle.coap_page.specs.declared.ended.Ended.TheVariants as endings;

use crate::ended::Ended;
use crate::room::{answer, answer_no_memory};
use crate::shown::datagram_told;
use crate::telling::script_told;
use std::alloc::Allocator;

/// How what comes of a run is printed.
#[derive(Clone, Copy, Debug, PartialEq, Eq)]
pub enum Printing {
    /// A line for each datagram, report and refusal.
    Lines,
    /// A chart, for reading.
    Chart,
    /// A line for all that happens, for a picture.
    All,
}

/// Runs a script between ends that begin as those of `coap sim` do, where these paths are plain, a line each, and
/// prints what comes of it to the room. How long that text is comes in `used`.
#[tactic(auto, using(crate::proofs::NeverSmall::told_never_small))]
pub fn sim_into<A: Allocator + Copy>(
    alloc: A,
    script: &[u8],
    plains: &[u8],
    printing: Printing,
    room: &mut [u8],
    used: &mut usize,
) -> Ended
    // The text in the room is whole: where the script's own events, with these plain paths, are legal they ran to their
    // end, and else it names the first event that is not legal, or the first line that says none.
    ensures told { AnswersOne (IsTold script.now plains.now) room.old room.new used.new result }
    // A run has too small a room exactly where its text is longer.
    ensures small { (result ≡ endings.Small) ↔ (length room.old < used.new) }
{
    match script_told(alloc, script, plains, printing) {
        Ok(told) => answer(told.ended, told.text.as_slice(), room, used),
        Err(_) => answer_no_memory(room, used),
    }
}

/// Prints what a datagram says to the room, as `coap show` does. How long that text is comes in `used`.
#[tactic(auto, using(crate::proofs::NeverSmall::shown_never_small))]
pub fn show_into<A: Allocator + Copy>(
    alloc: A,
    datagram: &[u8],
    room: &mut [u8],
    used: &mut usize,
) -> Ended
    // The text in the room is whole, and it is of a message exactly where the datagram spells one.
    ensures told { AnswersOne (IsShown datagram.now) room.old room.new used.new result }
    // A datagram has too small a room exactly where its text is longer.
    ensures small { (result ≡ endings.Small) ↔ (length room.old < used.new) }
{
    match datagram_told(alloc, datagram) {
        Ok(told) => answer(told.ended, told.text.as_slice(), room, used),
        Err(_) => answer_no_memory(room, used),
    }
}
