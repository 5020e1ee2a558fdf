//! What is whole of a journal, and what follows that.
ghost use Rattle.std.specs.Prelude.{◌≡◌, ◌<◌, ◌^◌, ◌+◌, ◌++◌, ◌↔◌, ℕ, List, [], length, IfOk, IfErr};
ghost use Rattle.coap_journal.specs.Frames.{BeginsFrame, IsDamage, frames};
ghost use Rattle.coap_journal.specs.Input.{AreShort};
ghost use Rattle.coap_journal.specs.Whole.{IsWholeTo};

use crate::frame::{begins_head, read_frame};
use thiserror::Error;

/// What is whole of a journal.
#[derive(Clone, Copy, Debug, PartialEq, Eq)]
pub struct Whole {
    /// How many frames are.
    pub frames: u64,
    /// Where the last one ends.
    pub end: u64,
    /// How many bytes of a torn frame follow: 0 where none was torn.
    pub torn: u64,
}

/// Frames stand after one that isn't whole: the journal was changed, and is to be refused.
#[derive(Clone, Copy, Debug, PartialEq, Eq, Error)]
#[error("damaged at byte {at}, and further frames follow")]
pub struct Damage {
    /// Where the frames before it end.
    pub at: u64,
}

// What follows the last whole frame.
#[derive(Clone, Copy, Debug, PartialEq, Eq)]
enum Tail {
    Nothing,
    // The end of a file that was written to when it was cut off.
    Torn,
    // Further frames, or the lengths of some.
    Damaged,
}

// Which of the three stands at this place, where no frame begins.
fn tail_of(place: u64, bytes: &[u8]) -> Tail
    requires room { place + length bytes.now < 2 ^ 63 }
    ensures nothing { (result ≡ Tail.Nothing) ↔ (bytes.now ≡ []) }
    ensures damaged { (result ≡ Tail.Damaged) ↔ IsDamage place bytes.now }
{
    if bytes.is_empty() {
        return Tail::Nothing;
    }
    for n in 1..bytes.len() {
        if begins_head(place + n as u64, &bytes[n..]) {
            return Tail::Damaged;
        }
    }
    Tail::Torn
}

// How many frames are whole, where the last one ends, and what follows it.
fn whole_frames(bytes: &[u8]) -> (u64, u64, &[u8])
    requires room { length bytes.now < 2 ^ 63 }
    ensures whole { IsWholeTo 0 bytes.now result.0 result.1 result.2.now }
    ensures place { result.1 + length result.2.now ≡ length bytes.now }
{
    let mut frames = 0;
    let mut at = 0;
    let mut rest = bytes;
    while let Some((_, behind)) = read_frame(at, rest) {
        frames += 1;
        at += (rest.len() - behind.len()) as u64;
        rest = behind;
    }
    (frames, at, rest)
}

/// How much of a journal is whole. It changes nothing and hands in nothing.
pub fn scan(bytes: &[u8]) -> Result<Whole, Damage>
    requires room { length bytes.now < 2 ^ 63 }
    // A journal that isn't refused is whole frames and a tail with which no frame begins, and which isn't damage.
    ensures ok { IfOk result (λ w. (tail : List ℕ) × IsWholeTo 0 bytes.now w.frames w.end tail
        × (w.torn ≡ length tail) × (IsDamage w.end tail → ⊥)) }
    // A journal is refused only for damage, at the place where the whole frames before it end.
    ensures err { IfErr result (λ d. (count : ℕ) × (tail : List ℕ) × IsWholeTo 0 bytes.now count d.at tail
        × IsDamage d.at tail) }
{
    let (frames, end, rest) = whole_frames(bytes);
    match tail_of(end, rest) {
        Tail::Nothing | Tail::Torn => Ok(Whole {
            frames,
            end,
            torn: rest.len() as u64,
        }),
        Tail::Damaged => Err(Damage { at: end }),
    }
}
