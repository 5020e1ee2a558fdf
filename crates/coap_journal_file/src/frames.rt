//! The first frames of a journal, and the frame of a further life.
ghost use Rattle.std.specs.Prelude.{◌≡◌, ◌≢◌, ◌<◌, ◌≤◌, ◌^◌, ◌∷◌, ◌++◌, IfOk, length};
ghost use Rattle.coap_journal.specs.Frames.{frame};
ghost use Rattle.coap_journal.specs.Numbers.{number};
ghost use Rattle.coap_journal.specs.Records.{Begun, Woke, record_bytes};
ghost use Rattle.coap_journal_file.specs.declared.frames.FrameError.TheVariants as refusals;

use coap_journal::{Beginning, Life, begun_bytes, frame_bytes, turn_bytes, woke_bytes};
use coap_types::Moment;
use std::alloc::{AllocError, Global};
use thiserror::Error;

/// How many bytes a frame holds at most.
const MAX_BODY_LEN: usize = 1 << 24;

// No frame begins at this place of a file or after it.
const PLACES_END: u64 = 1 << 62;

const _: () = prove!(MAX_BODY_LEN == 16_777_216 && PLACES_END == 4_611_686_018_427_387_904);

/// Why there is no frame.
#[derive(Clone, Copy, Debug, PartialEq, Eq, Error)]
pub enum FrameError {
    /// An allocation was refused.
    #[error("no memory for a frame of the journal")]
    Memory,
    /// It is too long, or stands too far on.
    #[error("the journal is full")]
    NoRoom,
}

impl From<AllocError> for FrameError {
    ghost use Rattle.std.specs.Prelude.{◌≡◌};
    ghost use Rattle.coap_journal_file.specs.declared.frames.FrameError.TheVariants.{Memory};

    ghost from_gives = { λ _ e. e ≡ Memory };

    fn from(_: AllocError) -> Self {
        FrameError::Memory
    }
}

// The frame of these bytes at this place.
fn framed(alloc: Global, place: u64, bytes: &[u8]) -> Result<Vec<u8>, FrameError>
    ensures ok { IfOk result (λ v. v.items ≡ frame place bytes.now) }
    ensures room { place < 2 ^ 62 → length bytes.now ≤ MAX_BODY_LEN → result ≢ Err refusals.NoRoom }
{
    if place >= PLACES_END || bytes.len() > MAX_BODY_LEN {
        return Err(FrameError::NoRoom);
    }
    Ok(frame_bytes(alloc, place, bytes)?)
}

/// The first frame of a file: how its server begins, and its first life.
pub fn begun_frame(alloc: Global, beginning: Beginning, life: Life) -> Result<Vec<u8>, FrameError>
    // The first frame says how the server begins, and its first life.
    ensures { IfOk result (λ v. v.items ≡ frame 0 (record_bytes (Begun beginning life))) }
{
    let bytes = begun_bytes(alloc, beginning, life)?;
    framed(alloc, 0, bytes.as_slice())
}

/// The second frame: the server takes these inputs before any other.
pub fn setup_frame(alloc: Global, place: u64, inputs: &[u8]) -> Result<Vec<u8>, FrameError>
    // The frame of a setup is a turn at the moment 0, before which no datagram was taken, with these inputs.
    ensures { IfOk result (λ v. v.items ≡ frame place (9 ∷ (number 0 ++ (number 0 ++ inputs.now)))) }
{
    let bytes = turn_bytes(alloc, Moment(0), 0, inputs)?;
    framed(alloc, place, bytes.as_slice())
}

/// The frame of a further life.
pub fn woke_frame(alloc: Global, place: u64, life: Life) -> Result<Vec<u8>, FrameError>
    // The frame of a further life says that life.
    ensures { IfOk result (λ v. v.items ≡ frame place (record_bytes (Woke life))) }
{
    let bytes = woke_bytes(alloc, life)?;
    framed(alloc, place, bytes.as_slice())
}
