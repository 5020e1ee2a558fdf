//! How the file of a journal begins.
ghost use Rattle.std.specs.Prelude.{◌≡◌, ◌≢◌, ◌≤◌, ◌<◌, ◌^◌, ◌+◌, ◌++◌, ◌∷◌, ℕ, List, [], length, IfErr, IfOk};
ghost use Rattle.coap_journal.specs.Frames.{BeginsFrame, IsDamage, frame};
ghost use Rattle.coap_journal.specs.Numbers.{short};
ghost use Rattle.coap_journal.specs.Records.{Begun, record_bytes};
ghost use Rattle.coap_journal.specs.Whole.{IsWholeTo};
ghost use Rattle.coap_noted.specs.Opening.{IsOpened, IsUnopened};

use coap_journal::{BeginError, Beginning, Life, Whole, read_begun, read_frame, scan};
use thiserror::Error;

// No file of a journal has so many bytes.
const FILE_END: usize = 1 << 62;

const _: () = prove!(FILE_END == 4_611_686_018_427_387_904);

/// How a journal begins, and the frames that follow.
#[derive(Clone, Copy, Debug, PartialEq, Eq)]
pub struct Opened<'a> {
    /// How its server began.
    pub beginning: Beginning,
    /// The first life.
    pub first: Life,
    /// Where the second frame stands, or would.
    pub place: u64,
    /// The whole frames from there on.
    pub further: &'a [u8],
    /// Where the last whole frame ends.
    pub end: u64,
    /// How many bytes of a torn frame follow.
    pub torn: u64,
}

/// Why a journal is not opened.
#[derive(Clone, Copy, Debug, PartialEq, Eq, Error)]
pub enum OpenError {
    /// Frames stand after one that isn't whole.
    #[error("damaged at byte {0}, and further frames follow")]
    Damaged(u64),
    /// No frame is whole.
    #[error("a journal that isn't begun")]
    NotBegun,
    /// It has another format.
    #[error("a journal of format {0}")]
    OtherFormat(u32),
    /// Its inputs are those of a server by another law.
    #[error("a journal of a server by law {0}")]
    OtherLaw(u32),
    /// Its first frame doesn't say how a server began, or it is longer than any file.
    #[error("a journal without a beginning")]
    Unreadable,
}

/// How the journal begins that these bytes are, and what is whole of it.
pub fn open(file: &[u8]) -> Result<Opened<'_>, OpenError>
    // A journal that is opened is the frame of a beginning and of a first life, further whole frames, and a torn rest.
    ensures opened { IfOk result (λ o. IsOpened file.now o.beginning o.first o.place o.further.now o.end o.torn) }
    // The place and the frames that follow are those of a file that a disk can hold.
    ensures room { IfOk result (λ o. o.place + length o.further.now < 2 ^ 63) }
    // Why a journal isn't opened: damage follows the whole frames, at the place where these end; no frame begins with
    // it; or its first frame names the other format or law, or spells no beginning.
    ensures err { IfErr result (IsUnopened file.now) }
{
    if file.len() >= FILE_END {
        return Err(OpenError::Unreadable);
    }
    match scan(file) {
        Ok(whole) => open_whole(file, whole),
        Err(damage) => Err(OpenError::Damaged(damage.at)),
    }
}

// .. where this much of it is whole.
fn open_whole(file: &[u8], whole: Whole) -> Result<Opened<'_>, OpenError>
    requires whole { (tail : List ℕ) × IsWholeTo 0 file.now whole.frames whole.end tail
        × (whole.torn ≡ length tail) × (IsDamage whole.end tail → ⊥) }
    ensures opened { IfOk result (λ o. IsOpened file.now o.beginning o.first o.place o.further.now o.end o.torn) }
    ensures place { IfOk result (λ o. o.place + length o.further.now ≤ length file.now) }
    ensures err { IfErr result (IsUnopened file.now) }
{
    if whole.frames == 0 {
        return Err(OpenError::NotBegun);
    }
    let (front, _torn) = file.split_at(whole.end as usize);
    let Some((body, further)) = read_frame(0, front) else {
        return Err(OpenError::Unreadable);
    };
    match read_begun(body) {
        Ok((beginning, first)) => Ok(Opened {
            beginning,
            first,
            place: (front.len() - further.len()) as u64,
            further,
            end: whole.end,
            torn: whole.torn,
        }),
        Err(BeginError::OtherFormat(number)) => Err(OpenError::OtherFormat(number)),
        Err(BeginError::OtherLaw(number)) => Err(OpenError::OtherLaw(number)),
        Err(BeginError::Unreadable) => Err(OpenError::Unreadable),
    }
}
