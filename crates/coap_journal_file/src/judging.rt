//! What stands in the file of a journal.
ghost use Rattle.std.specs.Prelude.{◌≡◌, ◌<◌, ◌^◌, ℕ, List, true, false, IfErr, IfNone, IfOk, IfSome};
ghost use Rattle.coap_journal_file.specs.Judging.{AreAlike, IsBegun, IsFault, IsJudged, IsSetup, IsTornBeginning};
ghost use Rattle.coap_journal_file.specs.Judging.{IsTurn, IsUnbegun};

use coap_journal::{
    BeginError, Beginning, Damage, TURN, Whole, journal_law, read_begun, read_frame, read_turn,
    scan,
};
use thiserror::Error;

/// How many bytes the frame of a beginning has.
const BEGUN_FRAME_LEN: usize = 109;

// The first bytes of that frame: how many bytes it holds.
const BEGUN_FRONT: [u8; 4] = [0, 0, 0, 89];

const _: () = prove!(BEGUN_FRAME_LEN == 109);

/// A server began in this file.
#[derive(Clone, Copy, Debug)]
pub struct Began<'a> {
    /// How it began.
    pub beginning: Beginning,
    /// The inputs that it took before any other, where the second frame has some.
    pub setup: Option<&'a [u8]>,
    /// How much of the file is whole.
    pub whole: Whole,
}

/// What stands in the file of a journal.
#[derive(Clone, Copy, Debug)]
pub enum Judged<'a> {
    /// No server began: nothing stands there, or the front of a first frame, which was torn.
    Empty,
    /// A server began.
    Begun(Began<'a>),
}

/// Why a file is refused. It isn't touched.
#[derive(Clone, Copy, Debug, PartialEq, Eq, Error)]
pub enum FileError {
    /// A frame that isn't whole stands before others.
    #[error("{0}")]
    Damaged(Damage),
    /// It doesn't begin as a journal of this server does.
    #[error("{0}")]
    Unbegun(BeginError),
}

// Whether this is no more than the front of a first frame.
fn is_torn_beginning(bytes: &[u8]) -> bool
    ensures torn { result ≡ true → IsTornBeginning bytes.now }
    ensures other { result ≡ false → IsTornBeginning bytes.now → ⊥ }
{
    bytes.len() < BEGUN_FRAME_LEN && begins_alike(bytes)
}

// Whether the bytes are those of the front of a first frame, as far as both go.
fn begins_alike(bytes: &[u8]) -> bool
    ensures alike { result ≡ true → AreAlike bytes.now }
    ensures other { result ≡ false → AreAlike bytes.now → ⊥ }
{
    let len = bytes.len().min(BEGUN_FRONT.len());
    bytes[..len] == BEGUN_FRONT[..len]
}

// The inputs of a turn, of the bytes that a frame holds.
fn inputs_in(body: &[u8]) -> Option<&[u8]>
    ensures some { IfSome result (λ inputs. IsTurn body.now inputs.now) }
    ensures none { IfNone result ((inputs : List ℕ) → IsTurn body.now inputs → ⊥) }
{
    match body {
        [TURN, behind @ ..] => match read_turn(behind) {
            Some((_, _, inputs)) => Some(inputs),
            None => None,
        },
        _ => None,
    }
}

// The inputs of the frame that begins here, where it is a turn.
fn setup_in(place: u64, bytes: &[u8]) -> Option<&[u8]>
    requires room { place < 2 ^ 63 }
    ensures { IsSetup place bytes.now result }
{
    journal_law();
    match read_frame(place, bytes) {
        Some((body, _)) => inputs_in(body),
        None => None,
    }
}

// How the server of a whole file began.
fn began_in(bytes: &[u8], whole: Whole) -> Result<Began<'_>, BeginError>
    ensures ok { IfOk result (λ b. IsBegun bytes.now b.beginning b.setup × (b.whole ≡ whole)) }
    ensures err { IfErr result (IsUnbegun bytes.now) }
{
    journal_law();
    let Some((body, rest)) = read_frame(0, bytes) else {
        return Err(BeginError::Unreadable);
    };
    match read_begun(body) {
        Ok((beginning, _)) => {
            let place = (bytes.len() - rest.len()) as u64;
            let setup = setup_in(place, rest);
            Ok(Began {
                beginning,
                setup,
                whole,
            })
        }
        Err(why) => Err(why),
    }
}

/// What stands in the file of a journal, which has these bytes.
pub fn judge(bytes: &[u8]) -> Result<Judged<'_>, FileError>
    // A file is judged by what is whole of it: how its server began, and what that took first.
    ensures ok { IfOk result (IsJudged bytes.now) }
    // A file is refused for damage, or since no server began in it. The other format or law is told that its first
    // frame names.
    ensures err { IfErr result (IsFault bytes.now) }
{
    let whole = match scan(bytes) {
        Ok(whole) => whole,
        Err(damage) => return Err(FileError::Damaged(damage)),
    };
    if is_torn_beginning(bytes) {
        return Ok(Judged::Empty);
    }
    match began_in(bytes, whole) {
        Ok(began) => Ok(Judged::Begun(began)),
        Err(why) => Err(FileError::Unbegun(why)),
    }
}
