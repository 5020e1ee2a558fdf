//! The records of a journal, done again.
ghost use Rattle.std.specs.Prelude.{◌≡◌, ◌≢◌, ◌∷◌, ◌++◌, ◌<◌, ◌+◌, ◌^◌, [], List, ℕ, length, true, false, Err};
ghost use Rattle.std.specs.Prelude.{IfErr, IfOk, OnOk};
ghost use Rattle.coap_layer.specs.Trace.{Packet};
ghost use Rattle.coap_resource.specs.declared.refusal.StoreRefusal.TheVariants.{Memory};
ghost use Rattle.coap_server.specs.declared.server.delays.DelayRefusal.TheVariants as delay_refusals;
ghost use Rattle.coap_server.specs.declared.server.plain.PlainRefusal.TheVariants as plain_refusals;
ghost use Rattle.coap_server.specs.Object.Shown.{state_of};
ghost use Rattle.coap_journal.specs.Frames.{BeginsFrame, frames};
ghost use Rattle.coap_journal.specs.Input.{Delay, Feed, Input, Plain, Remove, Set, Tick, all_spelled, spelled};
ghost use Rattle.coap_journal.specs.Records.{Record, Turn, record_bytes};
ghost use Rattle.coap_journal.specs.Whole.{AreFrames};
ghost use Rattle.coap_replay.specs.Doing.{bodies};
ghost use Rattle.coap_replay.specs.declared.replay.ReplayError.TheVariants.{OtherServer, Unreadable};
ghost use Rattle.coap_replay.specs.Refusing.{GivesTooFew, IsNoInput, IsOfOther, IsUnreadable, StopsAt, StopsInside};
ghost use Rattle.coap_replay.specs.Replaying.{Does, GivesOut, Replays, Takes, TakesAll, Turned};
ghost use Rattle.coap_replay.specs.Replaying.{last_life, latest_moment};

use coap_journal::{
    DELAY, FEED, FORGET, Life, PLAIN, REFUSE, REMOVE, ReadError, SET, TICK, TURN, WOKE, read_feed,
    read_forget, read_frame, read_numbered_path, read_path, read_refuse, read_set, read_tick,
    read_turn, read_woke,
};
use coap_resource::{Store, StoreRefusal};
use coap_server::{DelayRefusal, ErrorCode, PlainRefusal, Server};
use coap_types::{Code, Moment};
use std::alloc::{AllocError, Allocator};
use std::hash::BuildHasher;
use thiserror::Error;

/// Why a journal is not replayed.
#[derive(Clone, Copy, Debug, PartialEq, Eq, Error)]
pub enum ReplayError {
    /// An allocation was refused.
    #[error("no memory to replay the journal")]
    Memory,
    /// A frame is whole, and what it holds is no record.
    #[error("a whole frame that holds no record")]
    Unreadable,
    /// More datagrams were taken than the server had to give.
    #[error("the journal is of another server")]
    OtherServer,
}

/// What a replay comes to.
#[derive(Clone, Copy, Debug, PartialEq, Eq)]
pub struct Replayed {
    /// Where the last whole frame ends.
    pub end: u64,
    /// The last life.
    pub life: Life,
    /// The latest moment that the journal tells.
    pub latest: Moment,
}

impl From<AllocError> for ReplayError {
    ghost use Rattle.std.specs.Prelude.{◌≡◌};
    ghost use Rattle.coap_replay.specs.declared.replay.ReplayError.TheVariants.{Memory};

    ghost from_gives = { λ _ e. e ≡ Memory };

    fn from(_: AllocError) -> Self {
        ReplayError::Memory
    }
}

impl From<ReadError> for ReplayError {
    ghost use Rattle.std.specs.Prelude.{◌≡◌};
    ghost use Rattle.coap_replay.specs.Refusing.{refusal_of};

    ghost from_gives = { λ why e. e ≡ refusal_of why };

    fn from(why: ReadError) -> Self {
        match why {
            ReadError::Memory => ReplayError::Memory,
            ReadError::Unreadable => ReplayError::Unreadable,
        }
    }
}

// A datagram.
fn replay_feed<'a, S: Store<A>, A: Allocator + Copy, H: BuildHasher>(
    server: &mut Server<S, A, H>,
    bytes: &'a [u8],
) -> Result<&'a [u8], ReplayError>
    ensures done { IfOk result (λ rest. (input : Input) × (FEED ∷ bytes.now ≡ spelled input ++ rest.now)
        × Takes (state_of S.content server.old) input (state_of S.content server.new)) }
    ensures same { IfErr result (λ why. why ≢ OtherServer) }
    ensures unread { IfErr result (λ why. why ≡ Unreadable
        → IsNoInput (state_of S.content server.old) (FEED ∷ bytes.now)) }
{
    match read_feed(bytes) {
        Some((fed, rest)) => {
            server.feed(fed.now, fed.from, fed.bytes, fed.word)?;
            Ok(rest)
        }
        None => Err(ReplayError::Unreadable),
    }
}

// A datagram whose request was refused: what brought none stands in the journal as one that was fed.
fn replay_refuse<'a, S: Store<A>, A: Allocator + Copy, H: BuildHasher>(
    server: &mut Server<S, A, H>,
    bytes: &'a [u8],
) -> Result<&'a [u8], ReplayError>
    ensures done { IfOk result (λ rest. (input : Input) × (REFUSE ∷ bytes.now ≡ spelled input ++ rest.now)
        × Takes (state_of S.content server.old) input (state_of S.content server.new)) }
    ensures same { IfErr result (λ why. why ≢ OtherServer) }
    ensures unread { IfErr result (λ why. why ≡ Unreadable
        → IsNoInput (state_of S.content server.old) (REFUSE ∷ bytes.now)) }
{
    let Some((number, fed, rest)) = read_refuse(bytes) else {
        return Err(ReplayError::Unreadable);
    };
    let Some(code) = ErrorCode::of(Code(number)) else {
        return Err(ReplayError::Unreadable);
    };
    let refused = server.refuse(fed.now, fed.from, fed.bytes, fed.word, code)?;
    if refused {
        Ok(rest)
    } else {
        Err(ReplayError::Unreadable)
    }
}

// What is of a peer that was forgotten: its Reset stands before it, as a datagram that was fed.
fn replay_forget<'a, S: Store<A>, A: Allocator + Copy, H: BuildHasher>(
    server: &mut Server<S, A, H>,
    bytes: &'a [u8],
) -> Result<&'a [u8], ReplayError>
    ensures done { IfOk result (λ rest. (input : Input) × (FORGET ∷ bytes.now ≡ spelled input ++ rest.now)
        × Takes (state_of S.content server.old) input (state_of S.content server.new)) }
    ensures same { IfErr result (λ why. why ≢ OtherServer) }
    ensures unread { IfErr result (λ why. why ≡ Unreadable
        → IsNoInput (state_of S.content server.old) (FORGET ∷ bytes.now)) }
{
    match read_forget(bytes) {
        Some((peer, rest)) => {
            server.let_go(peer);
            Ok(rest)
        }
        None => Err(ReplayError::Unreadable),
    }
}

// A tick.
fn replay_tick<'a, S: Store<A>, A: Allocator + Copy, H: BuildHasher>(
    server: &mut Server<S, A, H>,
    bytes: &'a [u8],
) -> Result<&'a [u8], ReplayError>
    ensures done { IfOk result (λ rest. (input : Input) × (TICK ∷ bytes.now ≡ spelled input ++ rest.now)
        × Takes (state_of S.content server.old) input (state_of S.content server.new)) }
    ensures same { IfErr result (λ why. why ≢ OtherServer) }
    ensures unread { IfErr result (λ why. why ≡ Unreadable
        → IsNoInput (state_of S.content server.old) (TICK ∷ bytes.now)) }
{
    match read_tick(bytes) {
        Some((now, word, rest)) => {
            server.tick(now, word)?;
            Ok(rest)
        }
        None => Err(ReplayError::Unreadable),
    }
}

// Whether it was memory that a local change lacked.
fn set_lacked(done: Result<u64, StoreRefusal>) -> bool
    ensures there { result ≡ false → done ≢ Err Memory }
    ensures lacked { result ≡ true → done ≡ Err Memory }
{
    match done {
        Err(StoreRefusal::Memory) => true,
        Err(StoreRefusal::TooLarge) => false,
        Err(StoreRefusal::TooManyPaths) => false,
        Err(StoreRefusal::RateExceeded) => false,
        Err(StoreRefusal::VersionsSpent) => false,
        Ok(_) => false,
    }
}

// .. a delay.
fn delay_lacked(done: Result<(), DelayRefusal>) -> bool
    ensures there { result ≡ false → done ≢ Err delay_refusals.Memory }
    ensures lacked { result ≡ true → done ≡ Err delay_refusals.Memory }
{
    match done {
        Err(DelayRefusal::Memory) => true,
        Err(DelayRefusal::Full) => false,
        Ok(()) => false,
    }
}

// .. a plain path.
fn plain_lacked(done: Result<(), PlainRefusal>) -> bool
    ensures there { result ≡ false → done ≢ Err plain_refusals.Memory }
    ensures lacked { result ≡ true → done ≡ Err plain_refusals.Memory }
{
    match done {
        Err(PlainRefusal::Memory) => true,
        Err(PlainRefusal::Full) => false,
        Ok(()) => false,
    }
}

// A local change, which may be refused as it was.
fn replay_set<'a, S: Store<A>, A: Allocator + Copy, H: BuildHasher>(
    server: &mut Server<S, A, H>,
    alloc: A,
    bytes: &'a [u8],
) -> Result<&'a [u8], ReplayError>
    ensures done { IfOk result (λ rest. (input : Input) × (SET ∷ bytes.now ≡ spelled input ++ rest.now)
        × Takes (state_of S.content server.old) input (state_of S.content server.new)) }
    ensures same { IfErr result (λ why. why ≢ OtherServer) }
    ensures unread { IfErr result (λ why. why ≡ Unreadable
        → IsNoInput (state_of S.content server.old) (SET ∷ bytes.now)) }
{
    let (now, format, path, body, rest) = read_set(alloc, bytes)?;
    let lacked = set_lacked(server.set(now, &path, format, body));
    if lacked {
        return Err(ReplayError::Memory);
    }
    Ok(rest)
}

// A local removal.
fn replay_remove<'a, S: Store<A>, A: Allocator + Copy, H: BuildHasher>(
    server: &mut Server<S, A, H>,
    alloc: A,
    bytes: &'a [u8],
) -> Result<&'a [u8], ReplayError>
    ensures done { IfOk result (λ rest. (input : Input) × (REMOVE ∷ bytes.now ≡ spelled input ++ rest.now)
        × Takes (state_of S.content server.old) input (state_of S.content server.new)) }
    ensures same { IfErr result (λ why. why ≢ OtherServer) }
    ensures unread { IfErr result (λ why. why ≡ Unreadable
        → IsNoInput (state_of S.content server.old) (REMOVE ∷ bytes.now)) }
{
    let (now, path, rest) = read_numbered_path(alloc, bytes)?;
    let _ = server.remove(Moment(now), &path);
    Ok(rest)
}

// A delay.
fn replay_delay<'a, S: Store<A>, A: Allocator + Copy, H: BuildHasher>(
    server: &mut Server<S, A, H>,
    alloc: A,
    bytes: &'a [u8],
) -> Result<&'a [u8], ReplayError>
    ensures done { IfOk result (λ rest. (input : Input) × (DELAY ∷ bytes.now ≡ spelled input ++ rest.now)
        × Takes (state_of S.content server.old) input (state_of S.content server.new)) }
    ensures same { IfErr result (λ why. why ≢ OtherServer) }
    ensures unread { IfErr result (λ why. why ≡ Unreadable
        → IsNoInput (state_of S.content server.old) (DELAY ∷ bytes.now)) }
{
    let (ms, path, rest) = read_numbered_path(alloc, bytes)?;
    let lacked = delay_lacked(server.set_delay(&path, ms));
    if lacked {
        return Err(ReplayError::Memory);
    }
    Ok(rest)
}

// A plain path.
fn replay_plain<'a, S: Store<A>, A: Allocator + Copy, H: BuildHasher>(
    server: &mut Server<S, A, H>,
    alloc: A,
    bytes: &'a [u8],
) -> Result<&'a [u8], ReplayError>
    ensures done { IfOk result (λ rest. (input : Input) × (PLAIN ∷ bytes.now ≡ spelled input ++ rest.now)
        × Takes (state_of S.content server.old) input (state_of S.content server.new)) }
    ensures same { IfErr result (λ why. why ≢ OtherServer) }
    ensures unread { IfErr result (λ why. why ≡ Unreadable
        → IsNoInput (state_of S.content server.old) (PLAIN ∷ bytes.now)) }
{
    let (path, rest) = read_path(alloc, bytes)?;
    let lacked = plain_lacked(server.set_plain(&path));
    if lacked {
        return Err(ReplayError::Memory);
    }
    Ok(rest)
}

// Hands in the first input that the bytes spell, and answers what follows it.
fn replay_input<'a, S: Store<A>, A: Allocator + Copy, H: BuildHasher>(
    server: &mut Server<S, A, H>,
    alloc: A,
    bytes: &'a [u8],
) -> Result<&'a [u8], ReplayError>
    ensures done { IfOk result (λ rest. (input : Input) × (bytes.now ≡ spelled input ++ rest.now)
        × Takes (state_of S.content server.old) input (state_of S.content server.new)) }
    ensures same { IfErr result (λ why. why ≢ OtherServer) }
    ensures unread { IfErr result (λ why. why ≡ Unreadable → IsNoInput (state_of S.content server.old) bytes.now) }
{
    match bytes {
        [FEED, rest @ ..] => replay_feed(server, rest),
        [TICK, rest @ ..] => replay_tick(server, rest),
        [SET, rest @ ..] => replay_set(server, alloc, rest),
        [REMOVE, rest @ ..] => replay_remove(server, alloc, rest),
        [DELAY, rest @ ..] => replay_delay(server, alloc, rest),
        [PLAIN, rest @ ..] => replay_plain(server, alloc, rest),
        [REFUSE, rest @ ..] => replay_refuse(server, rest),
        [FORGET, rest @ ..] => replay_forget(server, rest),
        _ => Err(ReplayError::Unreadable),
    }
}

// Takes so many datagrams, which were sent before, or lost.
fn take_out<S: Store<A>, A: Allocator + Copy, H: BuildHasher>(
    server: &mut Server<S, A, H>,
    count: u64,
) -> Result<(), ReplayError>
    ensures done { OnOk result ((out : List Packet) × (length out ≡ count)
        × GivesOut (state_of S.content server.old) out (state_of S.content server.new)) }
    ensures few { IfErr result (λ why. why ≡ OtherServer → GivesTooFew (state_of S.content server.old) count) }
    ensures read { IfErr result (λ why. why ≢ Unreadable) }
{
    for _ in 0..count {
        match server.next_out() {
            Some(_) => {}
            None => return Err(ReplayError::OtherServer),
        }
    }
    Ok(())
}

// Hands in the inputs that the bytes spell.
fn replay_inputs<S: Store<A>, A: Allocator + Copy, H: BuildHasher>(
    server: &mut Server<S, A, H>,
    alloc: A,
    bytes: &[u8],
) -> Result<(), ReplayError>
    ensures done { OnOk result ((inputs : List Input) × (bytes.now ≡ all_spelled inputs)
        × TakesAll (state_of S.content server.old) inputs (state_of S.content server.new)) }
    ensures same { IfErr result (λ why. why ≢ OtherServer) }
    ensures unread { IfErr result (λ why. why ≡ Unreadable → StopsInside (state_of S.content server.old) bytes.now) }
{
    let mut rest = bytes;
    while !rest.is_empty() {
        rest = replay_input(server, alloc, rest)?;
    }
    Ok(())
}

// Does a turn again, of the bytes that follow its kind; answers the life, and the moment of the turn.
fn replay_turn<S: Store<A>, A: Allocator + Copy, H: BuildHasher>(
    server: &mut Server<S, A, H>,
    alloc: A,
    bytes: &[u8],
    life: Life,
) -> Result<(Life, Moment), ReplayError>
    ensures done { IfOk result (λ p. (done : Record) × (out : List Packet) × (TURN ∷ bytes.now ≡ record_bytes done)
        × Does (state_of S.content server.old) done out (state_of S.content server.new)
        × (p.0 ≡ last_life life (done ∷ [])) × ((latest : ℕ) → p.1.0 ≡ latest_moment latest (done ∷ []))) }
    ensures other { IfErr result (λ why. why ≡ OtherServer
        → IsOfOther (state_of S.content server.old) (TURN ∷ bytes.now)) }
    ensures unread { IfErr result (λ why. why ≡ Unreadable
        → IsUnreadable (state_of S.content server.old) (TURN ∷ bytes.now)) }
{
    match read_turn(bytes) {
        Some((moment, taken, inputs)) => {
            take_out(server, taken)?;
            replay_inputs(server, alloc, inputs)?;
            Ok((life, moment))
        }
        None => Err(ReplayError::Unreadable),
    }
}

// Begins a further life, of the bytes that follow its kind; answers it and its moment.
fn replay_woke<S: Store<A>, A: Allocator + Copy, H: BuildHasher>(
    server: &Server<S, A, H>,
    bytes: &[u8],
    life: Life,
) -> Result<(Life, Moment), ReplayError>
    ensures done { IfOk result (λ p. (done : Record) × (out : List Packet) × (WOKE ∷ bytes.now ≡ record_bytes done)
        × Does (state_of S.content server.now) done out (state_of S.content server.now)
        × (p.0 ≡ last_life life (done ∷ [])) × ((latest : ℕ) → p.1.0 ≡ latest_moment latest (done ∷ []))) }
    ensures same { IfErr result (λ why. why ≢ OtherServer) }
    ensures unread { IfErr result (λ why. why ≡ Unreadable
        → IsUnreadable (state_of S.content server.now) (WOKE ∷ bytes.now)) }
{
    let _before = life;
    let _same = server;
    match read_woke(bytes) {
        Some(further) => Ok((further, further.moment)),
        None => Err(ReplayError::Unreadable),
    }
}

// Does a record again, and answers the last life and the latest moment after it.
fn replay_record<S: Store<A>, A: Allocator + Copy, H: BuildHasher>(
    server: &mut Server<S, A, H>,
    alloc: A,
    bytes: &[u8],
    life: Life,
) -> Result<(Life, Moment), ReplayError>
    ensures done { IfOk result (λ p. (done : Record) × (out : List Packet) × (bytes.now ≡ record_bytes done)
        × Does (state_of S.content server.old) done out (state_of S.content server.new)
        × (p.0 ≡ last_life life (done ∷ [])) × ((latest : ℕ) → p.1.0 ≡ latest_moment latest (done ∷ []))) }
    ensures other { IfErr result (λ why. why ≡ OtherServer → IsOfOther (state_of S.content server.old) (bytes.now)) }
    ensures unread { IfErr result (λ why. why ≡ Unreadable → IsUnreadable (state_of S.content server.old) bytes.now) }
{
    match bytes {
        [TURN, rest @ ..] => replay_turn(server, alloc, rest, life),
        [WOKE, rest @ ..] => replay_woke(server, rest, life),
        _ => Err(ReplayError::Unreadable),
    }
}

/// Does again what the frames hold that the bytes, which stand at this place of a journal, begin with;
/// the life is the one that the record before them tells. After an `Err` the server is not to be used.
pub fn replay_frames<'a, S: Store<A>, A: Allocator + Copy, H: BuildHasher>(
    server: &mut Server<S, A, H>,
    alloc: A,
    place: u64,
    bytes: &'a [u8],
    life: Life,
) -> Result<(Replayed, &'a [u8]), ReplayError>
    requires room { place + length bytes.now < 2 ^ 63 }
    // The bytes are the frames of some records and a rest, the server has done these records, and the life and the
    // moment that are told are their last.
    ensures records { IfOk result (λ end. (records : List Record) × (out : List Packet)
        × (bytes.now ≡ frames place (bodies records) ++ end.1.now)
        × Replays (state_of S.content server.old) records out (state_of S.content server.new)
        × (end.0.life ≡ last_life life records) × (end.0.latest.0 ≡ latest_moment life.moment.0 records)) }
    // OtherServer is the answer only where a turn follows before which more datagrams were taken than the server has.
    ensures other { IfErr result (λ why. why ≡ OtherServer
        → StopsAt IsOfOther place (state_of S.content server.old) bytes.now) }
    // Unreadable is the answer only where a frame follows that spells no turn and no further life, or a turn with
    // something among its inputs that the server can't take.
    ensures unreadable { IfErr result (λ why. why ≡ Unreadable
        → StopsAt IsUnreadable place (state_of S.content server.old) bytes.now) }
    // Of whole frames none is left.
    ensures all { IfOk result (λ end. AreFrames place bytes.now → end.1.now ≡ []) }
    // No frame begins with the rest.
    ensures whole { IfOk result (λ end. BeginsFrame end.0.end end.1.now → ⊥) }
    // The rest stands where the frames end.
    ensures place { IfOk result (λ end. end.0.end + length end.1.now ≡ place + length bytes.now) }
{
    let mut at = place;
    let mut rest = bytes;
    let mut last = life;
    let mut latest = life.moment;
    while let Some((body, behind)) = read_frame(at, rest) {
        let (further, moment) = replay_record(server, alloc, body, last)?;
        last = further;
        latest = moment;
        at += (rest.len() - behind.len()) as u64;
        rest = behind;
    }
    let replayed = Replayed {
        end: at,
        life: last,
        latest,
    };
    Ok((replayed, rest))
}
