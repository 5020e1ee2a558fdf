//! The frames of a journal, for C. None of these calls needs a server.
ghost use Rattle.std.specs.Prelude.{◌≡◌, ◌⊎◌, ◌+◌, ◌-◌, ◌^◌, min, pos, length, IfErr, IfOk, OnOk};
ghost use Rattle.coap_journal.specs.Records.{Begun, Woke, record_bytes};
ghost use Rattle.coap_journal.specs.Waking.{IsSameBoot, same_boot_moment};
ghost use Rattle.coap_journal.specs.declared.beginning.Beginning.{Beginning as BeginningSpec};
ghost use Rattle.knifesilver.specs.Answers.{IsAnswered, IsRefused};
ghost use Rattle.knifesilver.specs.Configs.{SaysWrongOfServer, ServesWith};
ghost use Rattle.knifesilver.specs.Journals.{IsBeginning, IsFrameLong, IsFramed, IsNoFrame, life_of};

use crate::answers::{BAD_ARGUMENT, BAD_BASE, BAD_CHANGES, DONE, NO_MEMORY, SMALL_ROOM};
use crate::config::{KsConfig, choice_of};
use crate::crossing::copy_out;
use crate::seed::KsSeed;
use crate::server::made::changes_of;
use crate::server::replaying::KsReplayed;
use coap_journal::{
    Beginning, Boot, Configuration, Life, SILENCE_MS, Seed, Waking, begun_bytes, frame_bytes,
    go_on, woke_bytes,
};
use coap_resource::{MAX_CHANGES_PER_WINDOW, VersionBase};
use coap_types::Moment;
use std::alloc::Global;

// No frame begins at this place of a file or after it.
const PLACES_END: u64 = 1 << 62;

/// C's `ks_life`: a life of a server.
#[repr(C)]
#[derive(Clone, Copy)]
pub struct KsLife {
    /// The first 64 bits of the name of the machine's boot.
    pub boot_high: u64,
    /// The last 64 bits.
    pub boot_low: u64,
    /// How long the machine had been up, in milliseconds.
    pub uptime: u64,
    /// The moment of the server then.
    pub moment: u64,
}

/// The life that C hands in.
fn life_of(life: &KsLife) -> Life
    ensures { result ≡ life_of life.now }
{
    let boot = Boot {
        high: life.boot_high,
        low: life.boot_low,
    };
    Life {
        boot,
        uptime: life.uptime,
        moment: Moment(life.moment),
    }
}

/// .. and the one that it is handed.
pub(crate) fn told_life(life: Life) -> KsLife
    ensures { life_of result ≡ life }
{
    KsLife {
        boot_high: life.boot.high,
        boot_low: life.boot.low,
        uptime: life.uptime,
        moment: life.moment.0,
    }
}

// Writes the frame of these bytes, which is to stand at this place, to the front of the room.
fn put_frame(alloc: Global, place: u64, body: &[u8], room: &mut [u8], len: &mut usize) -> i32
    ensures framed { IsAnswered result → (result ≡ pos 1) × IsFramed place body.now room.new len.new }
    ensures small { result ≡ SMALL_ROOM → IsFrameLong place body.now (length room.old) len.new }
    ensures argument { result ≡ BAD_ARGUMENT → IsNoFrame place body.now }
    ensures why { IsRefused result → (result ≡ SMALL_ROOM) ⊎ (result ≡ BAD_ARGUMENT) ⊎ (result ≡ NO_MEMORY) }
{
    if place >= PLACES_END || body.len() > u32::MAX as usize {
        return BAD_ARGUMENT;
    }
    let Ok(framed) = frame_bytes(alloc, place, body) else {
        return NO_MEMORY;
    };
    *len = framed.len();
    if copy_out(room, framed.as_slice()) {
        DONE
    } else {
        SMALL_ROOM
    }
}

/// The frame of a turn, as `ks_server_noted` tells it, which is to stand at this place of the file.
#[unsafe(no_mangle)]
pub extern "C" fn ks_journal_frame(
    alloc: Global,
    place: u64,
    turn: &[u8],
    room: &mut [u8],
    len: &mut usize,
) -> i32
    // What is written is the frame of the turn at that place: its length and its bytes, each with its sum.
    ensures framed { IsAnswered result → (result ≡ pos 1) × IsFramed place turn.now room.new len.new }
    // Where the room is too small for a turn's frame, how long that is is told.
    ensures small { result ≡ SMALL_ROOM → IsFrameLong place turn.now (length room.old) len.new }
    // A frame is refused as an argument only for a place or a length that no frame has.
    ensures argument { result ≡ BAD_ARGUMENT → IsNoFrame place turn.now }
    // The frame of a turn is refused for the room, for an argument and for want of memory, and for nothing else.
    ensures why { IsRefused result → (result ≡ SMALL_ROOM) ⊎ (result ≡ BAD_ARGUMENT) ⊎ (result ≡ NO_MEMORY) }
{
    put_frame(alloc, place, turn, room, len)
}

/// The frame of a further life of a server, which is to stand at this place of the file.
#[unsafe(no_mangle)]
pub extern "C" fn ks_journal_wake(
    alloc: Global,
    place: u64,
    life: &KsLife,
    room: &mut [u8],
    len: &mut usize,
) -> i32
    // What is written is the frame of that further life at that place.
    ensures framed { IsAnswered result
        → (result ≡ pos 1) × IsFramed place (record_bytes (Woke (life_of life.now))) room.new len.new }
    // Where the room is too small for a life's frame, how long that is is told.
    ensures small { result ≡ SMALL_ROOM
        → IsFrameLong place (record_bytes (Woke (life_of life.now))) (length room.old) len.new }
    // The frame of a life is refused as an argument only for a place at which no frame stands.
    ensures argument { result ≡ BAD_ARGUMENT → IsNoFrame place (record_bytes (Woke (life_of life.now))) }
    // The frame of a life is refused for the room, for its place and for want of memory, and for nothing else.
    ensures why { IsRefused result → (result ≡ SMALL_ROOM) ⊎ (result ≡ BAD_ARGUMENT) ⊎ (result ≡ NO_MEMORY) }
{
    match woke_bytes(alloc, life_of(life)) {
        Ok(body) => put_frame(alloc, place, body.as_slice(), room, len),
        Err(_) => NO_MEMORY,
    }
}

// How a server begins with this configuration and this seed, or what is wrong with the configuration.
fn beginning_of(config: &KsConfig, seed: &KsSeed) -> Result<Beginning, i32>
    ensures begun { IfOk result (IsBeginning config.now seed.now) }
    ensures taken { OnOk result (ServesWith config.now) }
    ensures refused { IfErr result IsRefused }
    ensures why { IfErr result (SaysWrongOfServer config.now) }
{
    let choice = match choice_of(config) {
        Ok(choice) => choice,
        Err(answer) => return Err(answer),
    };
    let Some(base) = VersionBase::new(config.base) else {
        return Err(BAD_BASE);
    };
    if config.changes > MAX_CHANGES_PER_WINDOW {
        return Err(BAD_CHANGES);
    }
    let configuration = Configuration {
        szx: choice.szx,
        limit: choice.limit,
        remembered: choice.remembered,
        changes: changes_of(config.changes),
    };
    let seed = Seed {
        word: seed.word,
        key0: seed.key0,
        key1: seed.key1,
    };
    Ok(Beginning {
        configuration,
        seed,
        base: base.get(),
    })
}

/// The frame with which the file of a journal begins: the server of this configuration and this seed, and its
/// first life.
#[unsafe(no_mangle)]
pub extern "C" fn ks_journal_begin(
    alloc: Global,
    config: &KsConfig,
    seed: &KsSeed,
    life: &KsLife,
    room: &mut [u8],
    len: &mut usize,
) -> i32
    // What is written is the first frame of a journal, of the server with that configuration and that seed, and of
    // that life.
    ensures begun { IsAnswered result → (result ≡ pos 1) × (beginning : BeginningSpec)
        × IsBeginning config.now seed.now beginning
        × IsFramed 0 (record_bytes (Begun beginning (life_of life.now))) room.new len.new }
    // A journal is begun only with a configuration that can be taken.
    ensures taken { IsAnswered result → ServesWith config.now }
    // No journal is begun for what is wrong with the configuration, for the room, for a frame that is too long and
    // for want of memory, and for nothing else.
    ensures why { IsRefused result → SaysWrongOfServer config.now result
        ⊎ ((result ≡ SMALL_ROOM) ⊎ (result ≡ BAD_ARGUMENT) ⊎ (result ≡ NO_MEMORY)) }
{
    let beginning = match beginning_of(config, seed) {
        Ok(beginning) => beginning,
        Err(answer) => return answer,
    };
    match begun_bytes(alloc, beginning, life_of(life)) {
        Ok(body) => put_frame(alloc, 0, body.as_slice(), room, len),
        Err(_) => NO_MEMORY,
    }
}

/// For how many milliseconds a server is to be silent that was replayed, and its moment behind that, by the boot
/// and the uptime of a life that begins now; the moment in that life is not read.
#[unsafe(no_mangle)]
pub extern "C" fn ks_journal_go_on(replayed: &KsReplayed, now: &KsLife, moment: &mut u64) -> u64
    // In the same boot there is no silence, and the moment is that of the last life and what passed since, by the
    // uptime.
    ensures same { IsSameBoot (life_of replayed.now.life) (life_of now.now).boot now.now.uptime
        → (result ≡ 0)
        × (moment.new ≡ same_boot_moment (life_of replayed.now.life) replayed.now.moment now.now.uptime) }
    // In another boot there is a silence, and it alone is counted.
    ensures other { (IsSameBoot (life_of replayed.now.life) (life_of now.now).boot now.now.uptime → ⊥)
        → (result ≡ SILENCE_MS) × (moment.new ≡ min (replayed.now.moment + SILENCE_MS) (2 ^ 64 - 1)) }
{
    let last = life_of(&replayed.life);
    match go_on(last, Moment(replayed.moment), life_of(now).boot, now.uptime) {
        Waking::At(at) => {
            *moment = at.0;
            0
        }
        Waking::AfterSilence(at) => {
            *moment = at.0;
            SILENCE_MS
        }
    }
}
