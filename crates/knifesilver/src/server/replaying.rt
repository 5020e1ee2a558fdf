//! A server that is replayed from its journal, and what it took since.
ghost use Rattle.std.specs.Prelude.{◌≡◌, ◌≢◌, ◌⊎◌, ◌<◌, ◌+◌, ◌^◌, ◌↔◌, ℕ, List, [], pos, length, Some, IfErr};
ghost use Rattle.std.specs.Prelude.{IfNone, IfOk, IfSome};
ghost use Rattle.coap_layer.specs.Trace.{Packet};
ghost use Rattle.coap_resource.specs.Entries.{content_of};
ghost use Rattle.coap_server.specs.Led.{Led, State};
ghost use Rattle.coap_server.specs.Object.Shown.{state_of};
ghost use Rattle.coap_journal.specs.Frames.{BeginsFrame, frames};
ghost use Rattle.coap_journal.specs.Records.{Record};
ghost use Rattle.coap_replay.specs.Doing.{bodies};
ghost use Rattle.coap_replay.specs.Refusing.{IsOfOther, IsUnreplayed, StopsAt};
ghost use Rattle.coap_replay.specs.Replaying.{Replays, last_life, latest_moment};
ghost use Rattle.coap_noted.specs.Notes.{begun_anew, told_in};
ghost use Rattle.coap_noted.specs.Opening.{IsDamagedAt, IsUnopened};
ghost use Rattle.coap_noted.specs.declared.opening.OpenError.TheVariants as refusals;
ghost use Rattle.coap_replay.specs.declared.replay.ReplayError.TheVariants as replay;
ghost use Rattle.knifesilver.specs.Answers.{IsAnswered, IsRefused, IsUsual};
ghost use Rattle.knifesilver.specs.Journals.{HoldSameServer, IsNoOpening, IsNoServers, IsReplayed, IsTurnLong};
ghost use Rattle.knifesilver.specs.Journals.{IsUnreadableFile, NotedAnswers, StopsReplay};
ghost use Rattle.knifesilver.specs.Journals.{life_of, limits_of, opening_number, setup_of};
ghost use Rattle.knifesilver.specs.ServerHeld.{HoldsServer, IsServer, notes_in};

use crate::answers::{DONE, NO_MEMORY, NOT_LIVE, NOTHING, SMALL_ROOM};
use crate::crossing::copy_out;
use crate::handle::KsHandle;
use crate::held::{Held, MapServer, OurServer};
use crate::journal::{KsLife, told_life};
use crate::numbers::{
    JOURNAL_DAMAGED, JOURNAL_NOT_BEGUN, JOURNAL_OTHER_FORMAT, JOURNAL_OTHER_LAW,
    JOURNAL_OTHER_SERVER, JOURNAL_UNREADABLE,
};
use crate::seed::SeededHash;
use coap_journal::Beginning;
use coap_layer::Setup;
use coap_noted::{OpenError, Opened, open, replay};
use coap_replay::ReplayError;
use coap_resource::{MapStore, Store, VersionBase};
use std::alloc::Global;

/// C's `ks_replayed`: what a replay comes to.
#[repr(C)]
#[derive(Clone, Copy)]
pub struct KsReplayed {
    /// Where the last whole frame ends.
    pub end: u64,
    /// How many bytes of a torn frame follow.
    pub torn: u64,
    /// The latest moment that the journal tells.
    pub moment: u64,
    /// The last life.
    pub life: KsLife,
}

// The server of a beginning, to which nothing has happened; None where no server begins so.
fn begun_server(alloc: Global, beginning: &Beginning) -> Option<MapServer>
    ensures begins { IfSome result (λ server. Led (limits_of beginning.now) beginning.now.configuration.szx
        (setup_of beginning.now) [] (state_of content_of server)) }
    ensures none { IfNone result (IsNoServers beginning.now) }
{
    let configuration = beginning.configuration;
    let Some(base) = VersionBase::new(beginning.base) else {
        return None;
    };
    let Some(store) = MapStore::new_after(alloc, configuration.changes, configuration.limit, base)
    else {
        return None;
    };
    let setup = Setup {
        word: beginning.seed.word,
        remembered: configuration.remembered,
    };
    let hash = SeededHash {
        key0: beginning.seed.key0,
        key1: beginning.seed.key1,
    };
    Some(MapServer::with_setup(alloc, store, configuration.szx, setup, hash))
}

// What a journal answers that isn't opened, and where the frames before the damage end.
fn unopened(why: OpenError, told: &mut KsReplayed) -> i32
    ensures damaged { result ≡ pos 145 → why ≡ refusals.Damaged told.new.end }
    ensures number { result ≡ pos (opening_number why) }
    ensures answered { IsRefused result → ⊥ }
    ensures more { result ≢ pos 0 }
{
    match why {
        OpenError::Damaged(at) => {
            told.end = at;
            JOURNAL_DAMAGED
        }
        OpenError::NotBegun => JOURNAL_NOT_BEGUN,
        OpenError::OtherFormat(_) => JOURNAL_OTHER_FORMAT,
        OpenError::OtherLaw(_) => JOURNAL_OTHER_LAW,
        OpenError::Unreadable => JOURNAL_UNREADABLE,
    }
}

// What one answers that isn't replayed.
fn unreplayed(why: ReplayError) -> i32
    ensures memory { IsRefused result → result ≡ NO_MEMORY }
    ensures none { why ≡ replay.Memory → result ≡ NO_MEMORY }
    ensures unreadable { (why ≡ replay.Unreadable) ↔ (result ≡ pos 149) }
    ensures other { (why ≡ replay.OtherServer) ↔ (result ≡ pos 150) }
    ensures more { IsNoOpening result }
{
    match why {
        ReplayError::Memory => NO_MEMORY,
        ReplayError::Unreadable => JOURNAL_UNREADABLE,
        ReplayError::OtherServer => JOURNAL_OTHER_SERVER,
    }
}

// The server that did what the journal holds.
fn replayed(alloc: Global, opened: &Opened<'_>, told: &mut KsReplayed) -> Result<OurServer, i32>
    requires room { opened.now.place + length opened.now.further.now < 2 ^ 63 }
    ensures done { IfOk result (λ s. (records : List Record) × (out : List Packet) × (start : State)
        × (opened.now.further.now ≡ frames opened.now.place (bodies records))
        × Led (limits_of opened.now.beginning) opened.now.beginning.configuration.szx (setup_of opened.now.beginning) []
        start × Replays start records out (state_of content_of s.server)
        × (life_of told.new.life ≡ last_life opened.now.first records)
        × (told.new.moment ≡ latest_moment opened.now.first.moment.0 records)) }
    ensures notes { IfOk result (λ s. s.notes ≡ Some (record { moment = told.new.moment; taken = 0; inputs = [] })) }
    ensures end { IfOk result (λ _. (told.new.end ≡ opened.now.end) × (told.new.torn ≡ opened.now.torn)) }
    ensures unread { IfErr result (λ answer. answer ≡ pos 149 → IsNoServers opened.now.beginning
        ⊎ ((start : State) × Led (limits_of opened.now.beginning) opened.now.beginning.configuration.szx
        (setup_of opened.now.beginning) [] start × IsUnreplayed opened.now.place start opened.now.further.now)) }
    ensures other { IfErr result (λ answer. answer ≡ pos 150 → (start : State)
        × Led (limits_of opened.now.beginning) opened.now.beginning.configuration.szx (setup_of opened.now.beginning) []
        start × StopsAt IsOfOther opened.now.place start opened.now.further.now) }
    ensures more { IfErr result IsNoOpening }
    ensures memory { IfErr result (λ answer. IsRefused answer → answer ≡ NO_MEMORY) }
{
    let Some(server) = begun_server(alloc, &opened.beginning) else {
        return Err(JOURNAL_UNREADABLE);
    };
    match replay(alloc, server, opened) {
        Ok((server, done)) => {
            *told = KsReplayed {
                end: opened.end,
                torn: opened.torn,
                moment: done.latest.0,
                life: told_life(done.life),
            };
            Ok(server)
        }
        Err(why) => Err(unreplayed(why)),
    }
}

/// Makes the server that ran, from the file of its journal; what the handle held is freed. It notes what it takes.
#[unsafe(no_mangle)]
pub extern "C" fn ks_server_replay(
    alloc: Global,
    handle: &mut KsHandle,
    file: &[u8],
    told: &mut KsReplayed,
) -> i32
    // A server that is replayed began as its journal says and did the records of its whole frames; it keeps notes
    // from then on.
    ensures made { result ≡ pos 0 → IsReplayed file.now told.new handle.new.held }
    // Where no server is replayed, the handle holds what it held.
    ensures kept { (result ≡ pos 0 → ⊥) → handle.new.held ≡ handle.old.held }
    // Damage of a journal is answered only where it follows the whole frames, and its place is told.
    ensures damaged { result ≡ pos 145 → IsDamagedAt file.now told.new.end }
    // That a journal isn't begun is answered only where no frame begins with the file.
    ensures bare { result ≡ pos 146 → BeginsFrame 0 file.now → ⊥ }
    // A replayed journal is of another format only where its first frame names that.
    ensures format { result ≡ pos 147 → (n : ℕ) × IsUnopened file.now (refusals.OtherFormat n) }
    // It is of another law only where its first frame, in this format, names that.
    ensures law { result ≡ pos 148 → (n : ℕ) × IsUnopened file.now (refusals.OtherLaw n) }
    // It is unreadable only where its first frame spells no beginning, or none that a server has, or a frame behind
    // that holds nothing that the server can do.
    ensures unreadable { result ≡ pos 149 → IsUnreadableFile file.now }
    // It is of another server only where that stops at a turn before which more datagrams were taken than it has.
    ensures other { result ≡ pos 150 → StopsReplay IsOfOther file.now }
    // A replay is refused below 0 for want of memory, and for nothing else.
    ensures why { IsRefused result → result ≡ NO_MEMORY }
{
    let opened = match open(file) {
        Ok(opened) => opened,
        Err(why) => return unopened(why, told),
    };
    let server = match replayed(alloc, &opened, told) {
        Ok(server) => server,
        Err(answer) => return answer,
    };
    match Box::new(alloc, Held::Server(server)) {
        Ok(held) => {
            let _before = handle.take(alloc);
            handle.put(held);
            NOTHING
        }
        Err(_) => NO_MEMORY,
    }
}

// What a server took since that was asked last.
fn noted_by(server: &mut OurServer, room: &mut [u8], len: &mut usize) -> i32
    ensures told { IsAnswered result → NotedAnswers result room.new len.new (told_in server.old.notes) }
    ensures anew { result ≡ pos 1 → server.new.notes ≡ begun_anew server.old.notes }
    ensures same { server.new.server ≡ server.old.server }
    ensures kept { (result ≡ pos 1 → ⊥) → server.new ≡ server.old }
    ensures long { result ≡ SMALL_ROOM → IsTurnLong (length room.old) len.new (told_in server.old.notes) }
    ensures live { result ≢ NOT_LIVE }
    ensures why { IsRefused result → (result ≡ SMALL_ROOM) ⊎ (result ≡ NO_MEMORY) }
{
    match server.noted() {
        Ok(Some(turn)) => {
            *len = turn.len();
            if copy_out(room, turn.as_slice()) {
                server.begin_anew();
                DONE
            } else {
                SMALL_ROOM
            }
        }
        Ok(None) => NOTHING,
        Err(_) => NO_MEMORY,
    }
}

// .. what is held.
fn noted(held: &mut Held, room: &mut [u8], len: &mut usize) -> i32
    ensures told { IsAnswered result → NotedAnswers result room.new len.new (told_in (notes_in (Some held.old))) }
    ensures anew { result ≡ pos 1 → notes_in (Some held.new) ≡ begun_anew (notes_in (Some held.old)) }
    ensures same { HoldSameServer (Some held.old) (Some held.new) }
    ensures kept { (result ≡ pos 1 → ⊥) → held.new ≡ held.old }
    ensures long { result ≡ SMALL_ROOM → IsTurnLong (length room.old) len.new (told_in (notes_in (Some held.old))) }
    ensures live { IsServer held.old → result ≢ NOT_LIVE }
    ensures why { IsRefused result → (result ≡ SMALL_ROOM) ⊎ IsUsual result }
{
    match held {
        Held::Server(server) => noted_by(server, room, len),
        Held::Client(_) | Held::Names(_) => NOT_LIVE,
    }
}

/// What the server took since that was asked last, as a turn for `ks_journal_frame`: 1, or 0 where it took
/// nothing or keeps no notes.
#[unsafe(no_mangle)]
pub extern "C" fn ks_server_noted(
    alloc: Global,
    handle: &mut KsHandle,
    room: &mut [u8],
    len: &mut usize,
) -> i32
    // What is told is the turn of all that was noted since it was told last: the latest moment, how many datagrams were
    // given out before, and the inputs, each spelled.
    ensures told { IsAnswered result → NotedAnswers result room.new len.new (told_in (notes_in handle.old.held)) }
    // What was told is noted no longer.
    ensures anew { result ≡ pos 1 → notes_in handle.new.held ≡ begun_anew (notes_in handle.old.held) }
    // To ask what was taken leaves the server in the handle as it is.
    ensures same { HoldSameServer handle.old.held handle.new.held }
    // Where nothing is told, nothing that is noted is lost.
    ensures kept { (result ≡ pos 1 → ⊥) → handle.new.held ≡ handle.old.held }
    // Where the room is too small for a turn, how long that is is told.
    ensures long { result ≡ SMALL_ROOM → IsTurnLong (length room.old) len.new (told_in (notes_in handle.old.held)) }
    // `noted` never says of a handle with a server that it holds none.
    ensures live { HoldsServer handle.old.held → result ≢ NOT_LIVE }
    // To ask what was taken is refused for the room, for want of memory or of a server in the handle, and for
    // nothing else.
    ensures why { IsRefused result → (result ≡ SMALL_ROOM) ⊎ IsUsual result }
{
    let Some(mut held) = handle.take(alloc) else {
        return NOT_LIVE;
    };
    let answer = noted(held.as_mut(), room, len);
    handle.put(held);
    answer
}
