//! Which observer is notified next, and of what (RFC 7641, sections 4.2, 4.4 and 4.5).
ghost use Rattle.std.specs.Prelude.{◌≡◌, ◌≤◌, ℕ, Option, true, false, None, is_some, IfOk, IfSome, IsOk, OnErr, OnOk};
ghost use Rattle.std.specs.Option.{option_map};
ghost use Rattle.coap_observe.specs.Notices.{but_noted, told, told_due};
ghost use Rattle.coap_observe.specs.Observers.{Observer};
ghost use Rattle.coap_resource.specs.Content.{Held};
ghost use Rattle.coap_exchange.specs.declared.answerer.Due.TheVariants as dues;
ghost use Rattle.coap_exchange.specs.AnswererLaw.{Exchanged, Step};
ghost use Rattle.coap_exchange.specs.Machine.AnswererShown.{MayNotify};
ghost use Rattle.coap_server.specs.Asks.{notifies_by};
ghost use Rattle.coap_server.specs.Notifying as next;
ghost use Rattle.coap_server.specs.Notifying.{behind, marked, notified, readies};
ghost use Rattle.coap_server.specs.Object.Shown.{kept_of, seen};
ghost use Rattle.coap_server.specs.Plain.{goes_plain};
ghost use Rattle.coap_server.specs.Turns.Idle.{takes_notice};
ghost use Rattle.coap_server.specs.Turns.Turned.{IsTurned};

use crate::server::full_response::FullResponse;
use crate::server::observation::sequence_of;
use crate::server::parts::Parts;
use crate::server::plain::is_plain;
use crate::{CON_NOTIFICATION_MS, MAX_PLAIN_AGE_MS};
use coap_exchange::Answerer;
use coap_observe::{Notice, Observers};
use coap_resource::{Store, lent};
use coap_types::{Endpoint, Id, Moment, Path, Token};
use std::alloc::{AllocError, Allocator};
use std::hash::BuildHasher;

// The first observer, in order of registration, to which a notification is due and can be sent now:
// those to whose endpoint a Confirmable message is outstanding are passed over. After an `Err` the
// exchanges can be taken back.
fn first_ready<'o, A: Allocator + Copy, H: BuildHasher>(
    exchanges: &mut Answerer<A, H>,
    observers: &'o Observers<A>,
    at: Moment,
) -> Result<Option<Notice<'o, A>>, AllocError>
    ensures found { IfOk result (λ found. (passed : ℕ)
        × (told_due found ≡ option_map but_noted (behind passed (marked observers.now.list)))
        × Exchanged exchanges.old.state (readies at.0 passed (marked observers.now.list)) exchanges.new.state) }
    ensures may { IfOk result (λ found. IfSome found (λ notice. MayNotify exchanges.new at.0 notice.to)) }
    ensures before { exchanges.new.before ≡ exchanges.old.before }
    ensures none { takes_notice exchanges.old.state at.0 observers.now.list ≡ false
        → IfOk result (λ found. found ≡ None) }
    ensures quiet { takes_notice exchanges.old.state at.0 observers.now.list ≡ false → IsOk result }
    ensures had { exchanges.old.room ≡ true → IsOk result }
    ensures room { OnOk result (exchanges.old.room ≡ true → exchanges.new.room ≡ true) }
{
    let mut passed = 0;
    'observers: while let Some(notice) = observers.due_after(passed) {
        if exchanges.ready(at, notice.to)? {
            return Ok(Some(notice));
        }
        passed += 1;
    }
    Ok(None)
}

// What an observer is told now, and whether the path holds something: what a GET without options is
// answered, with the block size of the registration (RFC 7641, section 4.2). The store lends the payload.
fn notification<'s, S: Store<A> + 's, A: Allocator + Copy + 's>(
    store: &'s S,
    notice: &Notice<'_, A>,
) -> (FullResponse<'s, A>, bool)
    ensures response { result.0
        ≡ next.notification (S.content store.now) (told notice.now true)
        (next.told (S.content store.now) (told notice.now true)) }
    ensures there { result.1 ≡ is_some ((S.content store.now).holds notice.now.path.now) }
{
    let response = lent(store, notice.path, notice.szx);
    let sequence = sequence_of(store, notice.path);
    (
        FullResponse::of(response, sequence, None),
        sequence.is_some(),
    )
}

// Whether a notification goes in a Non-confirmable message: the path is plain and holds something, and
// neither was the last Confirmable one sent a day ago, nor is the state old (RFC 7641, section 4.5).
fn goes_plain<A: Allocator>(
    plains: &[Path<A>],
    at: Moment,
    notice: &Notice<'_, A>,
    there: bool,
) -> bool
    ensures { (held : Option Held) → is_some held ≡ there
        → result ≡ goes_plain plains.now at.0 held (told notice.now true) }
{
    there
        && is_plain(plains, notice.path)
        && at.since(notice.con) < CON_NOTIFICATION_MS
        && at.since(notice.changed) <= MAX_PLAIN_AGE_MS
}

// Sends a notification, in a Non-confirmable or a Confirmable message (RFC 7641, section 4.5). It takes
// no memory.
fn send<A: Allocator + Copy, H: BuildHasher>(
    exchanges: &mut Answerer<A, H>,
    at: Moment,
    to: Endpoint,
    token: &Token,
    response: &FullResponse<'_, A>,
    word: u64,
    plain: bool,
) -> Id
    requires may { MayNotify exchanges.old at.0 to }
    ensures step { (o : Observer) → o.to ≡ to → o.token ≡ token.now
        → Step exchanges.old.state (notifies_by plain at.0 o response.now word result.0) exchanges.new.state }
    ensures before { exchanges.new.before ≡ exchanges.old.before }
{
    let options = response.options();
    let _short = token.as_slice();
    if plain {
        return exchanges.notify_plain(at, to, token, &response.with(&options));
    }
    exchanges.notify(at, to, token, &response.with(&options), word)
}

// An observer was notified at this moment, in a message with this Message ID: it was told what the
// path holds, or that it holds nothing, which ends the registration (RFC 7641, section 4.2).
fn note_sent<A: Allocator + Copy>(
    observers: &mut Observers<A>,
    at: Moment,
    to: Endpoint,
    token: &Token,
    there: bool,
    plain: bool,
    id: Id,
)
    requires timed { observers.old.clock ≤ at.0 }
    ensures left { (held : Option Held) (o : Observer) → is_some held ≡ there → o.to ≡ to → o.token ≡ token.now
        → observers.new.list ≡ notified plain at.0 id.0 held o observers.old.list }
    ensures timed { observers.new.clock ≤ at.0 }
{
    if !there {
        let _was_there = observers.remove(to, token);
        return;
    }
    if plain {
        observers.noted(at, to, token, id);
    }
    let _was_due = observers.sent(at, to, token, !plain);
}

/// Notifies the first observer to which a notification is due and can be sent, of what its path holds
/// now: whether there is one. After an `Err` only the exchanges are not as before; they can be taken
/// back.
pub(crate) fn notify_next<S: Store<A>, A: Allocator + Copy, H: BuildHasher>(
    parts: &mut Parts<S, A, H>,
    word: u64,
) -> Result<bool, AllocError>
    requires timed { parts.old.observers.clock ≤ parts.old.clock.0 }
    ensures turned { IfOk result (λ did. IsTurned (seen S.content parts.old) dues.Idle word did
        (seen S.content parts.new)) }
    ensures timed { OnOk result (parts.new.observers.clock ≤ parts.new.clock.0) }
    ensures before { parts.new.exchanges.before ≡ parts.old.exchanges.before }
    ensures err { OnErr result
        (record (kept_of parts.new) { exchanges = parts.old.exchanges.state } ≡ kept_of parts.old) }
    ensures quiet { takes_notice parts.old.exchanges.state parts.old.clock.0 parts.old.observers.list ≡ false
        → IsOk result }
    ensures had { parts.old.exchanges.room ≡ true → IsOk result }
{
    let at = parts.clock;
    let Some(notice) = first_ready(&mut parts.exchanges, &parts.observers, at)? else {
        parts.applied = None;
        return Ok(false);
    };
    // Nothing fails from here on.
    let (response, there) = notification(&parts.store, &notice);
    let plain = goes_plain(&parts.plains, at, &notice, there);
    let Notice { to, token, .. } = notice;
    let id = send(&mut parts.exchanges, at, to, &token, &response, word, plain);
    note_sent(&mut parts.observers, at, to, &token, there, plain, id);
    parts.applied = None;
    Ok(true)
}
