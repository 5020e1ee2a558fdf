//! What the notifications of a client's observations make of it (RFC 7641, sections 3.2 to 3.6).
ghost use Rattle.std.specs.Prelude.{◌≡◌, ◌<◌, ◌≤◌, ◌++◌, ◌∷◌, [], ℕ, None, true, false, length, IfOk, OnOk, OnErr};
ghost use Rattle.std.specs.VecDeque.{deque_len, deque_capacity};
ghost use Rattle.std.specs.Option.{option_map};
ghost use Rattle.coap_client.specs.Observing.{begun, first_rest, first_value, noticed, registered};
ghost use Rattle.coap_observe.specs.Newer.{arrived, is_newer};
ghost use Rattle.coap_client.specs.Own.{Registering};
ghost use Rattle.coap_client.specs.Places.{in_observations};
ghost use Rattle.coap_client.specs.Responses.{sequence_in};
ghost use Rattle.coap_client.specs.Object.Happens.{Apart, Happens, Watched, renewing, running, watching};
ghost use Rattle.coap_client.specs.Object.Held.{own_of, sizes_of, seen};
ghost use Rattle.coap_client.specs.Object.Shown.{reported, shown_rest};

use crate::client::end::end_observation;
use crate::client::held::Held;
use crate::client::observation_fetch::first_part;
use crate::client::observations;
use crate::client::operation::{Notified, Observation, Waiting};
use crate::client::parts::Parts;
use crate::client::report::{Report, give, give_some};
use crate::client::responses::sequence_of;
use crate::client::short_path::ShortPath;
use coap_codec::View;
use coap_observe::Watch;
use coap_types::{Moment, Token};
use std::alloc::{AllocError, Allocator};
use std::hash::BuildHasher;

/// What the answer to the registration of an observation makes of a client: it is live where the answer
/// is a notification. After an `Err` it is as before.
pub fn hear_registration<A: Allocator + Copy, H: BuildHasher>(
    parts: &mut Parts<A, H>,
    at: Moment,
    number: u64,
    path: ShortPath<A>,
    m: &View<'_>,
) -> Result<(), AllocError>
    requires room { deque_len parts.old.held.reports < deque_capacity parts.old.held.reports }
    requires idle { parts.old.held.operations.running ≡ None }
    requires spare { 0 < parts.old.held.operations.spare }
    ensures happens { (word : ℕ) → OnOk result
        (Happens parts.old.asker.state (registered number path (own_of parts.old.held) at.0 m.now) at.0 word None
        (seen parts.new)) }
    ensures held { OnErr result (own_of parts.new.held ≡ running (Registering number path) (own_of parts.old.held)) }
    ensures before { parts.new.asker.before ≡ parts.old.asker.before }
{
    let Some(sequence) = sequence_of(m) else {
        give(&mut parts.held, number, Report::Ended(m.code()));
        return Ok(());
    };
    match begin(&mut parts.held, sequence, m) {
        Ok((rest, report)) => {
            let first = Begun {
                number,
                path,
                sequence,
                rest,
            };
            let token = make_live(&mut parts.held, at, first, m);
            let _kept = parts.asker.keep(&token);
            give_some(&mut parts.held, number, report);
            Ok(())
        }
        Err(refused) => {
            parts
                .held
                .operations
                .run(Waiting::Registering(number, path));
            Err(refused)
        }
    }
}

// Room for a further observation, and its first part.
fn begin<A: Allocator + Copy>(
    held: &mut Held<A>,
    sequence: u32,
    m: &View<'_>,
) -> Result<(Option<Notified<A>>, Option<Report<A>>), AllocError>
    ensures rest { sequence ≡ sequence_in m.now
        → IfOk result (λ r. option_map shown_rest r.0 ≡ first_rest (sizes_of held.old) m.now) }
    ensures value { (number : ℕ) → sequence ≡ sequence_in m.now
        → IfOk result (λ r. reported number r.1 ≡ first_value number (sizes_of held.old) m.now) }
    ensures room { OnOk result (length held.new.operations.live < held.new.operations.places) }
    ensures operations { held.new.operations ≡ record held.old.operations { places = held.new.operations.places } }
    ensures reports { held.new.reports ≡ held.old.reports }
    ensures same { own_of held.new ≡ own_of held.old }
{
    held.operations.reserve_live()?;
    let alloc = held.operations.allocator();
    first_part(alloc, held.szx, held.limit, sequence, m)
}

// An observation that begins: the sequence number of its first notification, and what is left to be
// fetched for that.
#[derive(Drop)]
struct Begun<A: Allocator> {
    number: u64,
    path: ShortPath<A>,
    sequence: u32,
    rest: Option<Notified<A>>,
}

// Makes the observation live, and answers its token.
fn make_live<A: Allocator + Copy>(
    held: &mut Held<A>,
    at: Moment,
    first: Begun<A>,
    m: &View<'_>,
) -> Token
    requires room { length held.old.operations.live < held.old.operations.places }
    requires idle { held.old.operations.running ≡ None }
    requires spare { 0 < held.old.operations.spare }
    requires rest { option_map shown_rest first.rest ≡ first_rest (sizes_of held.old) m.now }
    requires sequence { first.sequence ≡ sequence_in m.now }
    ensures token { result ≡ m.now.token }
    ensures reports { held.new.reports ≡ held.old.reports }
    ensures live { own_of held.new ≡ record (own_of held.old) {
      running = None;
      observations = (own_of held.old).observations ++ begun first.number first.path (sizes_of held.old) at.0 m.now
          ∷ [];
    } }
{
    let token = token_in(m);
    let mut watch = Watch::new();
    let _is_newer = watch.arrive(at, first.sequence);
    let observation = Observation {
        number: first.number,
        path: first.path,
        token: token.copy(),
        watch,
        rest: first.rest,
    };
    held.operations.go_live(observation);
    token
}

// The token of a response.
fn token_in(m: &View<'_>) -> Token
    ensures { result ≡ m.now.token }
{
    Token::new(m.token()).unwrap_or_default()
}

/// What a notification makes of a client. After an `Err` it is as before.
pub fn hear_notification<A: Allocator + Copy, H: BuildHasher>(
    parts: &mut Parts<A, H>,
    at: Moment,
    m: &View<'_>,
) -> Result<(), AllocError>
    requires room { deque_len parts.old.held.reports < deque_capacity parts.old.held.reports }
    requires apart { Apart (own_of parts.old.held) }
    requires watched { Watched at.0 (own_of parts.old.held) }
    ensures happens { (word : ℕ) → OnOk result
        (Happens parts.old.asker.state (noticed (own_of parts.old.held) at.0 m.now) at.0 word None
        (seen parts.new)) }
    ensures held { OnErr result (own_of parts.new.held ≡ own_of parts.old.held) }
    ensures before { parts.new.asker.before ≡ parts.old.asker.before }
{
    let Some(observation) = observations::find_with(&parts.held.operations, m.token()) else {
        return Ok(());
    };
    let number = observation.number;
    let watch = observation.watch;
    match sequence_of(m) {
        Some(sequence) => tell(&mut parts.held, at, number, watch, sequence, m),
        None => {
            end_observation(parts, number, Report::Ended(m.code()));
            Ok(())
        }
    }
}

// A notification with this sequence number.
fn tell<A: Allocator + Copy>(
    held: &mut Held<A>,
    at: Moment,
    number: u64,
    mut watch: Watch,
    sequence: u32,
    m: &View<'_>,
) -> Result<(), AllocError>
    requires room { deque_len held.old.reports < deque_capacity held.old.reports }
    requires one { in_observations number (own_of held.old).observations ≤ 1 }
    requires sequence { sequence ≡ sequence_in m.now }
    requires clock { watch.clock ≤ at.0 }
    ensures old { is_newer watch.mark sequence at.0 ≡ false
        → OnOk result (own_of held.new ≡ watching number (record watch { clock = at.0 }) (own_of held.old)) }
    ensures new { is_newer watch.mark sequence at.0 ≡ true
        → OnOk result (own_of held.new ≡ renewing number (arrived watch sequence at.0 true) m.now (own_of held.old)) }
    ensures held { OnErr result (own_of held.new ≡ own_of held.old) }
{
    if watch.arrive(at, sequence) {
        renew(held, number, watch, sequence, m)
    } else {
        observations::set_watch(&mut held.operations, number, watch);
        Ok(())
    }
}

// A newer notification: it replaces what is fetched for an older one.
fn renew<A: Allocator + Copy>(
    held: &mut Held<A>,
    number: u64,
    watch: Watch,
    sequence: u32,
    m: &View<'_>,
) -> Result<(), AllocError>
    requires room { deque_len held.old.reports < deque_capacity held.old.reports }
    requires one { in_observations number (own_of held.old).observations ≤ 1 }
    requires sequence { sequence ≡ sequence_in m.now }
    ensures new { OnOk result (own_of held.new ≡ renewing number watch m.now (own_of held.old)) }
    ensures held { OnErr result (own_of held.new ≡ own_of held.old) }
{
    let (rest, report) = begin(held, sequence, m)?;
    held.operations.drop_fetch(number);
    observations::set_watch(&mut held.operations, number, watch);
    observations::set_rest(&mut held.operations, number, rest);
    give_some(held, number, report);
    Ok(())
}
