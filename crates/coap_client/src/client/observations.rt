//! The live observations of a client (RFC 7641, section 3.2): which there are, how many, and which is being cancelled.
ghost use Rattle.std.specs.Prelude.{◌≡◌, ◌≤◌, ◌==◌, ◌+◌, not, drop, filter, map, if◌then◌else◌, None, nat_le, length};
ghost use Rattle.std.specs.Prelude.{option_to_list};
ghost use Rattle.std.specs.Option.{option_map};
ghost use Rattle.coap_client.specs.Observations.{fetch_of, observation_of, observation_with, observed_path, rest_of};
ghost use Rattle.coap_client.specs.Observations.{token_of, with_rest, is_cancel_of, is_cancelled, is_live};
ghost use Rattle.coap_client.specs.Own.{Observation as Observed};
ghost use Rattle.coap_client.specs.Requests.{block2_option};
ghost use Rattle.coap_types.specs.OptionValues.{option_with};
ghost use Rattle.coap_types.specs.Path.{segments_of};
ghost use Rattle.coap_client.specs.Object.CallShown.{IsFew, IsShortPath};
ghost use Rattle.coap_client.specs.Object.CallAnswers.{place_in};
ghost use Rattle.coap_client.specs.Places.{in_observations};
ghost use Rattle.coap_client.specs.Object.Shown.{shown_observation, shown_rest, shown_operation, shown_queued};
ghost use Rattle.coap_client.specs.Object.Shown.{shown_waiting};
ghost use Rattle.std.specs.List.{list_any};
ghost use Rattle.coap_client.specs.Queue.{is_registration, observed};
ghost use Rattle.coap_client.specs.Object.Held.{own_of};

use crate::MAX_OBSERVATIONS;
use crate::client::held::Held;
use crate::client::operation::{ClientOperations, Notified, Observation, Waiting};
use crate::client::transfer::block2_of;
use coap_observe::Watch;
use coap_operations::{Queued, Running};
use coap_types::option_number::BLOCK2;
use coap_types::{Token, UintBytes};
use std::alloc::Allocator;

// The place of the observation of that number.
fn place_of<A: Allocator + Copy>(operations: &ClientOperations<A>, number: u64) -> Option<usize>
    ensures { result ≡ place_in number (map shown_observation operations.now.live) }
{
    place_from(operations, 0, number)
}

// .. among those from that place on.
fn place_from<A: Allocator + Copy>(
    operations: &ClientOperations<A>,
    from: usize,
    number: u64,
) -> Option<usize>
    ensures { result ≡ option_map (λ k. from + k)
        (place_in number (map shown_observation (drop from operations.now.live))) }
{
    if from >= operations.live_len() {
        return None;
    }
    let first = operations.live(from)?;
    if first.number == number {
        Some(from)
    } else {
        place_from(operations, from + 1, number)
    }
}

/// The observation of that number.
pub fn find<A: Allocator + Copy>(
    operations: &ClientOperations<A>,
    number: u64,
) -> Option<&Observation<A>>
    ensures { option_map (λ o. shown_observation o.now) result
        ≡ observation_of number (map shown_observation operations.now.live) }
{
    operations.live(place_of(operations, number)?)
}

/// The observation of that token.
pub fn find_with<'a, A: Allocator + Copy>(
    operations: &'a ClientOperations<A>,
    token: &[u8],
) -> Option<&'a Observation<A>>
    ensures { option_map (λ o. shown_observation o.now) result
        ≡ observation_with token.now (map shown_observation operations.now.live) }
{
    find_with_from(operations, 0, token)
}

// .. among those from that place on.
fn find_with_from<'a, A: Allocator + Copy>(
    operations: &'a ClientOperations<A>,
    from: usize,
    token: &[u8],
) -> Option<&'a Observation<A>>
    ensures { option_map (λ o. shown_observation o.now) result
        ≡ observation_with token.now (map shown_observation (drop from operations.now.live)) }
{
    if from >= operations.live_len() {
        return None;
    }
    let first = operations.live(from)?;
    if token == first.token.as_slice() {
        Some(first)
    } else {
        find_with_from(operations, from + 1, token)
    }
}

/// The token of the observation of that number.
pub fn token_of<A: Allocator + Copy>(operations: &ClientOperations<A>, number: u64) -> Option<Token>
    ensures { result ≡ token_of number (map shown_observation operations.now.live) }
{
    Some(find(operations, number)?.token.copy())
}

/// The observation of that number, of which there is one at most, is live no more.
pub fn remove<A: Allocator + Copy>(operations: &mut ClientOperations<A>, number: u64)
    requires { in_observations number (map shown_observation operations.old.live) ≤ 1 }
    ensures live { map shown_observation operations.new.live
        ≡ filter (λ o. not (o.number == number)) (map shown_observation operations.old.live) }
    ensures same { operations.new ≡ record operations.old { live = operations.new.live; spare = operations.new.spare } }
{
    if let Some(place) = place_of(operations, number) {
        operations.remove_live(place);
    }
}

/// How fresh the observation of that number is now, of which there is one at most.
pub fn set_watch<A: Allocator + Copy>(
    operations: &mut ClientOperations<A>,
    number: u64,
    watch: Watch,
)
    requires { in_observations number (map shown_observation operations.old.live) ≤ 1 }
    ensures live { map shown_observation operations.new.live
        ≡ map (λ (o : Observed). if o.number == number then record o { watch = watch } else o)
        (map shown_observation operations.old.live) }
    ensures same { operations.new ≡ record operations.old { live = operations.new.live } }
{
    if let Some(place) = place_of(operations, number) {
        operations.live_mut(place).watch = watch;
    }
}

/// What is to be fetched for the observation of that number, of which there is one at most.
pub fn set_rest<A: Allocator + Copy>(
    operations: &mut ClientOperations<A>,
    number: u64,
    rest: Option<Notified<A>>,
)
    requires { in_observations number (map shown_observation operations.old.live) ≤ 1 }
    ensures live { map shown_observation operations.new.live
        ≡ with_rest number (option_map shown_rest rest) (map shown_observation operations.old.live) }
    ensures same { operations.new ≡ record operations.old { live = operations.new.live } }
{
    if let Some(place) = place_of(operations, number) {
        operations.live_mut(place).rest = rest;
    }
}

/// .. and nothing is to be fetched any more.
pub fn take_rest<A: Allocator + Copy>(
    operations: &mut ClientOperations<A>,
    number: u64,
) -> Option<Notified<A>>
    requires { in_observations number (map shown_observation operations.old.live) ≤ 1 }
    ensures rest { option_map shown_rest result ≡ rest_of number (map shown_observation operations.old.live) }
    ensures left { map shown_observation operations.new.live
        ≡ with_rest number None (map shown_observation operations.old.live) }
    ensures same { operations.new ≡ record operations.old { live = operations.new.live } }
{
    let place = place_of(operations, number)?;
    operations.live_mut(place).rest.take()
}

/// The path of the observation of that number, none where there is none.
#[tactic(auto, using(crate::proofs::Facts::Calls::AskableRequests::empty_short))]
pub fn segments_of<A: Allocator + Copy>(
    operations: &ClientOperations<A>,
    number: u64,
) -> &[Vec<u8, A>]
    ensures path { segments_of result.now ≡ observed_path number (map shown_observation operations.now.live) }
    ensures short { IsShortPath (segments_of result.now) }
{
    match find(operations, number) {
        Some(o) => o.path.segments(),
        None => &[],
    }
}

/// The value of the Block2 that asks for what is to be fetched for the observation of that number.
pub fn block_asked<A: Allocator + Copy>(
    operations: &ClientOperations<A>,
    number: u64,
) -> Option<UintBytes>
    ensures option { option_with BLOCK2 result
        ≡ block2_option (fetch_of number (map shown_observation operations.now.live)) }
    ensures few { IsFew result }
{
    block2_of(&find(operations, number)?.rest.as_ref()?.fetch)
}

/// Whether `MAX_OBSERVATIONS` observations wait, run or are live.
pub(crate) fn are_watches_full<A: Allocator + Copy>(held: &Held<A>) -> bool
    ensures { result ≡ nat_le MAX_OBSERVATIONS (observed (own_of held.now)) }
{
    let waiting = registrations(&held.operations, 0);
    let running = running_registrations(&held.operations);
    reach(
        running,
        waiting,
        held.operations.live_len(),
        MAX_OBSERVATIONS,
    )
}

// Whether the sum of three numbers reaches a bound.
fn reach(a: usize, b: usize, c: usize, most: usize) -> bool
    ensures { result ≡ nat_le most (a + b + c) }
{
    a >= most || b >= most - a || c >= most - a - b
}

// How many registrations run.
fn running_registrations<A: Allocator + Copy>(operations: &ClientOperations<A>) -> usize
    ensures count { result ≡ length (filter is_registration
        (option_to_list (option_map shown_operation operations.now.running))) }
    ensures few { result ≤ 1 }
{
    match operations.running() {
        Some(Running::Started(waiting)) if is_registration(waiting) => 1,
        _ => 0,
    }
}

// How many registrations wait, from that place on.
fn registrations<A: Allocator + Copy>(operations: &ClientOperations<A>, from: usize) -> usize
    ensures count { result ≡ length (filter is_registration (map shown_queued (drop from operations.now.queue))) }
    ensures few { result ≤ length (drop from operations.now.queue) }
{
    if from >= operations.waiting_len() {
        return 0;
    }
    let behind = registrations(operations, from + 1);
    match operations.waiting(from) {
        Some(Queued::Starts(waiting)) if is_registration(waiting) => behind + 1,
        _ => behind,
    }
}

// Whether it is a registration.
fn is_registration<A: Allocator + Copy>(waiting: &Waiting<A>) -> bool
    ensures { result ≡ is_registration (shown_waiting waiting.now) }
{
    match waiting {
        Waiting::Registering(_, _) => true,
        Waiting::Calling(_, _) => false,
    }
}

/// Whether the observation of that number is live.
pub(crate) fn is_live<A: Allocator + Copy>(held: &Held<A>, number: u64) -> bool
    ensures { result ≡ is_live number (own_of held.now) }
{
    find(&held.operations, number).is_some()
}

/// Whether the cancel of that observation waits or runs.
pub(crate) fn is_cancelled<A: Allocator + Copy>(held: &Held<A>, number: u64) -> bool
    ensures { result ≡ is_cancelled number (own_of held.now) }
{
    is_cancel_of(&held.operations, number) || held.operations.has_cancel(number)
}

// Whether what runs is the cancel of that observation.
fn is_cancel_of<A: Allocator + Copy>(operations: &ClientOperations<A>, number: u64) -> bool
    ensures { result ≡ list_any (is_cancel_of number)
        (option_to_list (option_map shown_operation operations.now.running)) }
{
    match operations.running() {
        Some(Running::Cancelling(other)) => other == number,
        _ => false,
    }
}
