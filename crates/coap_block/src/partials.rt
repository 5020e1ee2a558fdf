//! The list of partial bodies at a server.
ghost use Rattle.std.specs.Prelude.{◌≡◌, ◌<◌, ◌≤◌, ◌+◌, ◌++◌, ◌∷◌, ◌&&◌, [], filter, length, set, IfOk};
ghost use Rattle.std.specs.Prelude.{IfSome, OnOk, OnErr, vec_len, vec_capacity};
ghost use Rattle.std.specs.List.{list_any};
ghost use Rattle.coap_types.specs.SameEndpoint.{same_endpoint};
ghost use Rattle.coap_block.specs.AssemblyState.{body_with, forgotten, is_live, put, reached, with_payload};
ghost use Rattle.coap_block.specs.AssemblyState.{without_key};
ghost use Rattle.coap_block.specs.AssemblyKept.{begun, body_of, changed_at, grown, partials_of, key_of, place_of};
ghost use Rattle.coap_block.specs.AssemblyKept.{others_of, there_of, undone, AreFew, IsUndoable};

use crate::arrival::Arrival;
use crate::assembly_judging::MAX_PARTIALS;
use crate::assembly_undo::Change;
use crate::partial::Partial;
use crate::upload_key::UploadKey;
use bytes::Bytes;
use coap_types::{Endpoint, Moment};
use std::alloc::{AllocError, Allocator};
use std::mem;

// The place of the partial body of a key, where there is one.
fn place_of<A: Allocator + Copy>(
    partials: &[Partial<A>],
    key: &UploadKey<A>,
    now: Moment,
) -> Option<usize>
    ensures place { result ≡ place_of (key_of key.now) now.0 (partials_of partials.now) }
    ensures within { IfSome result (λ i. i < length partials.now) }
{
    match partials {
        [] => None,
        [first, ..] if first.is_there(key, now) => Some(0),
        [_, rest @ ..] => Some(place_of(rest, key, now)? + 1),
    }
}

/// How many partial bodies there are.
pub(crate) fn live<A: Allocator + Copy>(partials: &[Partial<A>], now: Moment) -> usize
    ensures { result ≡ length (filter (λ p. is_live now.0 (body_of p)) partials.now) }
{
    partials
        .iter()
        .filter(|partial| partial.is_live(now))
        .count()
}

/// Whether there is a partial body of an upload from there.
pub(crate) fn any_from<A: Allocator + Copy>(
    partials: &[Partial<A>],
    from: Endpoint,
    now: Moment,
) -> bool
    ensures { result ≡ list_any (λ p. is_live now.0 (body_of p) && same_endpoint p.key.from from) partials.now }
{
    partials.iter().any(|partial| partial.is_from(from, now))
}

/// How many bytes the key has, if it has a partial body, and how many other keys have one.
pub(crate) fn counts<A: Allocator + Copy>(
    partials: &[Partial<A>],
    key: &UploadKey<A>,
    now: Moment,
) -> (Option<usize>, usize)
    ensures reached { result.0 ≡ reached (key_of key.now) (there_of now.0 partials.now) }
    ensures others { result.1 ≡ length (without_key (key_of key.now) (there_of now.0 partials.now)) }
{
    let live = live(partials, now);
    match place_of(partials, key, now) {
        Some(i) => (Some(partials[i].len()), live - 1),
        None => (None, live),
    }
}

/// Takes the partial body of a key out.
pub(crate) fn take_out<A: Allocator + Copy>(
    partials: &mut Vec<Partial<A>, A>,
    key: &UploadKey<A>,
    now: Moment,
) -> Change<A>
    ensures left { there_of now.0 partials.new.items
        ≡ without_key (key_of key.now) (there_of now.0 partials.old.items) }
    ensures back { undone result partials.new.items ≡ partials_of partials.old.items }
    ensures undoable { IsUndoable result partials.new }
    ensures fewer { length (partials_of partials.new.items) ≤ length (partials_of partials.old.items) }
{
    match place_of(partials, key, now) {
        None => Change::Clock,
        Some(i) => Change::TakenOut(i, partials.remove(i)),
    }
}

// Drops those that are no longer there.
fn forget<A: Allocator + Copy>(partials: &mut Vec<Partial<A>, A>, now: Moment)
    ensures left { partials.new.items ≡ filter (λ p. is_live now.0 (body_of p)) partials.old.items }
    ensures len { vec_len partials.new ≤ vec_len partials.old }
    ensures room { vec_capacity partials.new ≡ vec_capacity partials.old }
{
    partials.retain(|partial| partial.is_live(now));
}

/// Takes each that is of an upload from there out.
pub(crate) fn take_all_from<A: Allocator + Copy>(partials: &mut Vec<Partial<A>, A>, from: Endpoint)
    ensures { partials.new.items ≡ others_of from partials.old.items }
{
    partials.retain(|partial| !partial.is_of(from));
}

// Puts one last, where there is room.
fn push_within<A: Allocator + Copy>(partials: &mut Vec<Partial<A>, A>, partial: Partial<A>)
    requires { vec_len partials.old < vec_capacity partials.old }
    ensures { partials.new.items ≡ partials.old.items ++ partial ∷ [] }
{
    let _room_was_reserved = partials.push(partial);
}

// Puts a block behind the partial body at a place.
fn grow<A: Allocator + Copy>(
    partials: &mut Vec<Partial<A>, A>,
    i: usize,
    arrival: &Arrival<'_, '_, A>,
) -> Result<Change<A>, AllocError>
    requires { i < length partials.old.items }
    ensures ok { OnOk result (partials_of partials.new.items
        ≡ changed_at (grown arrival.now.payload.now arrival.now.at.0) i (partials_of partials.old.items)) }
    ensures back { IfOk result (λ change. undone change partials.new.items ≡ partials_of partials.old.items) }
    ensures undoable { IfOk result (λ change. IsUndoable change partials.new) }
    ensures err { OnErr result (partials_of partials.new.items ≡ partials_of partials.old.items) }
    ensures len { vec_len partials.new ≡ vec_len partials.old }
    ensures room { vec_capacity partials.new ≡ vec_capacity partials.old }
{
    let partial = &mut partials[i];
    let change = Change::Grown(i, partial.len(), partial.last);
    partial.grow(arrival.payload, arrival.at)?;
    Ok(change)
}

// Begins anew in place of the partial body at a place.
fn replace<A: Allocator + Copy>(
    partials: &mut Vec<Partial<A>, A>,
    i: usize,
    arrival: &Arrival<'_, '_, A>,
) -> Result<Change<A>, AllocError>
    requires { i < length partials.old.items }
    ensures ok { OnOk result (partials_of partials.new.items ≡ set (partials_of partials.old.items) i
        (begun (key_of arrival.now.key.now) arrival.now.payload.now arrival.now.at.0)) }
    ensures back { IfOk result (λ change. undone change partials.new.items ≡ partials_of partials.old.items) }
    ensures undoable { IfOk result (λ change. IsUndoable change partials.new) }
    ensures err { OnErr result (partials.new ≡ partials.old) }
{
    let new = Partial::of(*partials.allocator(), arrival)?;
    let old = mem::replace(&mut partials[i], new);
    Ok(Change::Replaced(i, old))
}

// Begins behind the others. Those that were no longer there at the moment of the last input are
// dropped, so that as many are kept as `undo` may ask for.
fn begin<A: Allocator + Copy>(
    partials: &mut Vec<Partial<A>, A>,
    arrival: &Arrival<'_, '_, A>,
) -> Result<Change<A>, AllocError>
    ensures ok { OnOk result (partials_of partials.new.items ≡ there_of arrival.now.was.0 partials.old.items
        ++ begun (key_of arrival.now.key.now) arrival.now.payload.now arrival.now.at.0 ∷ []) }
    ensures back { IfOk result (λ change.
        undone change partials.new.items ≡ there_of arrival.now.was.0 partials.old.items) }
    ensures undoable { IfOk result (λ change. IsUndoable change partials.new) }
    ensures err { OnErr result (partials.new.items ≡ partials.old.items) }
    ensures len { OnErr result (vec_len partials.new ≡ vec_len partials.old) }
    ensures room { OnErr result (vec_capacity partials.old ≤ vec_capacity partials.new) }
{
    let new = Partial::of(*partials.allocator(), arrival)?;
    partials.reserve(1)?;
    forget(partials, arrival.was);
    push_within(partials, new);
    Ok(Change::Begun)
}

/// Joins a block to the partial body of its key, or begins one where it is block 0.
pub(crate) fn join<A: Allocator + Copy>(
    partials: &mut Vec<Partial<A>, A>,
    arrival: &Arrival<'_, '_, A>,
) -> Result<Change<A>, AllocError>
    requires order { arrival.now.was.0 ≤ arrival.now.at.0 }
    requires few { AreFew arrival.now.was.0 (partials_of partials.old.items) }
    ensures ok { OnOk result (there_of arrival.now.at.0 partials.new.items
        ≡ put (body_with (key_of arrival.now.key.now) arrival.now.num arrival.now.payload.now arrival.now.at.0
        (there_of arrival.now.at.0 partials.old.items)) (there_of arrival.now.at.0 partials.old.items)) }
    ensures back { IfOk result (λ change. forgotten arrival.now.was.0 (undone change partials.new.items)
        ≡ there_of arrival.now.was.0 partials.old.items) }
    ensures undoable { IfOk result (λ change. IsUndoable change partials.new) }
    ensures few { OnOk result (length (partials_of partials.new.items) ≤ MAX_PARTIALS + 1) }
    ensures few_back { IfOk result (λ change. length (undone change partials.new.items) ≤ MAX_PARTIALS + 1) }
    ensures err { OnErr result (partials_of partials.new.items ≡ partials_of partials.old.items) }
    ensures len { OnErr result (vec_len partials.new ≡ vec_len partials.old) }
    ensures room { OnErr result (vec_capacity partials.old ≤ vec_capacity partials.new) }
{
    match place_of(partials, arrival.key, arrival.at) {
        Some(i) if arrival.num > 0 => grow(partials, i, arrival),
        Some(i) => replace(partials, i, arrival),
        None => begin(partials, arrival),
    }
}

/// The body of a key with its last block. The partial bodies stay as they are.
pub(crate) fn whole<A: Allocator + Copy>(
    partials: &mut Vec<Partial<A>, A>,
    arrival: &Arrival<'_, '_, A>,
) -> Result<Bytes<A>, AllocError>
    ensures whole { IfOk result (λ whole. whole ≡ with_payload (key_of arrival.now.key.now) arrival.now.num
        arrival.now.payload.now (there_of arrival.now.at.0 partials.old.items)) }
    ensures same { partials_of partials.new.items ≡ partials_of partials.old.items }
    ensures len { vec_len partials.new ≡ vec_len partials.old }
    ensures room { vec_capacity partials.new ≡ vec_capacity partials.old }
{
    match place_of(partials, arrival.key, arrival.at) {
        Some(i) if arrival.num > 0 => partials[i].whole_with(arrival.payload),
        _ => Bytes::copy_from_slice(*partials.allocator(), arrival.payload),
    }
}

/// Takes a change back.
pub(crate) fn restore<A: Allocator + Copy>(partials: &mut Vec<Partial<A>, A>, change: Change<A>)
    requires { IsUndoable change partials.old }
    ensures { partials_of partials.new.items ≡ undone change partials.old.items }
{
    match change {
        Change::Clock => {}
        Change::Begun => {
            let _begun = partials.pop();
        }
        Change::Replaced(i, old) => partials[i] = old,
        Change::TakenOut(i, old) => {
            let _there_is_room = partials.insert(i, old);
        }
        Change::Grown(i, len, last) => partials[i].cut(len, last),
    }
}
