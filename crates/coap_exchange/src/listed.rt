//! A list whose last input can be taken back.
ghost use Rattle.std.specs.Prelude.{◌≡◌, ◌≤◌, ◌<◌, ◌++◌, [], ◌∷◌, map, filter};
ghost use Rattle.std.specs.Vec.{vec_len, vec_capacity};
ghost use Rattle.coap_exchange.specs.Machine.Listed.{listed, listed_before, noted, reverted as reverted_lem};

use std::alloc::Allocator;

/// An entry of a list whose last input may be taken back. One that is off the list stays until the
/// next input.
#[derive(Drop)]
pub struct Listed<T> {
    /// The entry.
    pub entry: T,
    /// It is on the list.
    pub now: bool,
    /// The last input found it on the list.
    pub before: bool,
}

// Drops what is off the list.
fn drop_others<T: Drop, A: Allocator + Copy>(list: &mut Vec<Listed<T>, A>)
    ensures items { list.new.items ≡ filter (λ k. k.now) list.old.items }
    ensures len { vec_len list.new ≤ vec_len list.old }
    ensures capacity { vec_capacity list.new ≡ vec_capacity list.old }
{
    list.retain(|k| k.now);
}

// Notes what is on the list as that which an input finds.
fn note<T: Drop>(list: &mut [Listed<T>])
    ensures { list.new ≡ map noted list.old }
{
    for k in list.iter_mut() {
        k.before = k.now;
    }
}

// The same of a vector.
fn note_all<T: Drop, A: Allocator + Copy>(list: &mut Vec<Listed<T>, A>)
    ensures items { list.new.items ≡ map noted list.old.items }
    ensures len { vec_len list.new ≡ vec_len list.old }
    ensures capacity { vec_capacity list.new ≡ vec_capacity list.old }
{
    note(list);
}

/// Lets go of what the input before found, and notes what this one finds.
pub(crate) fn settle_down<T: Drop, A: Allocator + Copy>(list: &mut Vec<Listed<T>, A>)
    ensures now { listed list.new.items ≡ listed list.old.items }
    ensures before { listed_before list.new.items ≡ listed list.old.items }
    // What is off the list goes.
    ensures gone { list.new.items ≡ map noted (filter (λ k. k.now) list.old.items) }
    ensures len { vec_len list.new ≤ vec_len list.old }
    ensures capacity { vec_capacity list.new ≡ vec_capacity list.old }
{
    drop_others(list);
    note_all(list);
}

// Puts back what the last input found.
fn revert<T: Drop>(list: &mut [Listed<T>])
    ensures { list.new ≡ map reverted_lem list.old }
{
    for k in list.iter_mut() {
        k.now = k.before;
    }
}

// The same of a vector.
fn revert_all<T: Drop, A: Allocator + Copy>(list: &mut Vec<Listed<T>, A>)
    ensures items { list.new.items ≡ map reverted_lem list.old.items }
    ensures capacity { vec_capacity list.new ≡ vec_capacity list.old }
{
    revert(list);
}

/// Puts back what the last input found.
pub(crate) fn put_back<T: Drop, A: Allocator + Copy>(list: &mut Vec<Listed<T>, A>)
    ensures now { listed list.new.items ≡ listed_before list.old.items }
    ensures capacity { vec_capacity list.new ≡ vec_capacity list.old }
{
    revert_all(list);
}

/// Puts an entry at the end of the list, where there is room for it.
pub(crate) fn enlist<T: Drop, A: Allocator + Copy>(list: &mut Vec<Listed<T>, A>, entry: T)
    requires { vec_len list.old < vec_capacity list.old }
    ensures now { listed list.new.items ≡ listed list.old.items ++ entry ∷ [] }
    ensures before { listed_before list.new.items ≡ listed_before list.old.items }
{
    let _ = list.push(Listed {
        entry,
        now: true,
        before: false,
    });
}
