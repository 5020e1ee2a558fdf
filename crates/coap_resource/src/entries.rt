//! The entries of a store that is a list.
ghost use Rattle.std.specs.Prelude.{◌≡◌, ◌<◌, ◌≤◌, vec_len, ◌++◌, [], ◌∷◌, not, OnOk, OnErr, vec_capacity};
ghost use Rattle.std.specs.Prelude.{length, option_copied, slice_get};
ghost use Rattle.std.specs.List.{filter};
ghost use Rattle.coap_types.specs.Path.{same_path};
ghost use Rattle.coap_resource.specs.Entries.{find, held_entries, paths_of, without_path};
ghost use Rattle.coap_resource.specs.Shown.{held_of, shown};

use crate::entry::Entry;
use crate::representation::Representation;
use coap_types::Path;
use std::alloc::{AllocError, Allocator};

/// What the entries hold at a path.
pub(crate) fn find<'a, A: Allocator + Copy>(
    entries: &'a [Entry<A>],
    path: &Path<A>,
) -> Option<&'a Representation<A>>
    ensures { shown (option_copied result) ≡ find (held_entries entries.now) path.now }
{
    match entries {
        [] => None,
        [entry, rest @ ..] => {
            if entry.path == *path {
                Some(&entry.held)
            } else {
                find(rest, path)
            }
        }
    }
}

/// How many paths hold something.
pub(crate) fn paths<A: Allocator + Copy>(entries: &[Entry<A>]) -> usize
    ensures { result ≡ length (held_entries entries.now) }
{
    entries.len()
}

/// The path of the entry at this place.
pub(crate) fn path_at<A: Allocator + Copy>(entries: &[Entry<A>], place: usize) -> Option<&Path<A>>
    ensures { option_copied result ≡ slice_get (paths_of (held_entries entries.now)) place }
{
    match entries.iter().nth(place) {
        None => None,
        Some(entry) => Some(&entry.path),
    }
}

/// Takes the path's entry out.
pub(crate) fn take_out<A: Allocator + Copy>(entries: &mut Vec<Entry<A>, A>, path: &Path<A>)
    ensures items { entries.new.items ≡ filter (λ e. not (same_path e.path path.now)) entries.old.items }
    ensures len { vec_len entries.new ≤ vec_len entries.old }
    ensures room { vec_capacity entries.new ≡ vec_capacity entries.old }
{
    entries.retain(|entry| entry.path != *path);
}

// Puts an entry last, where there is room.
fn push_within<A: Allocator + Copy>(entries: &mut Vec<Entry<A>, A>, entry: Entry<A>)
    requires { vec_len entries.old < vec_capacity entries.old }
    ensures { entries.new.items ≡ entries.old.items ++ entry ∷ [] }
{
    let _ = entries.push(entry);
}

/// Puts an entry last, in place of the path's.
pub(crate) fn put_in<A: Allocator + Copy>(
    entries: &mut Vec<Entry<A>, A>,
    path: &Path<A>,
    held: Representation<A>,
) -> Result<(), AllocError>
    ensures ok { OnOk result (held_entries entries.new.items ≡ without_path (held_entries entries.old.items) path.now
        ++ (path.now, held_of held) ∷ []) }
    ensures err { OnErr result (entries.new.items ≡ entries.old.items) }
{
    let copy = path.clone()?;
    entries.reserve(1)?;
    take_out(entries, path);
    push_within(entries, Entry { path: copy, held });
    Ok(())
}
