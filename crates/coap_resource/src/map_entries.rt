//! The entries of a store that is a map.
ghost use Rattle.std.specs.Prelude.{◌≡◌, ◌<◌, ◌^◌, None, Some, is_some, length, OnOk, OnErr, option_copied};
ghost use Rattle.std.specs.Prelude.{slice_get};
ghost use Rattle.coap_resource.specs.Entries.{Enters, find, mapped_entries, paths_of};
ghost use Rattle.coap_resource.specs.Shown.{held_of, shown};

use crate::representation::Representation;
use coap_types::Path;
use std::alloc::{AllocError, Allocator};
use std::collections::BTreeMap;

/// What the map holds at a path.
pub(crate) fn find<'a, A: Allocator + Copy>(
    map: &'a BTreeMap<Path<A>, Representation<A>, A>,
    path: &Path<A>,
) -> Option<&'a Representation<A>>
    ensures { shown (option_copied result) ≡ find (mapped_entries map.now.entries) path.now }
{
    map.get(path)
}

/// How many paths hold something.
pub(crate) fn paths<A: Allocator + Copy>(map: &BTreeMap<Path<A>, Representation<A>, A>) -> usize
    ensures { result ≡ length (mapped_entries map.now.entries) }
{
    map.len()
}

/// The path at this place, in their order.
pub(crate) fn path_at<A: Allocator + Copy>(
    map: &BTreeMap<Path<A>, Representation<A>, A>,
    place: usize,
) -> Option<&Path<A>>
    ensures { option_copied result ≡ slice_get (paths_of (mapped_entries map.now.entries)) place }
{
    map.keys().nth(place)
}

/// Puts that at the path. After an `Err` the map is as before.
pub(crate) fn put_in<A: Allocator + Copy>(
    map: &mut BTreeMap<Path<A>, Representation<A>, A>,
    path: &Path<A>,
    held: Representation<A>,
) -> Result<(), AllocError>
    ensures ok { OnOk result (Enters (mapped_entries map.old.entries) path.now (Some (held_of held))
        (mapped_entries map.new.entries)) }
    ensures err { OnErr result (map.new.entries ≡ map.old.entries) }
{
    let key = path.clone()?;
    map.insert(key, held)?;
    Ok(())
}

/// Takes out what the path has.
pub(crate) fn take_out<A: Allocator + Copy>(
    map: &mut BTreeMap<Path<A>, Representation<A>, A>,
    path: &Path<A>,
)
    ensures { Enters (mapped_entries map.old.entries) path.now None (mapped_entries map.new.entries) }
{
    let _gone = map.remove(path);
}
