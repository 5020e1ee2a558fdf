//! The paths at which a server holds something.
ghost use Rattle.std.specs.Prelude.{◌≡◌, true, ◌≤◌};
ghost use Rattle.std.specs.List.{list_any};
ghost use Rattle.coap_resource.specs.Entries.{content_of};
ghost use Rattle.coap_server.specs.Object.Shown.{state_of};
ghost use Rattle.coap_types.specs.Path.{same_path};
ghost use Rattle.coap_kept.specs.Holding.{AreDistinct, AreHeldAlike, HoldsAlike, HoldsBody, HoldsTheSame};

use crate::inputs::{Handed, ReadsTurns, read_turns};
use coap_codec::decode;
use coap_ends::Server;
use coap_resource::MapStore;
use coap_types::option_number::URI_PATH;
use coap_types::{Moment, Path, PathRefusal};
use std::alloc::{AllocError, Global};
use std::hash::BuildHasher;

// The paths that were named so far, and at which the server holds something.
#[derive(Drop)]
struct HeldPaths<'a, H: BuildHasher + Drop> {
    alloc: Global,
    server: &'a Server<MapStore, Global, H>,
    paths: Vec<Path>,
}

// Whether a path is one of these.
fn has_path(paths: &[Path], path: &Path) -> bool
    ensures { result ≡ list_any (λ other. same_path other path.now) paths.now }
{
    paths.iter().any(|other| *other == *path)
}

// Adds a path at which a server holds something, where it is not there yet.
fn add_held<H: BuildHasher + Drop>(
    server: &Server<MapStore, Global, H>,
    paths: &mut Vec<Path>,
    path: Path,
) -> Result<(), AllocError> {
    if server.get(&path).is_none() || has_path(paths, &path) {
        return Ok(());
    }
    paths.push(path)?;
    Ok(())
}

// The path that a datagram asks for (RFC 7252, section 5.10.1), where it can be one.
fn path_asked(alloc: Global, bytes: &[u8]) -> Result<Option<Path>, AllocError> {
    let Ok(message) = decode(bytes) else {
        return Ok(None);
    };
    let mut path = Path::new(alloc);
    for option in message.options() {
        if option.number == URI_PATH {
            match path.push(option.value) {
                Ok(()) => {}
                Err(PathRefusal::Memory) => return Err(AllocError),
                Err(_) => return Ok(None),
            }
        }
    }
    Ok(Some(path))
}

impl<H: BuildHasher + Drop> ReadsTurns for HeldPaths<'_, H> {
    fn turn(&mut self) {}

    fn input(&mut self, input: Handed<'_>) -> Result<(), AllocError> {
        match input {
            Handed::Datagram(bytes) => match path_asked(self.alloc, bytes)? {
                Some(path) => add_held(self.server, &mut self.paths, path),
                None => Ok(()),
            },
            Handed::Body(path) => add_held(self.server, &mut self.paths, path),
            Handed::Other => Ok(()),
        }
    }
}

/// The paths at which the server of a journal of these bytes holds something, each once: only what an input names is
/// ever held.
pub(crate) fn held_paths<H: BuildHasher + Drop>(
    alloc: Global,
    bytes: &[u8],
    server: &Server<MapStore, Global, H>,
) -> Result<Vec<Path>, AllocError> {
    let mut held = HeldPaths {
        alloc,
        server,
        paths: Vec::new(alloc),
    };
    read_turns(alloc, bytes, &mut held)?;
    Ok(held.paths)
}

// Whether no two of these paths are one.
fn are_distinct(paths: &[Path]) -> bool
    ensures { result ≡ true → AreDistinct paths.now }
{
    let mut rest = paths;
    while let [first, behind @ ..] = rest {
        if has_path(behind, first) {
            return false;
        }
        rest = behind;
    }
    true
}

// Whether a server holds this body in this format at a path.
fn holds_body<H: BuildHasher + Drop>(
    server: &Server<MapStore, Global, H>,
    path: &Path,
    format: Option<u16>,
    body: &[u8],
) -> bool
    ensures { result ≡ true → HoldsBody path.now format body.now (state_of content_of server.now) }
{
    match server.get(path) {
        Some(held) => held.format == format && *held.body.as_slice() == *body,
        None => false,
    }
}

// Whether both servers hold the same at a path.
fn hold_alike<H: BuildHasher + Drop>(
    old: &Server<MapStore, Global, H>,
    new: &Server<MapStore, Global, H>,
    path: &Path,
) -> bool
    ensures { result ≡ true
        → HoldsAlike (state_of content_of old.now) (state_of content_of new.now) path.now }
{
    match old.get(path) {
        Some(held) => holds_body(new, path, held.format, held.body.as_slice()),
        None => false,
    }
}

// .. and so at each of these paths.
fn all_hold_alike<H: BuildHasher + Drop>(
    old: &Server<MapStore, Global, H>,
    new: &Server<MapStore, Global, H>,
    paths: &[Path],
) -> bool
    ensures { result ≡ true
        → AreHeldAlike (state_of content_of old.now) (state_of content_of new.now) paths.now }
{
    let mut rest = paths;
    while let [first, behind @ ..] = rest {
        if !hold_alike(old, new, first) {
            return false;
        }
        rest = behind;
    }
    true
}

// At how many paths a server holds something.
fn held_count<H: BuildHasher + Drop>(server: &Server<MapStore, Global, H>) -> usize
    ensures { result ≡ (state_of content_of server.now).own.store.paths }
{
    server.load(Moment(0)).paths
}

/// Whether two servers hold the same: something at each of these paths, and at no other.
pub(crate) fn hold_the_same<H: BuildHasher + Drop>(
    old: &Server<MapStore, Global, H>,
    new: &Server<MapStore, Global, H>,
    paths: &[Path],
) -> bool
    ensures { result ≡ true
        → HoldsTheSame (state_of content_of old.now) (state_of content_of new.now) }
{
    if !are_distinct(paths) || !all_hold_alike(old, new, paths) {
        return false;
    }
    held_count(old) == paths.len() && held_count(new) == paths.len()
}
