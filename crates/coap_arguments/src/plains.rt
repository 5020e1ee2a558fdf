//! The paths whose observers are told in Non-confirmable messages, read from the words.
ghost use Rattle.std.specs.Prelude.{◌≡◌, ◌<◌, ◌≤◌, Ok, true, false, length, MatchResult};
ghost use Rattle.clap.specs.Words.{found_of, rows_of};
ghost use Rattle.coap_arguments.specs.Plains.{HasPlains, IsWrongPlain, is_among, with_path};

use crate::orders::{MAX_PLAINS, Wrong};
use crate::path_text::path_of_text;
use clap::ArgMatches;
use coap_types::Path;
use std::alloc::{AllocError, Global};

/// The paths that `--plain` names, each once.
pub(crate) fn plains_of(alloc: Global, given: &ArgMatches<'_>) -> Result<Vec<Path>, Wrong>
    ensures { MatchResult result (λ plains. HasPlains (rows_of (found_of given.now)) plains.items)
        (IsWrongPlain (rows_of (found_of given.now))) }
{
    let mut plains = Vec::new(alloc);
    let Some(texts) = given.get_strs("plain") else {
        return Ok(plains);
    };
    for text in texts {
        let path = path_of_text(alloc, text)?;
        if !add_path(&mut plains, path)? {
            return Err(Wrong::Plains);
        }
    }
    Ok(plains)
}

// Whether a path is one of these.
fn has_path(paths: &[Path], path: &Path) -> bool
    ensures { result ≡ is_among path.now paths.now }
{
    paths.iter().any(|other| *other == *path)
}

// Adds a path behind the others, where it is none of them: false where there is no place for it.
fn add_path(plains: &mut Vec<Path>, path: Path) -> Result<bool, AllocError>
    requires few { length plains.old.items ≤ MAX_PLAINS }
    ensures added { result ≡ Ok true → plains.new.items ≡ with_path path plains.old.items }
    ensures few { result ≡ Ok true → length plains.new.items ≤ MAX_PLAINS }
    ensures full { result ≡ Ok false → MAX_PLAINS < length (with_path path plains.old.items) }
{
    if has_path(plains, &path) {
        return Ok(true);
    }
    if plains.len() >= MAX_PLAINS {
        return Ok(false);
    }
    plains.push(path)?;
    Ok(true)
}
