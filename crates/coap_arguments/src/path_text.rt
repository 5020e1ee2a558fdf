//! The text of a path.
ghost use Rattle.std.specs.Prelude.{◌≡◌, ◌⊎◌, ℕ, List, IfOk, IfErr};
ghost use Rattle.coap_types.specs.Path.{HoldsAtMost};
ghost use Rattle.coap_arguments.specs.PathText.{IsNoPath, IsPathText, IsTrueOf};

use coap_types::{MAX_SEGMENT_LEN, MAX_SEGMENTS, Path, PathRefusal};
use std::alloc::Global;

/// The path that a text says: its segments are joined by `/`, and one leading `/` is dropped. The
/// empty text and `/` alone are the path without segments.
pub fn path_of_text(alloc: Global, text: &str) -> Result<Path, PathRefusal>
    // The path is what the text says, and the text says no other.
    ensures ok { IfOk result (λ p. IsPathText text.now p × HoldsAtMost MAX_SEGMENTS MAX_SEGMENT_LEN p) }
    // A text says no path but the one that is answered.
    ensures only { IfOk result (λ p. (segments : List (List ℕ)) → IsPathText text.now segments
        → segments ≡ p) }
    // A text is refused only where what it says is no path, and for the reason that is given; or
    // for want of memory.
    ensures refused { IfErr result (λ e. (e ≡ PathRefusal.Memory)
        ⊎ (IsNoPath text.now × IsTrueOf e text.now)) }
{
    let rest = text.strip_prefix('/').unwrap_or(text);
    let mut path = Path::new(alloc);
    if rest.is_empty() {
        return Ok(path);
    }
    for segment in rest.split('/') {
        path.push(segment.as_bytes())?;
    }
    Ok(path)
}
