//! Paths as text, one a line.
ghost use Rattle.std.specs.Prelude.{◌≡◌, ℕ, Err, IfOk};
ghost use Rattle.coap_scripts.specs.Script.{EachNames, IsFirstBad, NamesPath, lines_of};

use crate::script::fields::path;
use crate::script::first_line;
use crate::script::refusal::ScriptRefusal;
use coap_types::Path;
use std::alloc::Allocator;

/// The paths that the lines of a text say, in its order. After its last line there may be a line end or none; the
/// empty text has no line.
pub fn paths_of<A: Allocator + Copy>(
    alloc: A,
    text: &[u8],
) -> Result<Vec<Path<A>, A>, ScriptRefusal>
    // The lines of the text say these paths, one a line, and none of them is passed over.
    ensures said { IfOk result (λ paths. EachNames (lines_of text.now) paths.items) }
    // The line whose number is answered is the first that says no path.
    ensures no_path { (number : ℕ) → result ≡ Err (ScriptRefusal.Line number)
        → IsFirstBad (λ path line. NamesPath line path) (lines_of text.now) number }
{
    let _len = text.len();
    let mut paths = Vec::new(alloc);
    let mut number: usize = 0;
    let mut left = text;
    'lines: while !left.is_empty() {
        let (line, behind) = first_line(left);
        number += 1;
        match path(alloc, line) {
            Ok(found) => paths.push(found)?,
            Err(refusal) => return Err(refusal.at(number)),
        }
        left = behind;
    }
    Ok(paths)
}
