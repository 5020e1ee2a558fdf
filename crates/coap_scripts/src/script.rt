//! Scripts: the events of a run, or how a server is set up, as text, one a line.
mod fields;
mod line;
mod paths;
mod refusal;
mod setting_line;
mod setting_words;
mod settings;
mod words;

ghost use Rattle.std.specs.Prelude.{◌≡◌, ◌⊎◌, ◌≢◌, [], ℕ, Err, IfOk, map};
ghost use Rattle.coap_run.specs.Run.Happening.{event_of};
ghost use Rattle.coap_scripts.specs.Script.{EachSays, IsFirstBad, SaysEvent, lines_of};
ghost use Rattle.coap_scripts.specs.ScriptWords.{IsCut, Lacks};

use crate::script::fields::cut_at;
use crate::script::line::event_of_line;
use coap_run::Event;
pub use paths::paths_of;
pub use refusal::ScriptRefusal;
pub use settings::{Setting, settings_of};
use std::alloc::Allocator;

// What ends a line.
const LINE_END: u8 = b'\n';

// The first line of a text that is not empty, and what comes after its line end, if it has one.
fn first_line(text: &[u8]) -> (&[u8], &[u8])
    ensures { IsCut LINE_END text.now result.0.now result.1.now
        ⊎ (Lacks LINE_END text.now × (result.0.now ≡ text.now) × (result.1.now ≡ [])) }
{
    match cut_at(text, LINE_END) {
        Some(parts) => parts,
        None => (text, &[]),
    }
}

/// The events that the lines of a script say, in its order. After its last line there may be a line
/// end or none; the empty script has no line.
pub fn events_of<A: Allocator + Copy>(
    alloc: A,
    script: &[u8],
) -> Result<Vec<Event<A>, A>, ScriptRefusal>
    // A script is read as the events that its lines say, one a line, and no line is left out.
    ensures said { IfOk result (λ events. EachSays (lines_of script.now) (map event_of events.items)) }
    // The line of a script whose number is answered is the first that says no event.
    ensures no_event { (number : ℕ) → result ≡ Err (ScriptRefusal.Line number)
        → IsFirstBad SaysEvent (lines_of script.now) number }
{
    let _len = script.len();
    let mut events = Vec::new(alloc);
    let mut number: usize = 0;
    let mut left = script;
    'lines: while !left.is_empty() {
        let (line, behind) = first_line(left);
        number += 1;
        match event_of_line(alloc, line) {
            Ok(event) => events.push(event)?,
            Err(refusal) => return Err(refusal.at(number)),
        }
        left = behind;
    }
    Ok(events)
}
