//! A server's script: how it is set up as text, a setting a line.
ghost use Rattle.std.specs.Prelude.{◌≡◌, ◌⊎◌, ℕ, IfErr, IfOk, map};
ghost use Rattle.coap_scripts.specs.Script.{EachOf, IsFirstBad, lines_of};
ghost use Rattle.coap_scripts.specs.Settings.{SaysSetting, setting_of};
ghost use Rattle.coap_scripts.specs.declared.script.refusal.ScriptRefusal.TheVariants as refusal;

use crate::script::first_line;
use crate::script::refusal::ScriptRefusal;
use crate::script::setting_line::setting_of_line;
use bytes::Bytes;
use coap_types::{BodyLimit, Path};
use std::alloc::{Allocator, Global};

/// What a line says of how a server is set up.
#[derive(Drop)]
pub enum Setting<A: Allocator = Global> {
    /// Nothing.
    Nothing,
    /// What a path holds: the format of a body, and the body.
    Hold(Path<A>, u16, Bytes<A>),
    /// How many milliseconds the requests of a path wait.
    Delay(Path<A>, u64),
    /// That the observers of a path are told in Non-confirmable messages where they may be.
    Plain(Path<A>),
    /// The longest body that the server takes.
    Limit(BodyLimit),
}

/// The settings that the lines of a script say, in its order. A line that is empty, or begins with `#`, says nothing,
/// and is one of them. After the last line there may be a line end or none.
pub fn settings_of<A: Allocator + Copy>(
    alloc: A,
    script: &[u8],
) -> Result<Vec<Setting<A>, A>, ScriptRefusal>
    // A server's script is read as the settings that its lines say, each of them one, in their order.
    ensures said { IfOk result (λ settings. EachOf SaysSetting (lines_of script.now) (map setting_of settings.items)) }
    // A server's script is refused for its first line that says no setting, or for want of memory.
    ensures refused { IfErr result (λ e. (e ≡ refusal.Memory)
        ⊎ ((number : ℕ) × (e ≡ refusal.Line number) × IsFirstBad SaysSetting (lines_of script.now) number)) }
{
    let mut settings = Vec::new(alloc);
    let mut left = script;
    'lines: while !left.is_empty() {
        let (line, behind) = first_line(left);
        match setting_of_line(alloc, line) {
            Ok(setting) => settings.push(setting)?,
            Err(refusal) => return Err(refusal.at(settings.len() + 1)),
        }
        left = behind;
    }
    Ok(settings)
}
