//! The path that a text says, with the answer of a call that is handed a text that says none.
ghost use Rattle.std.specs.Prelude.{◌≡◌, ◌≢◌, ◌⊎◌, IfOk, IfErr, OnOk};
ghost use Rattle.coap_paths.specs.PathTexts.{SpellsPath, spelled};
ghost use Rattle.knifesilver.specs.Answers.{IsRefused};
ghost use Rattle.knifesilver.specs.PathRefusals.{RefusesPath};

use crate::answers::{BAD_PATH, NO_MEMORY, NOT_LIVE, SMALL_ROOM};
use coap_paths::PathTextRefusal;
use coap_types::Path;
use std::alloc::Global;

/// The path that a text says, else what the call answers.
pub(crate) fn path_of(alloc: Global, text: &[u8]) -> Result<Path, i32>
    ensures spelled { IfOk result (λ path. path ≡ spelled text.now) }
    ensures fits { OnOk result (SpellsPath text.now) }
    ensures path { IfErr result (RefusesPath text.now) }
    ensures either { IfErr result (λ answer. (answer ≡ BAD_PATH) ⊎ (answer ≡ NO_MEMORY)) }
    ensures refused { IfErr result IsRefused }
    ensures live { IfErr result (λ answer. answer ≢ NOT_LIVE) }
    ensures room { IfErr result (λ answer. answer ≢ SMALL_ROOM) }
{
    match coap_paths::path_of(alloc, text) {
        Ok(path) => Ok(path),
        Err(PathTextRefusal::BadText) => Err(BAD_PATH),
        Err(PathTextRefusal::Memory) => Err(NO_MEMORY),
    }
}
