//! The words that name a setting.
ghost use Rattle.std.specs.Prelude.{◌≡◌, IfErr, IfOk};
ghost use Rattle.coap_scripts.specs.Settings.{setting_word};
ghost use Rattle.coap_scripts.specs.declared.script.setting_words.SettingKind.{SettingKind as KindSpec};

use crate::script::refusal::LineRefusal;

/// Which kind of setting it is.
#[derive(Clone, Copy, Debug, PartialEq, Eq)]
pub(super) enum SettingKind {
    Hold,
    Delay,
    Plain,
    Limit,
}

/// The kind of setting that a word names.
pub(super) fn setting_named(word: &[u8]) -> Result<SettingKind, LineRefusal>
    ensures named { IfOk result (λ kind. word.now ≡ setting_word kind) }
    ensures refused { IfErr result (λ e. (e ≡ LineRefusal.Unreadable)
        × ((kind : KindSpec) → word.now ≡ setting_word kind → ⊥)) }
{
    match word {
        b"hold" => Ok(SettingKind::Hold),
        b"delay" => Ok(SettingKind::Delay),
        b"plain" => Ok(SettingKind::Plain),
        b"limit" => Ok(SettingKind::Limit),
        _ => Err(LineRefusal::Unreadable),
    }
}
