//! The words that name what happens, and a method.
ghost use Rattle.std.specs.Prelude.{◌≡◌, IfErr, IfOk};
ghost use Rattle.coap_types.specs.declared.request.Method.{Method as MethodSpec};
ghost use Rattle.coap_scripts.specs.ScriptWords.{kind_word, method_word};
ghost use Rattle.coap_scripts.specs.declared.script.words.Kind.{Kind as KindSpec};

use crate::script::refusal::LineRefusal;
use coap_types::Method;

/// Which kind of event it is.
#[derive(Clone, Copy, Debug, PartialEq, Eq)]
pub(super) enum Kind {
    Call,
    Observe,
    Cancel,
    Forget,
    Set,
    Remove,
    Tick,
    Deliver,
    Stranger,
}

/// The kind of event that a word names.
pub(super) fn kind_named(word: &[u8]) -> Result<Kind, LineRefusal>
    ensures named { IfOk result (λ kind. word.now ≡ kind_word kind) }
    ensures refused { IfErr result (λ e. (e ≡ LineRefusal.Unreadable)
        × ((kind : KindSpec) → word.now ≡ kind_word kind → ⊥)) }
{
    match word {
        b"call" => Ok(Kind::Call),
        b"observe" => Ok(Kind::Observe),
        b"cancel" => Ok(Kind::Cancel),
        b"forget" => Ok(Kind::Forget),
        b"set" => Ok(Kind::Set),
        b"remove" => Ok(Kind::Remove),
        b"tick" => Ok(Kind::Tick),
        b"deliver" => Ok(Kind::Deliver),
        b"stranger" => Ok(Kind::Stranger),
        _ => Err(LineRefusal::Unreadable),
    }
}

/// The method that a word names.
pub(super) fn method_named(word: &[u8]) -> Result<Method, LineRefusal>
    ensures named { IfOk result (λ method. word.now ≡ method_word method) }
    ensures refused { IfErr result (λ e. (e ≡ LineRefusal.Unreadable)
        × ((method : MethodSpec) → word.now ≡ method_word method → ⊥)) }
{
    match word {
        b"get" => Ok(Method::Get),
        b"post" => Ok(Method::Post),
        b"put" => Ok(Method::Put),
        b"delete" => Ok(Method::Delete),
        _ => Err(LineRefusal::Unreadable),
    }
}
