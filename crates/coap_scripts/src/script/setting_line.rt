//! The setting that a line says.
ghost use Rattle.std.specs.Prelude.{◌≡◌, ◌≢◌, ◌⊎◌, ◌<◌, ◌≤◌, ◌^◌, ℕ, List, [], IfErr, IfOk};
ghost use Rattle.coap_types.specs.declared.body_limit.TheConstants.{MAX_BODY_LIMIT as max_body_limit};
ghost use Rattle.coap_scripts.specs.ScriptWords.{SaysNumber};
ghost use Rattle.coap_scripts.specs.Settings.{SaysContent, SaysDelay, SaysFront, SaysHold, SaysLimit};
ghost use Rattle.coap_scripts.specs.Settings.{SaysNoSetting, SaysPlain, SaysSetting, is_comment, setting_of};

use crate::script::fields::{cut, last_word, number, path};
use crate::script::refusal::LineRefusal;
use crate::script::setting_words::{SettingKind, setting_named};
use crate::script::settings::Setting;
use bytes::Bytes;
use coap_types::{BodyLimit, Path};
use std::alloc::Allocator;

// What a line begins with that says nothing.
const COMMENT: u8 = b'#';

// Whether a line says nothing.
fn is_comment(line: &[u8]) -> bool
    ensures { result ≡ is_comment line.now }
{
    match line {
        [] => true,
        [first, ..] => *first == COMMENT,
    }
}

/// The setting that a line says: a word, and the words after that; or nothing.
pub(super) fn setting_of_line<A: Allocator + Copy>(
    alloc: A,
    line: &[u8],
) -> Result<Setting<A>, LineRefusal>
    ensures said { IfOk result (λ s. SaysSetting (setting_of s) line.now) }
    ensures refused { IfErr result (λ e. (e ≡ LineRefusal.Memory)
        ⊎ ((e ≡ LineRefusal.Unreadable) × SaysNoSetting line.now)) }
{
    if is_comment(line) {
        return Ok(Setting::Nothing);
    }
    let (word, rest) = cut(line)?;
    match setting_named(word)? {
        SettingKind::Hold => {
            let (path, format, body) = hold(alloc, rest)?;
            Ok(Setting::Hold(path, format, body))
        }
        SettingKind::Delay => {
            let (path, ms) = delay(alloc, rest)?;
            Ok(Setting::Delay(path, ms))
        }
        SettingKind::Plain => Ok(Setting::Plain(plain_path(alloc, rest)?)),
        SettingKind::Limit => Ok(Setting::Limit(limit(rest)?)),
    }
}

// A path, and what it holds.
fn hold<A: Allocator + Copy>(alloc: A, line: &[u8]) -> Result<(Path<A>, u16, Bytes<A>), LineRefusal>
    ensures said { IfOk result (λ it. SaysHold it.0 it.1 it.2 line.now) }
    ensures refused { IfErr result (λ e. (e ≡ LineRefusal.Memory) ⊎ ((e ≡ LineRefusal.Unreadable)
        × ((path : List (List ℕ)) (format : ℕ) (body : List ℕ) → SaysHold path format body line.now → ⊥))) }
{
    let (path, rest) = front(alloc, line)?;
    let (format, body) = content(rest)?;
    let body = Bytes::copy_from_slice(alloc, body)?;
    Ok((path, format, body))
}

// A path, and how long its requests wait.
fn delay<A: Allocator + Copy>(alloc: A, line: &[u8]) -> Result<(Path<A>, u64), LineRefusal>
    ensures said { IfOk result (λ it. SaysDelay it.0 it.1 line.now) }
    ensures refused { IfErr result (λ e. (e ≡ LineRefusal.Memory) ⊎ ((e ≡ LineRefusal.Unreadable)
        × ((path : List (List ℕ)) (ms : ℕ) → SaysDelay path ms line.now → ⊥))) }
{
    let (path, rest) = front(alloc, line)?;
    let ms = number(rest)?;
    Ok((path, ms))
}

// A word, which is a path, and what comes behind the space after it.
fn front<A: Allocator + Copy>(alloc: A, line: &[u8]) -> Result<(Path<A>, &[u8]), LineRefusal>
    ensures said { IfOk result (λ it. SaysFront it.0 it.1.now line.now) }
    ensures refused { IfErr result (λ e. (e ≡ LineRefusal.Memory) ⊎ ((e ≡ LineRefusal.Unreadable)
        × ((path : List (List ℕ)) (rest : List ℕ) → SaysFront path rest line.now → ⊥))) }
{
    let (word, rest) = cut(line)?;
    if word.is_empty() {
        return Err(LineRefusal::Unreadable);
    }
    let path = path(alloc, word)?;
    Ok((path, rest))
}

// The format of a body, and the body.
fn content(line: &[u8]) -> Result<(u16, &[u8]), LineRefusal>
    ensures said { IfOk result (λ it. SaysContent it.0 it.1.now line.now) }
    ensures refused { IfErr result (λ e. (e ≡ LineRefusal.Unreadable)
        × ((format : ℕ) (body : List ℕ) → SaysContent format body line.now → ⊥)) }
{
    let (digits, body) = cut(line)?;
    let format = small_number(digits)?;
    Ok((format, body))
}

// The number of 16 bits that a word says.
fn small_number(word: &[u8]) -> Result<u16, LineRefusal>
    ensures said { IfOk result (λ n. SaysNumber word.now n) }
    ensures refused { IfErr result (λ e. (e ≡ LineRefusal.Unreadable)
        × ((n : ℕ) → SaysNumber word.now n → n < 2 ^ 16 → ⊥)) }
{
    match u16::try_from(number(word)?) {
        Ok(small) => Ok(small),
        Err(_) => Err(LineRefusal::Unreadable),
    }
}

// A path that ends the line.
fn plain_path<A: Allocator + Copy>(alloc: A, line: &[u8]) -> Result<Path<A>, LineRefusal>
    ensures said { IfOk result (λ path. SaysPlain path line.now) }
    ensures refused { IfErr result (λ e. (e ≡ LineRefusal.Memory) ⊎ ((e ≡ LineRefusal.Unreadable)
        × ((path : List (List ℕ)) → SaysPlain path line.now → ⊥))) }
{
    path(alloc, last_word(line)?)
}

// The longest body.
fn limit(line: &[u8]) -> Result<BodyLimit, LineRefusal>
    ensures said { IfOk result (λ most. SaysLimit most line.now) }
    ensures refused { IfErr result (λ e. (e ≡ LineRefusal.Unreadable)
        × ((most : ℕ) → SaysLimit most line.now → ⊥)) }
{
    match BodyLimit::new(number(line)? as usize) {
        Some(limit) => Ok(limit),
        None => Err(LineRefusal::Unreadable),
    }
}
