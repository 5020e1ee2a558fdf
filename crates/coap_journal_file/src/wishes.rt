//! What the words of a program say of a journal that is there already.
ghost use Rattle.std.specs.Prelude.{◌≡◌, true, false, IfNone, IfSome};
ghost use Rattle.coap_journal_file.specs.Wishes.{AgreesOn, Differs, DiffersOn, IsWished, IsWishedSetup};

use crate::judging::Began;
use coap_journal::Beginning;
use coap_types::{BodyLimit, Remembered};
use thiserror::Error;

/// What words say of how a server began. What they don't say is the file's.
#[derive(Clone, Copy, Debug)]
pub struct Wishes<'a> {
    /// The word that it begins with.
    pub word: Option<u64>,
    /// The longest body that it takes.
    pub limit: Option<BodyLimit>,
    /// How many messages it remembers.
    pub remembered: Option<Remembered>,
    /// The inputs that it takes before any other: delays and plain paths.
    pub setup: Option<&'a [u8]>,
}

/// What a server began with that the words say otherwise.
#[derive(Clone, Copy, Debug, PartialEq, Eq, Error)]
pub enum Differing {
    /// Another word, which nobody is told.
    #[error("--word")]
    Word,
    /// This limit.
    #[error("--limit {0}")]
    Limit(usize),
    /// So many remembered messages.
    #[error("--remember {0}")]
    Remembered(usize),
    /// Other delays or other plain paths.
    #[error("--delay or --plain")]
    Setup,
}

// Whether a word is the one that is wished for, if any is.
fn is_wished(wish: Option<u64>, word: u64) -> bool
    ensures met { result ≡ true → IsWished wish word }
    ensures other { result ≡ false → IsWished wish word → ⊥ }
{
    match wish {
        Some(wished) => wished == word,
        None => true,
    }
}

// .. a limit.
fn is_wished_limit(wish: Option<BodyLimit>, limit: BodyLimit) -> bool
    ensures met { result ≡ true → IsWished wish limit }
    ensures other { result ≡ false → IsWished wish limit → ⊥ }
{
    match wish {
        Some(wished) => wished.get() == limit.get(),
        None => true,
    }
}

// .. a number of remembered messages.
fn is_wished_number(wish: Option<Remembered>, remembered: Remembered) -> bool
    ensures met { result ≡ true → IsWished wish remembered }
    ensures other { result ≡ false → IsWished wish remembered → ⊥ }
{
    match wish {
        Some(wished) => wished.get() == remembered.get(),
        None => true,
    }
}

// .. the inputs that were taken first. Where no frame follows the first one they can be taken yet.
fn is_wished_setup(wish: Option<&[u8]>, began: &Began<'_>) -> bool
    ensures met { result ≡ true → IsWishedSetup wish.entry began.now }
    ensures other { result ≡ false → IsWishedSetup wish.entry began.now → ⊥ }
{
    let Some(wished) = wish else {
        return true;
    };
    if began.whole.frames <= 1 {
        return true;
    }
    match began.setup {
        Some(setup) => setup == wished,
        None => false,
    }
}

/// What a server began with that the words say otherwise, if anything; of its setup nothing is said.
pub fn differing_beginning(beginning: &Beginning, wishes: &Wishes<'_>) -> Option<Differing>
    // No number differs where the server began with each one that the words say.
    ensures none { IfNone result (AgreesOn wishes.now beginning.now) }
    // What is named of a beginning is something that the words say otherwise.
    ensures some { IfSome result (DiffersOn wishes.now beginning.now) }
{
    if !is_wished(wishes.word, beginning.seed.word) {
        return Some(Differing::Word);
    }
    let configuration = beginning.configuration;
    if !is_wished_limit(wishes.limit, configuration.limit) {
        return Some(Differing::Limit(configuration.limit.get()));
    }
    if !is_wished_number(wishes.remembered, configuration.remembered) {
        return Some(Differing::Remembered(configuration.remembered.get()));
    }
    None
}

/// What a server began with that the words say otherwise, if anything.
pub fn what_differs(began: &Began<'_>, wishes: &Wishes<'_>) -> Option<Differing>
    // Nothing differs where the server began with each thing that the words say.
    ensures none { IfNone result (AgreesOn wishes.now began.now.beginning × IsWishedSetup wishes.now.setup began.now) }
    // What is named is something that the words say otherwise.
    ensures some { IfSome result (Differs wishes.now began.now) }
{
    let number = differing_beginning(&began.beginning, wishes);
    if number.is_some() {
        return number;
    }
    if is_wished_setup(wishes.setup, began) {
        None
    } else {
        Some(Differing::Setup)
    }
}
