//! What the words say of a journal, and of the server that goes on from it.
ghost use Rattle.std.specs.Prelude.{◌≡◌, IfOk, fold};
ghost use Rattle.coap_wires.specs.Words.{IsRandom};
ghost use Rattle.coap_serving.specs.KeptWords.{AreWishesBy, IsDrawnBy, IsDrawnFrom, IsSaidSetup, base_choice};
ghost use Rattle.coap_serving.specs.KeptWords.{choice_if, said};
ghost use Rattle.coap_serving.specs.KeptWords.{said_beside, setup_bytes, with_delay_bytes, with_plain_bytes, word_if};

use coap_arguments::{Delay, Journal, ServeOptions, WordChoice};
use coap_common::largest_szx;
use coap_journal::{Beginning, Configuration, Seed, delay_bytes, plain_bytes};
use coap_journal_file::Wishes;
use coap_kept::Keeping;
use coap_resource::MAX_CHANGES_PER_WINDOW;
use coap_status::Stop;
use coap_types::{BodyLimit, Path, Remembered};
use coap_wires::{Draws, base_of, random_word, word_of};
use std::alloc::Global;

// Adds the inputs of delays.
fn add_delays(alloc: Global, inputs: &mut Vec<u8>, delays: &[Delay]) -> Result<(), Stop>
    ensures { IfOk result (λ _. inputs.new.items ≡ fold with_delay_bytes inputs.old.items delays.now) }
{
    for delay in delays {
        let bytes = delay_bytes(alloc, &delay.path, delay.ms)?;
        inputs.extend_from_slice(bytes.as_slice())?;
    }
    Ok(())
}

// Adds the inputs of plain paths.
fn add_plains(alloc: Global, inputs: &mut Vec<u8>, paths: &[Path]) -> Result<(), Stop>
    ensures { IfOk result (λ _. inputs.new.items ≡ fold with_plain_bytes inputs.old.items paths.now) }
{
    for path in paths {
        let bytes = plain_bytes(alloc, path)?;
        inputs.extend_from_slice(bytes.as_slice())?;
    }
    Ok(())
}

/// The inputs that a server takes before any other: its delays and its plain paths.
pub(crate) fn setup_of(alloc: Global, options: &ServeOptions) -> Result<Vec<u8>, Stop>
    ensures { IfOk result (λ inputs. inputs.items ≡ setup_bytes options.now) }
{
    let mut inputs = Vec::new(alloc);
    add_delays(alloc, &mut inputs, options.delays.as_slice())?;
    add_plains(alloc, &mut inputs, options.plains.as_slice())?;
    Ok(inputs)
}

/// What else the words say beside a journal.
#[derive(Clone, Copy)]
pub(crate) struct Says {
    /// Whether they say a word.
    pub(crate) word: bool,
    /// .. a limit.
    pub(crate) limit: bool,
    /// .. how many messages are remembered.
    pub(crate) remembered: bool,
    /// Whether the file is begun anew.
    pub(crate) renews: bool,
}

/// What the words say beside this journal.
pub(crate) fn says_of(journal: Journal<'_>) -> Says
    ensures { result ≡ said_beside journal.entry }
{
    Says {
        word: journal.says_word,
        limit: journal.says_limit,
        remembered: journal.says_remembered,
        renews: journal.renews,
    }
}

// The word that is said, if any.
fn said_word(is_said: bool, choice: WordChoice) -> Option<u64>
    ensures { result ≡ word_if is_said choice }
{
    match (is_said, choice) {
        (true, WordChoice::Given(word)) => Some(word),
        (true, WordChoice::Random) | (false, _) => None,
    }
}

// The limit that is said, if any.
fn said_limit(is_said: bool, limit: BodyLimit) -> Option<BodyLimit>
    ensures { result ≡ said is_said limit }
{
    if is_said { Some(limit) } else { None }
}

// The number of remembered messages that is said, if any.
fn said_number(is_said: bool, remembered: Remembered) -> Option<Remembered>
    ensures { result ≡ said is_said remembered }
{
    if is_said { Some(remembered) } else { None }
}

// The inputs that are said, if any.
fn said_setup(setup: &[u8]) -> Option<&[u8]>
    ensures { IsSaidSetup setup.now result }
{
    match setup {
        [] => None,
        [_, ..] => Some(setup),
    }
}

// What the words say of how a server began.
fn wishes_of<'a>(options: &ServeOptions, says: Says, setup: &'a [u8]) -> Wishes<'a>
    ensures { AreWishesBy options.now says setup.now result }
{
    Wishes {
        word: said_word(says.word, options.word),
        limit: said_limit(says.limit, options.limit),
        remembered: said_number(says.remembered, options.remembered),
        setup: said_setup(setup),
    }
}

// The word that a server begins with that has no journal yet: the one that the words say, if any.
fn choice_of(options: &ServeOptions, says: Says) -> WordChoice
    ensures { result ≡ choice_if says.word options.now.word }
{
    if says.word {
        options.word
    } else {
        WordChoice::Random
    }
}

// The version after which its versions begin: one that is drawn for a server that begins anew, whatever its word.
fn base_for(choice: WordChoice, says: Says) -> WordChoice
    ensures { result ≡ base_choice says.renews choice }
{
    if says.renews {
        WordChoice::Random
    } else {
        choice
    }
}

// What it is to have drawn, or to be given.
fn seed_of<R: Draws>(rt: &R, word: u64) -> Result<Seed, Stop>
    ensures word { IfOk result (λ seed. seed.word ≡ word) }
    ensures keys { IfOk result (λ seed. IsRandom (R.draws rt.now) seed.key0 × IsRandom (R.draws rt.now) seed.key1) }
{
    let key0 = random_word(rt)?;
    let key1 = random_word(rt)?;
    Ok(Seed { word, key0, key1 })
}

/// What a server begins with that has no journal yet, or that begins anew: what the words say, and else what is drawn.
pub(crate) fn drawn_of<R: Draws>(
    rt: &R,
    options: &ServeOptions,
    says: Says,
) -> Result<Beginning, Stop>
    ensures words { IfOk result (IsDrawnBy options.now says) }
    ensures drawn { IfOk result (IsDrawnFrom (R.draws rt.now) options.now says) }
{
    let choice = choice_of(options, says);
    let word = word_of(rt, choice)?;
    let base = base_of(rt, base_for(choice, says))?;
    let seed = seed_of(rt, word)?;
    let configuration = Configuration {
        szx: largest_szx(),
        limit: options.limit,
        remembered: options.remembered,
        changes: MAX_CHANGES_PER_WINDOW,
    };
    Ok(Beginning {
        configuration,
        seed,
        base: base.get(),
    })
}

/// What the program says of a journal of this name: what the words say, and what is drawn where they say nothing.
pub(crate) fn keeping_of<'a>(
    options: &ServeOptions,
    says: Says,
    drawn: Beginning,
    name: &'a str,
    setup: &'a [u8],
) -> Keeping<'a>
    ensures name { result.name.now ≡ name.now }
    ensures wishes { AreWishesBy options.now says setup.now result.wishes }
    ensures drawn { result.drawn ≡ drawn }
    ensures setup { result.setup.now ≡ setup.now }
    ensures renews { result.renews ≡ says.renews }
{
    Keeping {
        name,
        wishes: wishes_of(options, says, setup),
        drawn,
        setup,
        renews: says.renews,
    }
}
