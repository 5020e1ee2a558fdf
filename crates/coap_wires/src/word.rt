//! The word that an end begins with, and the version after which a server's versions begin.
ghost use Rattle.std.specs.Prelude.{◌≡◌, ⊤, ℕ, List, IfOk};
ghost use Rattle.std.specs.Int.{from_le_bytes, w64};
ghost use Rattle.coap_wires.specs.Words.{IsBaseOf, IsDrawnBase, IsDrawnWord, IsOrigin, IsRandom, IsWord};

use coap_arguments::WordChoice;
use coap_resource::VersionBase;
use coap_status::Stop;
use std::io;
use std::random::RandomSource;

// The bytes of a word.
const WORD_LEN: usize = size_of::<u64>();

const _: () = prove!(WORD_LEN == 8);

/// What a server begins with that is drawn where nobody gives it.
#[derive(Clone, Copy, Debug, PartialEq, Eq)]
pub struct Origin {
    /// Its word.
    pub word: u64,
    /// The version after which its versions begin.
    pub base: VersionBase,
}

/// Where the bytes of a word are drawn from.
pub trait Draws {
    /// Which bytes it may give.
    ghost draws: { Self → List ℕ → Type 0 };

    /// The bytes of a word.
    fn draw(&self) -> io::Result<[u8; WORD_LEN]>
        // The bytes of a word are some that its source may give.
        ensures { IfOk result (draws self.now) };
}

/// Nothing is known of the bytes that the system gives.
impl<R: RandomSource> Draws for R {
    ghost draws = { λ _ _. ⊤ };

    fn draw(&self) -> io::Result<[u8; WORD_LEN]> {
        let mut bytes = [0; WORD_LEN];
        self.fill_bytes(&mut bytes)?;
        Ok(bytes)
    }
}

// The word that has these bytes, the least first.
fn word_in(bytes: [u8; WORD_LEN]) -> u64
    ensures { result ≡ from_le_bytes w64 bytes }
{
    u64::from_le_bytes(bytes)
}

/// A word that is drawn.
pub fn random_word<R: Draws>(rt: &R) -> Result<u64, Stop>
    // A word that is drawn has bytes that its source may give, the least first.
    ensures { IfOk result (IsRandom (R.draws rt.now)) }
{
    let bytes = rt.draw()?;
    Ok(word_in(bytes))
}

/// The word that is chosen; a random one is drawn.
pub fn word_of<R: Draws>(rt: &R, choice: WordChoice) -> Result<u64, Stop>
    // The word is the one that is chosen; a random one may be any.
    ensures word { IfOk result (IsWord choice) }
    // A word that is not chosen is drawn.
    ensures drawn { IfOk result (IsDrawnWord (R.draws rt.now) choice) }
{
    match choice {
        WordChoice::Given(word) => Ok(word),
        WordChoice::Random => random_word(rt),
    }
}

/// The version after which a server's versions begin: a random one, so that no entity-tag of a former life names
/// another body (RFC 7252, section 5.10.6). With a word that is given it is 0: the server begins as it did with that
/// word before.
pub fn base_of<R: Draws>(rt: &R, choice: WordChoice) -> Result<VersionBase, Stop>
    // With a word that is chosen versions begin after 0, and else after some base.
    ensures base { IfOk result (IsBaseOf choice) }
    // With a word that is not chosen the base of versions is made of a word that is drawn.
    ensures drawn { IfOk result (IsDrawnBase (R.draws rt.now) choice) }
{
    match choice {
        WordChoice::Given(_) => Ok(VersionBase::default()),
        WordChoice::Random => {
            let word = random_word(rt)?;
            let base = VersionBase::drawn(word);
            let _version = base.get();
            Ok(base)
        }
    }
}

/// What a server begins with.
pub fn origin_of<R: Draws>(rt: &R, choice: WordChoice) -> Result<Origin, Stop>
    // A server begins with the word and the base that the choice of its word says.
    ensures origin { IfOk result (IsOrigin choice) }
    // The word and the base of a server whose word is not chosen are drawn.
    ensures drawn { IfOk result (λ origin. IsDrawnWord (R.draws rt.now) choice origin.word
        × IsDrawnBase (R.draws rt.now) choice origin.base) }
{
    let word = word_of(rt, choice)?;
    let base = base_of(rt, choice)?;
    Ok(Origin { word, base })
}
