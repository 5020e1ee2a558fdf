//! What counts over the turns of an end.
ghost use Rattle.std.specs.Prelude.{◌≡◌};
ghost use Rattle.coap_links.specs.Turning.{counted, fed, next_word, refused, worded};

use crate::driver::Pumped;
use crate::link::raise;

/// What counts over the turns of an end.
#[derive(Clone, Copy, Debug, PartialEq, Eq)]
pub struct Tally {
    /// The word of the last feed or tick; before the first, the word that the end began with.
    pub word: u64,
    /// How many datagrams were fed, up to the last value.
    pub fed: u64,
    /// How many feeds and ticks were refused memory, up to the last value.
    pub refused: u64,
}

/// Before the first turn of an end that began with this word.
pub fn fresh_tally(word: u64) -> Tally
    // A fresh tally has that word, and has counted nothing.
    ensures { result ≡ record { word = word; fed = 0; refused = 0 } }
{
    Tally {
        word,
        fed: 0,
        refused: 0,
    }
}

/// The word of the next feed or tick: the k-th, from 1, is handed the first word plus k, wrapping.
pub(crate) fn next_word(tally: &Tally) -> u64
    ensures { result ≡ next_word tally.now }
{
    tally.word.wrapping_add(1)
}

/// After a call that was handed its word.
pub(crate) fn count_word(tally: &mut Tally)
    ensures { tally.new ≡ worded tally.old }
{
    tally.word = next_word(tally);
}

/// After a pump that was not refused memory.
pub(crate) fn count_pumped(tally: &mut Tally, pumped: Pumped)
    ensures { tally.new ≡ counted pumped tally.old }
{
    if pumped.fed {
        count_fed(tally);
    }
}

// After a feed that was not refused memory.
fn count_fed(tally: &mut Tally)
    ensures { tally.new ≡ fed tally.old }
{
    count_word(tally);
    tally.fed = raise(tally.fed);
}

/// After a feed or a tick that was refused memory.
pub(crate) fn count_refused(tally: &mut Tally)
    ensures { tally.new ≡ refused tally.old }
{
    count_word(tally);
    tally.refused = raise(tally.refused);
}
