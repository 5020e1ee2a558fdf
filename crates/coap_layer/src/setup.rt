//! With what a message layer begins.
ghost use Rattle.std.specs.Prelude.{◌≡◌};
ghost use Rattle.coap_layer.specs.Machine.State.{usual};

use coap_types::Remembered;

/// How a layer begins.
#[derive(Clone, Copy, Debug, PartialEq, Eq)]
pub struct Setup {
    /// The word that picks its first Message ID: the first of group `word` mod 16.
    pub word: u64,
    /// How many messages it remembers at most.
    pub remembered: Remembered,
}

impl Setup {
    /// With this word, and as many messages that are remembered as where no other number is chosen.
    pub fn new(word: u64) -> Setup
        // A `new` setup has its word, and remembers 4,096 messages.
        ensures { result ≡ usual word }
    {
        Setup {
            word,
            remembered: Remembered::default(),
        }
    }
}
