//! What a run of a client is connected to, and on which terms it runs.
ghost use Rattle.std.specs.Prelude.{◌≡◌};
ghost use Rattle.coap_waits.specs.Terms.{asked_terms, setup_of};

use coap_arguments::AskOptions;
use coap_layer::Setup;
use coap_types::{BodyLimit, Remembered, Szx};

/// What a run is connected to.
#[derive(Drop)]
pub struct Connection<'l, 't, 'e, L, T, E> {
    /// The link to its server.
    pub link: &'l mut L,
    /// The clock that its turns read.
    pub time: &'t mut T,
    /// Standard error.
    pub err: &'e mut E,
}

impl<'l, 't, 'e, L, T, E> Connection<'l, 't, 'e, L, T, E> {
    /// By this link, this clock and this standard error.
    pub fn new(
        link: &'l mut L,
        time: &'t mut T,
        err: &'e mut E,
    ) -> Connection<'l, 't, 'e, L, T, E> {
        Connection { link, time, err }
    }
}

/// The terms of a client.
#[derive(Clone, Copy, Debug)]
pub struct Terms {
    /// The word that it begins with.
    pub word: u64,
    /// How many messages it remembers.
    pub remembered: Remembered,
    /// The size of its blocks.
    pub size: Szx,
    /// The longest body that it takes.
    pub limit: BodyLimit,
    /// After how many seconds it gives up.
    pub give_up: Option<u64>,
    /// Whether what became of a request is told in JSON.
    pub json: bool,
}

impl Terms {
    /// The terms that the options say, with this word.
    pub fn of(options: &AskOptions, word: u64) -> Terms
        // The terms are those of the options, and the word is that which is given.
        ensures { result ≡ asked_terms word options.now }
    {
        Terms {
            word,
            remembered: options.remembered,
            size: options.size,
            limit: options.limit,
            give_up: options.give_up,
            json: options.json,
        }
    }

    /// With what the client's message layer begins.
    pub fn setup(&self) -> Setup
        // A message layer begins with the word of the terms, and remembers as many messages.
        ensures { result ≡ setup_of self.now }
    {
        Setup {
            word: self.word,
            remembered: self.remembered,
        }
    }
}
