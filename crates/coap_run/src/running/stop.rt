//! Why a run goes no further.
ghost use Rattle.std.specs.Prelude.{◌≡◌};
ghost use Rattle.coap_run.specs.declared.running.stop.Stop.TheVariants.{Memory};

use std::alloc::{AllocError, AllocFailed};

/// Why a run goes no further.
#[derive(Clone, Copy, Debug, PartialEq, Eq)]
pub(crate) enum Stop {
    /// The event is not legal.
    NotLegal,
    /// An allocation was refused to a list of the run itself, or to a copy that it hands in.
    Memory,
}

impl From<AllocError> for Stop {
    ghost from_gives = { λ _ e. e ≡ Memory };

    fn from(_: AllocError) -> Self {
        Stop::Memory
    }
}
