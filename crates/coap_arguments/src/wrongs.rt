//! What an error of a crate below is among the wrongs.
ghost use Rattle.std.specs.Prelude.{◌≡◌};

use crate::orders::Wrong;
use clap::error::ErrorKind;
use coap_types::PathRefusal;
use hex::FromHexError;
use std::alloc::AllocError;

impl From<AllocError> for Wrong {
    ghost use Rattle.coap_arguments.specs.declared.orders.Wrong.{Wrong};

    ghost from_gives = { λ _ wrong. wrong ≡ Wrong.Memory };

    fn from(_error: AllocError) -> Wrong {
        Wrong::Memory
    }
}

impl From<clap::Error> for Wrong {
    ghost use Rattle.coap_arguments.specs.Wrongs.{IsWrongOfClap};

    ghost from_gives = { IsWrongOfClap };

    fn from(error: clap::Error) -> Wrong {
        if error.kind() == ErrorKind::OutOfMemory {
            Wrong::Memory
        } else {
            Wrong::Words(error)
        }
    }
}

impl From<PathRefusal> for Wrong {
    ghost use Rattle.coap_arguments.specs.Wrongs.{wrong_path};

    ghost from_gives = { λ refusal wrong. wrong ≡ wrong_path refusal };

    fn from(refusal: PathRefusal) -> Wrong {
        match refusal {
            PathRefusal::Memory => Wrong::Memory,
            refusal => Wrong::Path(refusal),
        }
    }
}

impl From<FromHexError> for Wrong {
    ghost use Rattle.coap_arguments.specs.Wrongs.{wrong_hex};

    ghost from_gives = { λ error wrong. wrong ≡ wrong_hex error };

    fn from(error: FromHexError) -> Wrong {
        match error {
            FromHexError::OutOfMemory => Wrong::Memory,
            _ => Wrong::Hex,
        }
    }
}
