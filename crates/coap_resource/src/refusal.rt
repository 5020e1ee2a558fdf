//! Why a store does not make a change.
ghost use Rattle.std.specs.Prelude.{◌≡◌};
ghost use Rattle.coap_resource.specs.Content.{refusal_number};
ghost use Rattle.coap_resource.specs.declared.refusal.StoreRefusal.TheVariants.{Memory};

use std::alloc::{AllocError, AllocFailed};
use thiserror::Error;

/// Why a store does not make a change. Where several hold, the first is answered, and `Memory` only
/// where none of the others does.
#[derive(Clone, Copy, Debug, PartialEq, Eq, Error)]
pub enum StoreRefusal {
    /// An allocation was refused.
    #[error("out of memory")]
    Memory,
    /// The body would be longer than the store's limit.
    #[error("the body is longer than the store's limit")]
    TooLarge,
    /// `MAX_PATHS` other paths hold something.
    #[error("256 other paths hold something")]
    TooManyPaths,
    /// The window of the moment has no change left.
    #[error("the window has no change left")]
    RateExceeded,
    /// The last change had the greatest version.
    #[error("the versions are spent")]
    VersionsSpent,
}

impl StoreRefusal {
    /// The number of the refusal, 1 to 5, in the order of the variants.
    pub fn number(self) -> u8
        // The number of a store's refusal is its place among the five.
        ensures { result ≡ refusal_number self }
    {
        match self {
            StoreRefusal::Memory => 1,
            StoreRefusal::TooLarge => 2,
            StoreRefusal::TooManyPaths => 3,
            StoreRefusal::RateExceeded => 4,
            StoreRefusal::VersionsSpent => 5,
        }
    }
}

impl From<AllocError> for StoreRefusal {
    ghost from_gives = { λ _ e. e ≡ Memory };

    fn from(_: AllocError) -> Self {
        StoreRefusal::Memory
    }
}

impl<T: Drop> From<AllocFailed<T>> for StoreRefusal {
    ghost from_gives = { λ _ e. e ≡ Memory };

    fn from(_: AllocFailed<T>) -> Self {
        StoreRefusal::Memory
    }
}
