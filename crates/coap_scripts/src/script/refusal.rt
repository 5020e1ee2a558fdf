//! Why a script can't be read.
ghost use Rattle.std.specs.Prelude.{◌≡◌};
ghost use Rattle.coap_scripts.specs.ScriptRefusals.{of_hex, of_line, of_path};
ghost use Rattle.coap_scripts.specs.declared.script.refusal.LineRefusal.TheVariants as line;
ghost use Rattle.coap_scripts.specs.declared.script.refusal.ScriptRefusal.TheVariants as script;

use coap_types::PathRefusal;
use hex::FromHexError;
use std::alloc::{AllocError, AllocFailed};

/// Why a script gives no events.
#[derive(Clone, Copy, Debug, PartialEq, Eq)]
pub enum ScriptRefusal {
    /// The line of this number, from 1, can't be read.
    Line(usize),
    /// An allocation was refused.
    Memory,
}

/// Why a line gives no event.
#[derive(Clone, Copy, Debug, PartialEq, Eq)]
pub(super) enum LineRefusal {
    /// It can't be read.
    Unreadable,
    /// An allocation was refused.
    Memory,
}

impl LineRefusal {
    /// The refusal of the script that has such a line.
    pub(super) fn at(self, number: usize) -> ScriptRefusal
        ensures { result ≡ of_line number self }
    {
        match self {
            LineRefusal::Unreadable => ScriptRefusal::Line(number),
            LineRefusal::Memory => ScriptRefusal::Memory,
        }
    }
}

impl From<AllocError> for ScriptRefusal {
    ghost from_gives = { λ _ e. e ≡ script.Memory };

    fn from(_error: AllocError) -> ScriptRefusal {
        ScriptRefusal::Memory
    }
}

impl<T: Drop> From<AllocFailed<T>> for ScriptRefusal {
    ghost from_gives = { λ _ e. e ≡ script.Memory };

    fn from(_: AllocFailed<T>) -> ScriptRefusal {
        ScriptRefusal::Memory
    }
}

impl From<AllocError> for LineRefusal {
    ghost from_gives = { λ _ e. e ≡ line.Memory };

    fn from(_error: AllocError) -> LineRefusal {
        LineRefusal::Memory
    }
}

impl<T: Drop> From<AllocFailed<T>> for LineRefusal {
    ghost from_gives = { λ _ e. e ≡ line.Memory };

    fn from(_: AllocFailed<T>) -> LineRefusal {
        LineRefusal::Memory
    }
}

impl From<PathRefusal> for LineRefusal {
    ghost from_gives = { λ refusal e. e ≡ of_path refusal };

    fn from(refusal: PathRefusal) -> LineRefusal {
        match refusal {
            PathRefusal::Memory => LineRefusal::Memory,
            PathRefusal::SegmentTooLong | PathRefusal::TooManySegments => LineRefusal::Unreadable,
        }
    }
}

impl From<FromHexError> for LineRefusal {
    ghost from_gives = { λ error e. e ≡ of_hex error };

    fn from(error: FromHexError) -> LineRefusal {
        match error {
            FromHexError::OutOfMemory => LineRefusal::Memory,
            _ => LineRefusal::Unreadable,
        }
    }
}
