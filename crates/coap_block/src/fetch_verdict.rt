//! The verdict on a part of a representation.
use crate::fetch_step::FetchRefusal;
use coap_types::Szx;

/// What a part means to a fetch.
#[derive(Clone, Copy, Debug, PartialEq, Eq)]
pub enum Verdict {
    /// It is not taken.
    Refuse(FetchRefusal),
    /// The body changed: from the start.
    Again,
    /// The body is whole.
    Done,
    /// Ask for the block of this number and size.
    Ask(u32, Szx),
}
