//! What a call makes of the answer to its request.
use crate::client::report::Report;
use std::alloc::{Allocator, Global};

/// What a call makes of the answer to its request.
#[derive(Drop)]
pub enum Heard<A: Allocator = Global> {
    /// It sends its next request.
    Asks,
    /// It is over.
    Over {
        /// Whether a final response ended it.
        is_final: bool,
        /// Its last report.
        report: Report<A>,
    },
}

/// What a fetch for a notification makes of a part that it takes.
#[derive(Drop)]
pub enum Part<A: Allocator = Global> {
    /// It asks for the next block.
    Asks,
    /// The representation is whole, and reported.
    Whole(Report<A>),
    /// The part is refused, or of another representation.
    Useless,
}
