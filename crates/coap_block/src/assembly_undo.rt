//! What an assembly keeps so that its last input can be taken back.
use crate::partial::Partial;
use coap_types::Moment;
use std::alloc::Allocator;

/// What an input did to the partial bodies.
#[derive(Drop)]
#[derive_where(Debug)]
pub(crate) enum Change<A: Allocator> {
    /// Nothing: the clock alone may have moved.
    Clock,
    /// The last one is new.
    Begun,
    /// The one at that place is new, in place of this one.
    Replaced(usize, Partial<A>),
    /// This one was taken out from that place.
    TakenOut(usize, Partial<A>),
    /// The one at that place had so many bytes, and its last block at that moment.
    Grown(usize, usize, Moment),
}

/// What `undo` goes by.
#[derive(Drop)]
#[derive_where(Debug)]
pub(crate) struct Before<A: Allocator> {
    /// The clock before the last input.
    pub(crate) clock: Moment,
    /// What the last input did.
    pub(crate) change: Change<A>,
}
