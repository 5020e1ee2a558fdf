//! The operation of a client that runs.

/// What runs. One operation runs at a time (NSTART is 1: RFC 7252, section 4.7).
#[derive(Drop)]
pub enum Running<T> {
    /// An operation that had waited.
    Started(T),
    /// The fetch of the rest of an observation's representation (RFC 7959, section 2.6), by the
    /// number of the observation.
    Fetching(u64),
    /// The cancel of the observation with that number (RFC 7641, section 3.6).
    Cancelling(u64),
    /// A fetch that no longer counts, whose exchange goes on to its end.
    Dropped,
}
