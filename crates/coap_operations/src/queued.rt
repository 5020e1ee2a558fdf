//! What waits for its turn at a client.

/// What waits: an operation, or the cancel of the observation with that number (RFC 7641, section
/// 3.6), which takes no memory.
#[derive(Drop)]
pub enum Queued<T> {
    /// An operation.
    Starts(T),
    /// A cancel.
    Cancels(u64),
}

impl Default for Queued<usize> {
    fn default() -> Queued<usize> {
        Queued::Starts(0)
    }
}
