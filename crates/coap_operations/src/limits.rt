//! How many operations of a client may wait.

/// How many operations and cancels wait at a client at most (a profile).
pub const MAX_WAITING: usize = 8;
