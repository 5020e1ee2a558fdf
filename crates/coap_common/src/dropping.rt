//! The end of a value.

/// Drops a value. A call of it stands for the drop of each part of the value, and so its callers
/// are cheaper to prove.
pub fn put_away<T: Drop>(_value: T) {}
