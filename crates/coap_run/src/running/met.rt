//! What the input of an event met.
use std::alloc::AllocError;

/// `Err` where its end was refused memory for it: the end is as before, and the run notes it and goes on.
pub(crate) type Met = Result<(), AllocError>;
