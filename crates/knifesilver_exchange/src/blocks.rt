//! The calls for bodies in blocks (RFC 7959).
mod assembling;
mod choosing;
mod fetching;
mod giving;
mod reading;
mod uploading;
