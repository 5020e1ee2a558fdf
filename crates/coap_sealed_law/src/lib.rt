//! What is promised of nonces and of sealed requests below an end, over all of its lives (RFC 8613); no code.
#![tactic(auto)]

mod laws;

pub use laws::sealed_law;
