//! What is promised of the code that computes a server's answers, over whole histories of the server's exchanges
//! (RFC 7252, sections 4.5 and 5.2); no code.
#![tactic(auto)]

mod laws;

pub use laws::handler_law;
