//! The options of a message, one by one (RFC 7252, sections 3.1 and 5.4.1): each with its place, all of them in one
//! pass, the first critical one that is not known, the first of a number, and options that are written in rising order.
#![tactic(auto)]

mod critical;
mod cursor;
mod laws;
mod reading;
mod values;
mod writing;

pub use critical::unknown_critical;
pub use cursor::{Astray, Cursor};
pub use laws::options_law;
pub use reading::{option_at, options_in};
pub use values::value_of;
pub use writing::{AddRefusal, add_option};
