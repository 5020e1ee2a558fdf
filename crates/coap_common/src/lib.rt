//! What the parts of the program have in common: what is said where nothing else is, and how a value is put away.
#![tactic(auto)]

mod dropping;
mod usual;

pub use dropping::put_away;
pub use usual::{STANDARD_INPUT_FILE, TEXT_PLAIN, largest_szx};
