//! The link format of CoRE (RFC 6690, section 2): what a server says that it has.
//!
//! [`links_of`] answers the links that a text spells, lent from the text, or the first place at which it is none.
#![tactic(auto)]

mod links;
mod places;

pub use links::{Link, LinksRefusal, links_of};
