//! The text of a path, and back: a `/` before each segment, and in a segment `%2F` for `/` and `%25` for `%`.
//!
//! Texts of two paths differ, and the text of a path spells that path ([`paths_law`]). One path is the exception: no
//! text spells that of one empty segment, as no URI does (RFC 7252, sections 6.4 and 6.5).
#![tactic(auto)]

mod escapes;
mod laws;
mod reading;
mod uris;
mod writing;

pub use laws::{paths_law, uris_law};
pub use reading::{PathTextRefusal, path_of};
pub use uris::{UriPathRefusal, path_of_uri};
pub use writing::{put_path, put_segment};
