//! What is printed: datagrams, paths and addresses in words, and in which colours.
//!
//! [`DatagramWords`] is a datagram in words.
#![tactic(auto)]

mod colours;
mod message_words;
mod place_words;
mod printing;
mod values;

pub use colours::Colour;
pub use message_words::{
    DatagramWords, FaultWords, code_name, datagram_law, hex_law, write_hex, write_len, write_name,
};
pub use place_words::{EndpointWords, PathWords, path_law, segment_law};
pub use printing::{Ink, Printing};
pub use values::hex_or_dash;
