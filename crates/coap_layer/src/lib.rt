//! The message layer of CoAP (RFC 7252, section 4): Message IDs, duplicates, retransmission.
//!
//! [`IdSource`] gives Message IDs, of which equal ones are more than `ID_REUSE_AFTER_MS` apart. What a layer
//! answers and sends at each of its calls is a law over the list of all its calls so far
//! (`specs/Rows.antt`), with what a layer keeps of them beside it (`specs/Machine/State.antt`);
//! [`layer_law`] says that the two fit, and what follows from the law. Nothing here reads a clock,
//! a socket or a random source.
#![tactic(auto)]

mod arrival;
mod arriving;
mod content;
mod datagram;
mod dedup;
mod due;
mod empty;
mod laws;
mod layer;
mod lists;
mod load;
mod mark;
mod message_id;
mod outstanding;
mod peers;
mod retransmission;
mod room;
mod sending;
mod setup;
mod taking;
mod up;
mod would;

pub use content::Content;
pub use datagram::Datagram;
pub use empty::{ack, reset};
pub use laws::{
    any_time_law, channel_law, layer_law, paced_channel_law, sendable_law, sending_law, witness_law,
};
pub use layer::Layer;
pub use load::LayerLoad;
pub use message_id::{IdSource, ids_law};
pub use setup::Setup;
pub use up::{SendRefusal, Tick, Up};
pub use would::Would;
