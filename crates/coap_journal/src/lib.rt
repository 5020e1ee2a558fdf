//! The journal of a server: how it began, its lives, and its inputs in the order in which it took them.
//!
//! A journal is a list of frames, one after the other. Each has its length and what it holds, and each
//! of these two a sum, into which the place of the frame goes. So a file that was cut off shows the
//! frames that are whole ([`scan`]), and one that was changed shows that it was. The first frame holds
//! a beginning, each other one a further life or a turn.
#![tactic(auto)]

mod beginning;
mod frame;
mod laws;
mod numbers;
mod reading;
mod sum;
mod waking;
mod wholeness;
mod writing;

pub use beginning::{
    BEGUN, BeginError, Beginning, Boot, Configuration, FORMAT, LAW, Life, Seed, WOKE, begun_bytes,
    read_begun, read_woke, woke_bytes,
};
pub use frame::{frame_bytes, read_frame};
pub use laws::journal_law;
pub use reading::{
    Fed, ReadError, read_feed, read_forget, read_numbered_path, read_path, read_refuse, read_set,
    read_tick, read_turn,
};
pub use waking::{SILENCE_MS, Waking, go_on};
pub use wholeness::{Damage, Whole, scan};
pub use writing::{
    DELAY, FEED, FORGET, PLAIN, REFUSE, REMOVE, SET, TICK, TURN, delay_bytes, feed_bytes,
    forget_bytes, plain_bytes, refuse_bytes, remove_bytes, set_bytes, tick_bytes, turn_bytes,
};
