//! The wires of the program: its links over sockets of IPv4 and IPv6, the clock, what is told of each datagram on
//! standard error and in a capture, and the words that are drawn.
#![tactic(auto)]

mod bearing;
mod capturing;
mod closed_port;
mod hosts;
mod link_source;
mod losses;
mod patience;
mod peers;
mod screen;
mod sources;
mod terminal;
mod timekeeper;
mod told_source;
mod tracing;
mod waiting;
mod word;

pub use bearing::{Counting, bear, bear_in_a_row, bear_in_all, bear_serving};
pub use capturing::{
    CaptureTeller, FourStanding, SixStanding, Standing, begin_of, capture_in, capture_on,
    write_head,
};
pub use closed_port::{ClosedPort, ClosedPortLink, closed_port_link_law};
pub use hosts::{Peer, chosen, peer_at, peer_of};
pub use link_source::LinkSource;
pub use losses::{Going, LossLink, Losses, loss_link_law};
pub use patience::{
    LONG_WAIT, MAX_TRANSMIT_WAIT, Patience, PatientLink, latest_end, patience_on, patient_link_law,
};
pub use peers::{FourPeers, PeerWords, Peers, SixPeers};
pub use screen::{Screen, erase, make_way};
pub use sources::{Ends, FourSource, MAX_PEERS, SixSource, names_for, own_six};
pub use terminal::{NO_TERMINALS, Showing, Terminal, Terminals};
pub use timekeeper::{ProgramTime, Timekeeper};
pub use told_source::{Telling, ToldSource};
pub use tracing::{LineTeller, SharedWriter, Tracing, teller_on};
pub use waiting::{MS_PER_SECOND, has_lasted, passed};
pub use word::{Draws, Origin, base_of, origin_of, random_word, word_of};
