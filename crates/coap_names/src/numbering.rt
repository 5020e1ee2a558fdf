//! Which names there are, and how they are laid out: they count up, and each is 48 bits, whose last 16 are not 0.
ghost use Rattle.std.specs.Prelude.{◌≡◌, ◌<◌, ◌≤◌};
ghost use Rattle.coap_names.specs.Numbered.{names_in, numbered};

use coap_types::Endpoint;

// How many names share an IP address: the ports but 0.
const PORTS: u64 = 65_535;

/// How many names there are: 65,535 with each IPv4 address.
pub const NAMES: u64 = PORTS << 32;
/// How many of them are in 0.0.0.0/8, "this network" (RFC 1122, section 3.2.1.3).
pub const NAMES_OF_THIS_NETWORK: u64 = PORTS << 24;

const _: () = prove!(PORTS == 65_535 && NAMES == 281_470_681_743_360);

const _: () = prove!(NAMES_OF_THIS_NETWORK == 1_099_494_850_560);

/// Which names a table gives, over its whole life.
#[derive(Clone, Copy, Debug, PartialEq, Eq)]
pub enum Numbering {
    /// All of them, `NAMES`.
    Whole,
    /// The first `NAMES_OF_THIS_NETWORK`. They are in 0.0.0.0/8, from which no IPv4 datagram comes (RFC 1122, section
    /// 3.2.1.3): so none is the address of an IPv4 peer.
    ThisNetwork,
}

impl Numbering {
    /// How many names it gives.
    pub fn names(self) -> u64
        // A numbering gives all names, or those of "this network".
        ensures names { result ≡ names_in self }
        // No numbering gives more names than there are.
        ensures within { result ≤ NAMES }
    {
        match self {
            Numbering::Whole => NAMES,
            Numbering::ThisNetwork => NAMES_OF_THIS_NETWORK,
        }
    }
}

/// The name of this number. Its port is what 65,535 leaves of it, and 1. Its address is how often 65,535 goes into it.
pub(crate) fn numbered(number: u64) -> Endpoint
    requires { number < NAMES }
    ensures { result ≡ numbered number }
{
    let block = number / PORTS;
    let place = number % PORTS;
    Endpoint {
        ip: (block as u32).to_be_bytes(),
        port: place as u16 + 1,
    }
}
