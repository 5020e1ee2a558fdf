//! Moments and endpoints.
ghost use Rattle.std.specs.Prelude.{◌≡◌, ◌-◌, max};

/// A moment, in milliseconds since one that the caller chose.
#[derive(Clone, Copy, Debug, PartialEq, Eq, PartialOrd, Ord, Hash)]
pub struct Moment(pub u64);

impl Moment {
    /// The later of the two.
    pub fn later(self, other: Moment) -> Moment
        // The later of two moments is the greater number.
        ensures { result.0 ≡ max self.0 other.0 }
    {
        Moment(self.0.max(other.0))
    }

    /// How many milliseconds it comes after the other one: 0 where it comes before it.
    pub fn since(self, earlier: Moment) -> u64
        // The time since an earlier moment is the difference, and 0 where it isn't earlier.
        ensures { result ≡ self.0 - earlier.0 }
    {
        self.0.saturating_sub(earlier.0)
    }
}

/// Where a datagram comes from or goes to: an IPv4 address and a UDP port (RFC 7252, section 1.2).
#[derive(Clone, Copy, Debug, PartialEq, Eq, PartialOrd, Ord, Hash)]
pub struct Endpoint {
    /// The IPv4 address, most significant byte first.
    pub ip: [u8; 4],
    /// The UDP port.
    pub port: u16,
}
