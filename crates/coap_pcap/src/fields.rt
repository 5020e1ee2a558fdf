//! Numbers in fields of bytes.
ghost use Rattle.std.specs.Prelude.{◌≡◌, ◌≤◌, ◌+◌, length};
ghost use Rattle.coap_pcap.specs.Numbers.{half_at, word_at};

/// In which order the bytes of a number stand.
#[derive(Clone, Copy, Debug, PartialEq, Eq)]
pub enum Order {
    /// The lowest first.
    Little,
    /// The highest first.
    Big,
}

// The number of 16 bits at a place.
#[tactic(auto, unfolding(crate::specs::Numbers::half_at))]
pub(crate) fn half_at(order: Order, bytes: &[u8], at: usize) -> u16
    requires { at + 2 ≤ length bytes.now }
    ensures { result ≡ half_at order bytes.now at }
{
    let field = [bytes[at], bytes[at + 1]];
    match order {
        Order::Little => u16::from_le_bytes(field),
        Order::Big => u16::from_be_bytes(field),
    }
}

// The number of 32 bits at a place.
#[tactic(auto, unfolding(crate::specs::Numbers::word_at))]
pub(crate) fn word_at(order: Order, bytes: &[u8], at: usize) -> u32
    requires { at + 4 ≤ length bytes.now }
    ensures { result ≡ word_at order bytes.now at }
{
    let field = [bytes[at], bytes[at + 1], bytes[at + 2], bytes[at + 3]];
    match order {
        Order::Little => u32::from_le_bytes(field),
        Order::Big => u32::from_be_bytes(field),
    }
}
