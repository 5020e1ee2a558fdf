//! The Internet checksum (RFC 1071).
ghost use Rattle.std.specs.Prelude.{◌≡◌};
ghost use Rattle.coap_pcap.specs.Checksums.{complement, complement_of_udp, ones_add, sum_on};

/// The greatest number of 16 bits: ones' complement has a second 0 there.
const ALL_ONES: u16 = u16::MAX;

// Ones' complement addition: the carry is added again (RFC 1071, section 1).
#[tactic(auto, unfolding(crate::specs::Checksums::ones_add))]
fn ones_add(a: u16, b: u16) -> u16
    ensures { result ≡ ones_add a b }
{
    let sum = u32::from(a) + u32::from(b);
    let most = u32::from(ALL_ONES);
    if sum <= most {
        sum as u16
    } else {
        (sum - most) as u16
    }
}

/// This sum and the bytes, as numbers of 16 bits; a last odd byte stands in front of a 0.
pub(crate) fn sum_on(start: u16, bytes: &[u8]) -> u16
    ensures { result ≡ sum_on start bytes.now }
{
    let mut sum = start;
    let mut rest = bytes;
    while let [a, b, more @ ..] = rest {
        sum = ones_add(sum, u16::from(*a) * 256 + u16::from(*b));
        rest = more;
    }
    match rest {
        [a, ..] => ones_add(sum, u16::from(*a) * 256),
        [] => sum,
    }
}

/// The checksum of a sum.
pub(crate) fn complement(sum: u16) -> u16
    ensures { result ≡ complement sum }
{
    ALL_ONES - sum
}

/// The checksum of a sum in UDP, where 0 says that there is none (RFC 768).
#[tactic(auto, unfolding(crate::specs::Checksums::complement_of_udp))]
pub(crate) fn complement_of_udp(sum: u16) -> u16
    ensures { result ≡ complement_of_udp sum }
{
    match complement(sum) {
        0 => ALL_ONES,
        checksum => checksum,
    }
}
