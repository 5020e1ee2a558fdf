//! Where a server is: an address, or the name of a host (RFC 3986, section 3.2.2; RFC 4291, section 2.2).
ghost use Rattle.std.specs.Prelude.{◌≡◌, ◌≢◌, ◌∷◌, ℕ, List, MatchOption, MatchResult};
ghost use Rattle.std.specs.List.{list_all, list_any};
ghost use Rattle.clap.specs.Words.{found_of, rows_of};
ghost use Rattle.coap_arguments.specs.Addresses.{HasAddress, HasHost};
ghost use Rattle.coap_arguments.specs.Hosts.{IsAddressText, IsBracketed, IsFourText, IsHostText};
ghost use Rattle.coap_arguments.specs.Hosts.{IsScope, IsSixText, IsZone, is_letter, is_name, may_name};
ghost use Rattle.coap_arguments.specs.WrongOptions.{IsWrongOption};
ghost use Rattle.coap_arguments.specs.Uris.{IsUriHost};
ghost use Rattle.coap_arguments.specs.declared.hosts.Address.{Address as AddressSpec};
ghost use Rattle.coap_arguments.specs.declared.hosts.Host.{Host as HostSpec};

use crate::marks::{has, parted};
use crate::orders::Wrong;
use crate::refusals::AddressRefusal;
use crate::words::{number, optional};
use clap::ArgMatches;
use std::net::{Ipv4Addr, Ipv6Addr};

// What an address of IPv6 stands between in a URI (RFC 3986, section 3.2.2).
const OPENING: char = '[';

const CLOSING: char = ']';

// What begins the number of a zone (RFC 4007, section 11).
const PERCENT: char = '%';

const PERCENT_BYTE: u8 = b'%';

// What may stand before a number in the words, and not before that of a zone.
const PLUS: char = '+';

// The zone of an address that says none.
const NO_ZONE: u32 = 0;

/// The longest name of a host, in characters (RFC 1123, section 2.1).
const MAX_NAME_LEN: usize = 255;

const _: () = prove!(MAX_NAME_LEN == 255);

/// An address of the internet.
#[derive(Clone, Copy, Debug, PartialEq, Eq)]
pub enum Address {
    /// One of IPv4.
    Four(Ipv4Addr),
    /// One of IPv6.
    Six {
        /// The address.
        ip: Ipv6Addr,
        /// The number of its zone (RFC 4007, section 11), 0 where none is said.
        scope: u32,
    },
}

/// The host of a server that is asked.
#[derive(Clone, Copy, Debug, PartialEq, Eq)]
pub enum Host<'a> {
    /// By its address.
    At(Address),
    /// By its name, which the system looks up.
    Name(&'a str),
}

/// A server that is asked.
#[derive(Clone, Copy, Debug, PartialEq, Eq)]
pub struct Server<'a> {
    /// Its host.
    pub host: Host<'a>,
    /// Its UDP port.
    pub port: u16,
}

/// The host that `--host` says: this machine itself where it is left out.
pub(crate) fn host_of<'a>(given: &ArgMatches<'a>) -> Result<Host<'a>, Wrong>
    ensures { MatchResult result (HasHost (rows_of (found_of given.now)))
        (IsWrongOption (rows_of (found_of given.now))) }
{
    let Some(text) = optional(given, "host") else {
        return Ok(Host::At(Address::Four(Ipv4Addr::new(127, 0, 0, 1))));
    };
    match host_in(text) {
        Some(host) => Ok(host),
        None => Err(Wrong::Address(AddressRefusal::Host)),
    }
}

/// The address that `--address` says: that of this machine to itself where it is left out.
pub(crate) fn address_of(given: &ArgMatches<'_>) -> Result<Address, Wrong>
    ensures { MatchResult result (HasAddress (rows_of (found_of given.now)))
        (IsWrongOption (rows_of (found_of given.now))) }
{
    let Some(text) = optional(given, "address") else {
        return Ok(Address::Four(Ipv4Addr::new(127, 0, 0, 1)));
    };
    match address_in(text) {
        Some(address) => Ok(address),
        None => Err(Wrong::Address(AddressRefusal::Address)),
    }
}

/// The host that the text between `//` and the port of a URI says: in front of an address of IPv6 its bracket stands.
pub(crate) fn uri_host_in(text: &str) -> Option<Host<'_>>
    ensures { MatchOption result ((host : HostSpec) → IsUriHost text.now host → ⊥) (IsUriHost text.now) }
{
    if let Some(address) = four_in(text) {
        return Some(Host::At(address));
    }
    if is_name(text) {
        return Some(Host::Name(text));
    }
    match six_in(behind_bracket(text)?) {
        Some(address) => Some(Host::At(address)),
        None => None,
    }
}

// The host that a text says.
fn host_in(text: &str) -> Option<Host<'_>>
    ensures { MatchOption result ((host : HostSpec) → IsHostText text.now host → ⊥) (IsHostText text.now) }
{
    match address_in(text) {
        Some(address) => Some(Host::At(address)),
        None if is_name(text) => Some(Host::Name(text)),
        None => None,
    }
}

// The address that a text says.
fn address_in(text: &str) -> Option<Address>
    ensures { MatchOption result ((address : AddressSpec) → IsAddressText text.now address → ⊥)
        (IsAddressText text.now) }
{
    if let Some(address) = four_in(text) {
        return Some(address);
    }
    if let Some(address) = six_in(text) {
        return Some(address);
    }
    six_in(inside_of(text)?)
}

// The address of IPv4 that a text says.
fn four_in(text: &str) -> Option<Address>
    ensures { MatchOption result ((address : AddressSpec) → IsFourText text.now address → ⊥) (IsFourText text.now) }
{
    match text.parse::<Ipv4Addr>() {
        Ok(ip) => Some(Address::Four(ip)),
        Err(_) => None,
    }
}

// The address of IPv6 that a text says, with its zone.
fn six_in(text: &str) -> Option<Address>
    ensures { MatchOption result ((address : AddressSpec) → IsSixText text.now address → ⊥) (IsSixText text.now) }
{
    let (ip, digits) = parted(text, PERCENT);
    let scope = scope_in(has(text, PERCENT_BYTE), digits)?;
    match ip.parse::<Ipv6Addr>() {
        Ok(ip) => Some(Address::Six { ip, scope }),
        Err(_) => None,
    }
}

// The zone that digits say where there are any.
fn scope_in(is_said: bool, digits: &str) -> Option<u32>
    ensures { MatchOption result ((n : ℕ) → IsScope is_said digits.now n → ⊥) (IsScope is_said digits.now) }
{
    if is_said {
        zone_in(digits)
    } else {
        Some(NO_ZONE)
    }
}

// The zone that digits say.
fn zone_in(digits: &str) -> Option<u32>
    ensures { MatchOption result ((n : ℕ) → IsZone digits.now n → ⊥) (IsZone digits.now) }
{
    if digits.starts_with(PLUS) {
        return None;
    }
    u32::try_from(number(digits)?).ok()
}

// What stands between the brackets of a text.
fn inside_of(text: &str) -> Option<&str>
    ensures { MatchOption result ((inside : List ℕ) → IsBracketed text.now inside → ⊥)
        (λ inside. IsBracketed text.now inside.now) }
{
    behind_bracket(text)?.strip_suffix(CLOSING)
}

// A text without the bracket that it begins with.
fn behind_bracket(text: &str) -> Option<&str>
    ensures { MatchOption result ((rest : List ℕ) → text.now ≢ 91 ∷ rest) (λ rest. text.now ≡ 91 ∷ rest.now) }
{
    text.strip_prefix(OPENING)
}

// Whether a text is the name of a host.
fn is_name(text: &str) -> bool
    ensures { result ≡ is_name text.now }
{
    let bytes = text.as_bytes();
    bytes.len() <= MAX_NAME_LEN && has_letter(bytes) && may_all_name(bytes)
}

// Whether there is a letter among these bytes.
fn has_letter(bytes: &[u8]) -> bool
    ensures { result ≡ list_any is_letter bytes.now }
{
    bytes.iter().any(|byte| is_letter(*byte))
}

// Whether each of these bytes may stand in a name.
fn may_all_name(bytes: &[u8]) -> bool
    ensures { result ≡ list_all may_name bytes.now }
{
    bytes.iter().all(|byte| may_name(*byte))
}

// Whether a byte may stand in a name.
fn may_name(byte: u8) -> bool
    ensures { result ≡ may_name byte }
{
    is_letter(byte)
        || (b'0' <= byte && byte <= b'9')
        || byte == b'-'
        || byte == b'.'
        || byte == b'_'
}

fn is_letter(byte: u8) -> bool
    ensures { result ≡ is_letter byte }
{
    (b'A' <= byte && byte <= b'Z') || (b'a' <= byte && byte <= b'z')
}
