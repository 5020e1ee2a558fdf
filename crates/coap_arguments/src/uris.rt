//! A URI in the place of PORT and PATH (RFC 7252, sections 6.1 and 6.4; RFC 3986, section 3).
ghost use Rattle.std.specs.Prelude.{◌≡◌, ◌≢◌, ◌<◌, ◌≤◌, ◌-◌, ◌^◌, ◌∷◌, ◌↔◌, ℕ, List, IsTrue, IfOk, MatchOption};
ghost use Rattle.std.specs.Prelude.{MatchResult};
ghost use Rattle.coap_arguments.specs.Uris.{IsOfCoap, IsPlace, IsPortText, IsServerText, IsUri, IsWrongServer};
ghost use Rattle.coap_arguments.specs.Uris.{IsWrongUri, host_text, is_bracketed, is_closed, port_text};

use crate::hosts::{Server, uri_host_in};
use crate::marks::{has, parted};
use crate::orders::DEFAULT_PORT;
use crate::refusals::UriRefusal;
use crate::words::small_number;
use coap_paths::{UriPathRefusal, path_of_uri};
use coap_types::Path;
use std::alloc::{AllocError, Global};

// The scheme of CoAP without DTLS (RFC 7252, section 6.1).
const SCHEME: &str = "coap";

// What ends a scheme, and a host.
const COLON: char = ':';

// What begins an authority, twice, and a path.
const SLASH: char = '/';

// What may stand before a number in the words, and not in a URI.
const PLUS: char = '+';

// What begins a fragment, and a query; what ends a user; and what an address of IPv6 stands between.
const HASH: u8 = b'#';

const QUESTION: u8 = b'?';

const AT: u8 = b'@';

const OPENING: u8 = b'[';

const CLOSING: char = ']';

const CLOSING_BYTE: u8 = b']';

/// Where a resource is.
#[derive(Drop)]
pub(crate) struct Place<'a> {
    /// The server.
    pub(crate) server: Server<'a>,
    /// The path there.
    pub(crate) path: Path,
}

/// What stands behind the scheme and `://` of a URI; None where a text is none.
pub(crate) fn uri_in(text: &str) -> Option<&str>
    ensures { MatchOption result ((rest : List ℕ) → IsUri text.now rest → ⊥) (λ rest. IsUri text.now rest.now) }
{
    let (_, rest) = parted(text, COLON);
    without_slash(without_slash(rest)?)
}

/// Where the resource of a URI is, of which this stands behind `://`; or why it is nowhere that the program asks.
pub(crate) fn place_of<'a>(
    alloc: Global,
    text: &str,
    rest: &'a str,
) -> Result<Result<Place<'a>, UriRefusal>, AllocError>
    ensures { IfOk result (λ place. MatchResult place (λ p. IsPlace text.now rest.now p.server p.path)
        (λ refusal. IsWrongUri refusal text.now rest.now)) }
{
    if !is_of_coap(text) {
        return Ok(Err(UriRefusal::Scheme));
    }
    if has(rest, HASH) {
        return Ok(Err(UriRefusal::Fragment));
    }
    if has(rest, QUESTION) {
        return Ok(Err(UriRefusal::Query));
    }
    let (authority, path) = parted(rest, SLASH);
    if has(authority, AT) {
        return Ok(Err(UriRefusal::User));
    }
    let server = match server_in(authority) {
        Ok(server) => server,
        Err(refusal) => return Ok(Err(refusal)),
    };
    match path_of_uri(alloc, path) {
        Ok(path) => Ok(Ok(Place { server, path })),
        Err(UriPathRefusal::Percent) => Ok(Err(UriRefusal::Percent)),
        Err(UriPathRefusal::SegmentTooLong) => Ok(Err(UriRefusal::SegmentTooLong)),
        Err(UriPathRefusal::TooManySegments) => Ok(Err(UriRefusal::TooManySegments)),
        Err(UriPathRefusal::Memory) => Err(AllocError),
    }
}

// The server of an authority without a user.
fn server_in(authority: &str) -> Result<Server<'_>, UriRefusal>
    ensures { MatchResult result (IsServerText authority.now) (λ refusal. IsWrongServer refusal authority.now) }
{
    if !is_closed(authority) {
        return Err(UriRefusal::Six);
    }
    let (host, port) = host_and_port(authority);
    let Some(host) = uri_host_in(host) else {
        if is_bracketed(authority) {
            return Err(UriRefusal::Six);
        }
        return Err(UriRefusal::Host);
    };
    let Some(port) = port_in(port) else {
        return Err(UriRefusal::Port);
    };
    Ok(Server { host, port })
}

// Whether an authority begins with a bracket.
fn is_bracketed(authority: &str) -> bool
    ensures { result ≡ is_bracketed authority.now }
{
    match authority.as_bytes() {
        [OPENING, ..] => true,
        _ => false,
    }
}

// Whether the bracket that an authority begins with is closed, and nothing but a port stands behind it.
fn is_closed(authority: &str) -> bool
    ensures { result ≡ is_closed authority.now }
{
    if !is_bracketed(authority) {
        return true;
    }
    let (_, rest) = parted(authority, CLOSING);
    let (between, _) = parted(rest, COLON);
    has(authority, CLOSING_BYTE) && between.is_empty()
}

// The host and the port of an authority; in front of an address of IPv6 its bracket stands.
fn host_and_port(authority: &str) -> (&str, &str)
    ensures host { result.0.now ≡ host_text authority.now }
    ensures port { result.1.now ≡ port_text authority.now }
{
    if !is_bracketed(authority) {
        return parted(authority, COLON);
    }
    let (host, rest) = parted(authority, CLOSING);
    let (_, port) = parted(rest, COLON);
    (host, port)
}

// A text without the slash that it begins with.
fn without_slash(text: &str) -> Option<&str>
    ensures { MatchOption result ((rest : List ℕ) → text.now ≢ 47 ∷ rest) (λ rest. text.now ≡ 47 ∷ rest.now) }
{
    text.strip_prefix(SLASH)
}

// Whether the scheme of a URI is that of CoAP.
fn is_of_coap(text: &str) -> bool
    ensures { IsTrue result ↔ IsOfCoap text.now }
{
    let (scheme, _) = parted(text, COLON);
    scheme.eq_ignore_ascii_case(SCHEME)
}

// The port that the digits of a URI say.
fn port_in(text: &str) -> Option<u16>
    ensures { MatchOption result ((n : ℕ) → IsPortText text.now n → 2 ^ 16 - 1 < n)
        (λ n. IsPortText text.now n × (n ≤ 2 ^ 16 - 1)) }
{
    if text.is_empty() {
        return Some(DEFAULT_PORT);
    }
    if text.starts_with(PLUS) {
        return None;
    }
    small_number(text)
}
