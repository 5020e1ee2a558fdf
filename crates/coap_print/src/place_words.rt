//! Paths and endpoints in words.
ghost use Rattle.std.specs.Prelude.{◌≡◌, ℕ, List, All, Some, ◌++◌, ◌<◌, ◌^◌, not};
ghost use Rattle.std.specs.Fmt.{WritesOnOk};
ghost use Rattle.coap_types.specs.Bytes.{AreBytes};
ghost use Rattle.coap_types.specs.Path.{segments_of};
ghost use Rattle.coap_print.specs.Places.{endpoint_text};
ghost use Rattle.coap_print.specs.Printable.{ArePrintable};
ghost use Rattle.coap_print.specs.Segments.{is_pchar, path_text, segment_byte, segment_text, slash_if};

use coap_types::{Endpoint, Path};
use percent_encoding::percent_encode_byte;
use std::alloc::Allocator;
use std::fmt;

/// A path in words: its segments, percent-encoded, with a slash between two; a slash where there is none (RFC 7252,
/// section 6.5).
#[derive(Clone, Copy)]
pub struct PathWords<'a, A: Allocator + Copy>(pub &'a Path<A>);

impl<'a, A: Allocator + Copy> fmt::Display for PathWords<'a, A> {
    ghost output = { λ path. Some (path_text path.0.now) };

    fn fmt<W: fmt::Write>(&self, f: &mut fmt::Formatter<W>) -> fmt::Result {
        write_segments(f, self.0.segments())
    }
}

// The path of these segments, with a slash between two; a slash where there is none (RFC 7252, section 6.5).
fn write_segments<A: Allocator + Copy, W: fmt::Write>(
    f: &mut fmt::Formatter<W>,
    segments: &[Vec<u8, A>],
) -> fmt::Result
    ensures { WritesOnOk W.write_str_gives f.old result (path_text (segments_of segments.now)) f.new }
{
    let mut is_first = true;
    for segment in segments {
        write_next(f, is_first, segment.as_slice())?;
        is_first = false;
    }
    write_slash(f, is_first)
}

/// The next segment of a path, behind a slash but where it is the first.
pub(crate) fn write_next<W: fmt::Write>(
    f: &mut fmt::Formatter<W>,
    is_first: bool,
    segment: &[u8],
) -> fmt::Result
    ensures { WritesOnOk W.write_str_gives f.old result (slash_if (not is_first) ++ segment_text segment.now) f.new }
{
    write_slash(f, !is_first)?;
    write_segment(f, segment)
}

/// A slash, where one is wanted.
pub(crate) fn write_slash<W: fmt::Write>(f: &mut fmt::Formatter<W>, is_wanted: bool) -> fmt::Result
    ensures { WritesOnOk W.write_str_gives f.old result (slash_if is_wanted) f.new }
{
    if is_wanted { f.write_str("/") } else { Ok(()) }
}

// A segment, percent-encoded but for the characters that a segment may have (RFC 3986, section 3.3).
fn write_segment<W: fmt::Write>(f: &mut fmt::Formatter<W>, segment: &[u8]) -> fmt::Result
    ensures { WritesOnOk W.write_str_gives f.old result (segment_text segment.now) f.new }
{
    for byte in segment {
        write_byte(f, *byte)?;
    }
    Ok(())
}

// A byte of a segment.
fn write_byte<W: fmt::Write>(f: &mut fmt::Formatter<W>, byte: u8) -> fmt::Result
    ensures { WritesOnOk W.write_str_gives f.old result (segment_byte byte) f.new }
{
    if is_plain(byte) {
        f.write_char(byte as char)
    } else {
        f.write_str(percent_encode_byte(byte))
    }
}

/// What is written of a segment takes a terminal for no command.
pub fn segment_law()
    // Whatever bytes a segment has, each character that is written of it is a printable one of ASCII.
    ensures { (bytes : List ℕ) → All (λ b. b < 2 ^ 8) bytes → ArePrintable (segment_text bytes) }
{}

/// What is written of a path takes a terminal for no command.
pub fn path_law()
    // Whatever bytes the segments of a path have, each character that is written of it is a printable one of ASCII.
    ensures { (path : List (List ℕ)) → All AreBytes path → ArePrintable (path_text path) }
{}

// What stands for itself in a segment: a `pchar` that is not percent-encoded (RFC 3986, section 3.3).
fn is_plain(byte: u8) -> bool
    ensures { result ≡ is_pchar byte }
{
    match byte {
        b'A'..=b'Z' | b'a'..=b'z' | b'0'..=b'9' => true,
        b'-' | b'.' | b'_' | b'~' => true,
        b'!' | b'$' | b'&' | b'\'' | b'(' | b')' | b'*' | b'+' | b',' | b';' | b'=' => true,
        b':' | b'@' => true,
        _ => false,
    }
}

/// An endpoint in words, as 127.0.0.1:5683.
#[derive(Clone, Copy)]
pub struct EndpointWords(pub Endpoint);

impl fmt::Display for EndpointWords {
    ghost output = { λ words. Some (endpoint_text words.0) };

    fn fmt<W: fmt::Write>(&self, f: &mut fmt::Formatter<W>) -> fmt::Result {
        let [a, b, c, d] = self.0.ip;
        let port = self.0.port;
        write!(f, "{a}.{b}.{c}.{d}:{port}")
    }
}
