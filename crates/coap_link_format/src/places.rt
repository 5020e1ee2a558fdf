//! The places of a link, and which byte may stand at each.
ghost use Rattle.std.specs.Prelude.{◌≡◌, ◌≤◌, length};
ghost use Rattle.coap_link_format.specs.LinkFormat.{is_escaped, is_name, is_quoted, is_target, is_token};
ghost use Rattle.coap_link_format.specs.Places.{after_attribute, if_so, is_end, next_place, walked};

/// Where in a link the next byte stands (RFC 6690, section 2).
#[derive(Clone, Copy, Debug, PartialEq, Eq)]
pub(crate) enum Place {
    /// Where the link begins.
    Begin,
    /// In its target.
    Target,
    /// Behind its target.
    Behind,
    /// Where a name begins.
    NameBegin,
    /// In a name.
    Name,
    /// Behind the star of a name.
    Star,
    /// Where the value of a name with a star begins.
    ExtendedBegin,
    /// Where a value begins.
    ValueBegin,
    /// In a token.
    Token,
    /// In a quoted string.
    Quoted,
    /// Behind a backslash in one.
    Escaped,
    /// Behind a quoted string.
    Closed,
}

// A byte of a URI reference (RFC 3986, section 2).
fn is_target(byte: u8) -> bool
    ensures { result ≡ is_target byte }
{
    matches!(byte,
        b'!' | b'#'..=b';' | b'=' | b'?'..=b'[' | b']' | b'_' | b'a'..=b'z' | b'~')
}

// A byte of a name: attr-char (RFC 5987, section 3.2.1).
fn is_name(byte: u8) -> bool
    ensures { result ≡ is_name byte }
{
    matches!(byte,
        b'!' | b'#' | b'$' | b'&' | b'+' | b'-' | b'.' | b'0'..=b'9' | b'A'..=b'Z' | b'^'..=b'z' | b'|' | b'~')
}

// A byte of a token: ptokenchar (RFC 6690, section 2).
fn is_token(byte: u8) -> bool
    ensures { result ≡ is_token byte }
{
    matches!(byte,
        b'!' | b'#'..=b'+' | b'-'..=b':' | b'<'..=b'[' | b']'..=b'~')
}

// A byte of a quoted string that stands for itself (RFC 7230, section 3.2.6).
fn is_quoted(byte: u8) -> bool
    ensures { result ≡ is_quoted byte }
{
    matches!(byte,
        b'\t' | b' '..=b'!' | b'#'..=b'[' | b']'..=b'~' | 0x80..=0xff)
}

// A byte that may stand behind a backslash there.
fn is_escaped(byte: u8) -> bool
    ensures { result ≡ is_escaped byte }
{
    matches!(byte, b'\t' | b' '..=b'~' | 0x80..=0xff)
}

// This place, where that is so.
fn if_so(so: bool, place: Place) -> Option<Place>
    ensures { result ≡ if_so so place }
{
    if so { Some(place) } else { None }
}

// Behind a target or a value another attribute begins.
fn after_attribute(byte: u8) -> Option<Place>
    ensures { result ≡ after_attribute byte }
{
    if_so(byte == b';', Place::NameBegin)
}

impl Place {
    // Whether a link may end there.
    pub(crate) fn is_end(self) -> bool
        ensures { result ≡ is_end self }
    {
        match self {
            Place::Behind | Place::Name | Place::Token | Place::Closed => true,
            Place::Begin
            | Place::Target
            | Place::NameBegin
            | Place::Star
            | Place::ExtendedBegin
            | Place::ValueBegin
            | Place::Quoted
            | Place::Escaped => false,
        }
    }

    // The place behind this byte, where it may stand there.
    fn next(self, byte: u8) -> Option<Place>
        ensures { result ≡ next_place self byte }
    {
        match self {
            Place::Begin => if_so(byte == b'<', Place::Target),
            Place::Target => {
                if byte == b'>' {
                    Some(Place::Behind)
                } else {
                    if_so(is_target(byte), Place::Target)
                }
            }
            Place::Behind | Place::Closed => after_attribute(byte),
            Place::NameBegin => if_so(is_name(byte), Place::Name),
            Place::Name => match byte {
                b'=' => Some(Place::ValueBegin),
                b'*' => Some(Place::Star),
                b';' => Some(Place::NameBegin),
                _ => if_so(is_name(byte), Place::Name),
            },
            Place::Star => if_so(byte == b'=', Place::ExtendedBegin),
            Place::ExtendedBegin => if_so(is_token(byte), Place::Token),
            Place::ValueBegin => {
                if byte == b'"' {
                    Some(Place::Quoted)
                } else {
                    if_so(is_token(byte), Place::Token)
                }
            }
            Place::Token => {
                if byte == b';' {
                    Some(Place::NameBegin)
                } else {
                    if_so(is_token(byte), Place::Token)
                }
            }
            Place::Quoted => match byte {
                b'"' => Some(Place::Closed),
                b'\\' => Some(Place::Escaped),
                _ => if_so(is_quoted(byte), Place::Quoted),
            },
            Place::Escaped => if_so(is_escaped(byte), Place::Quoted),
        }
    }
}

/// How many bytes at the front of a text a link may begin with, and the place behind them.
pub(crate) fn walk(text: &[u8]) -> (usize, Place)
    ensures walked { result ≡ walked Place.Begin text.now }
    ensures within { result.0 ≤ length text.now }
{
    let mut place = Place::Begin;
    let mut len = 0;
    let mut left = text;
    'bytes: while let Some((byte, after)) = left.split_first() {
        match place.next(*byte) {
            Some(next) => place = next,
            None => return (len, place),
        }
        len += 1;
        left = after;
    }
    (len, place)
}
