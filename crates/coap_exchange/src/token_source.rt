//! The tokens of a client's side, each given once (RFC 7252, section 5.3.1).
ghost use Rattle.std.specs.Prelude.{◌≡◌};
ghost use Rattle.coap_exchange.specs.Tokens.{token_of, is_spent};

use byteorder::{BigEndian, ByteOrder};
use coap_types::{MAX_TOKEN_LEN, Token};

/// The token after so many that were given: 8 bytes, most significant first, of a counter that
/// begins at the word and wraps (RFC 7252, section 5.3.1; profile).
pub(crate) fn token_of(word: u64, given: u64) -> Token
    ensures { result ≡ token_of word given }
{
    let mut bytes = [0; MAX_TOKEN_LEN];
    BigEndian::write_u64(&mut bytes, word.wrapping_add(given));
    match Token::new(&bytes) {
        Some(token) => token,
        None => unreachable!("8 bytes are a token"),
    }
}

/// Whether no further token is given: all but one were.
pub(crate) fn is_spent(given: u64) -> bool
    ensures { result ≡ is_spent given }
{
    given == u64::MAX
}
