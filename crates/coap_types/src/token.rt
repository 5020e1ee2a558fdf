//! Tokens (RFC 7252, section 5.3.1).
ghost use Rattle.std.specs.Prelude.{◌≡◌, ◌≤◌, [], length, nat_eq, IsTrue, ◌↔◌, Some, refl, ⊤};
ghost use Rattle.std.specs.Option.{SomeIff};
ghost use Rattle.std.specs.Cmp.{partial_equiv_from_equiv};
ghost use Rattle.std.specs.Cmp.Lexicographic.{pointwise, slice_cmp, nat_list_eq_equiv, nat_list_cmp_total, texts_ties};
ghost use Rattle.std.specs.Cmp.Lexicographic.{texts_po};
ghost use Rattle.std.specs.Cmp.Rules.{hashing};
ghost use Rattle.std.specs.Hash as fed;
ghost use Rattle.std.specs.Ordering.{nat_cmp};
ghost use Rattle.std.proofs.Common.{rules};

use arrayvec::ArrayVec;
use std::alloc::AllocError;
use std::cmp::Ordering;
use std::hash::{Hash, Hasher};
use std::marker::Model;

/// The most bytes that a token has (RFC 7252, section 3).
pub const MAX_TOKEN_LEN: usize = 8;

const _: () = prove!(MAX_TOKEN_LEN == 8);

/// A token: 0 to 8 bytes, by which a response is matched with its request (RFC 7252,
/// section 5.3.1). Tokens are equal, ordered and hashed by their bytes.
#[derive(Debug, Drop)]
pub struct Token {
    bytes: ArrayVec<u8, MAX_TOKEN_LEN>,
}

impl Model for Token {
    ghost use Rattle.std.specs.Prelude.{ℕ, List, ◌≤◌, length};
    ghost use Rattle.coap_types.specs.declared.token.TheConstants.{MAX_TOKEN_LEN};

    ghost Value = { List ℕ };

    ghost view = { λ t. t.bytes.items };

    ghost invariant = { λ t. length t.bytes.items ≤ MAX_TOKEN_LEN };
}

impl Token {
    /// The token of no bytes (RFC 7252, section 5.3.1).
    pub fn empty() -> Token
        // The empty token has no bytes (RFC 7252, section 5.3.1).
        ensures { result ≡ [] }
    {
        Token {
            bytes: ArrayVec::new(),
        }
    }

    /// The token of these bytes, where they are at most 8.
    pub fn new(bytes: &[u8]) -> Option<Token>
        // A token is made exactly of at most 8 bytes (RFC 7252, section 3).
        ensures { SomeIff result (length bytes.now ≤ MAX_TOKEN_LEN) bytes.now }
    {
        let mut token = Token::empty();
        token.bytes.try_extend_from_slice(bytes).ok()?;
        Some(token)
    }

    /// The bytes.
    pub fn as_slice(&self) -> &[u8]
        // The bytes that are lent are those of the token.
        ensures bytes { result.now ≡ self.now }
        // A token has at most 8 bytes (RFC 7252, section 3).
        ensures few { length self.now ≤ MAX_TOKEN_LEN }
    {
        self.bytes.as_slice()
    }

    /// The same token again, as `clone`, but with no `Result`: it takes no memory.
    pub fn copy(&self) -> Token
        // The copy of a token is that token.
        ensures { result ≡ self.now }
    {
        let mut token = Token::empty();
        let _fits = token.bytes.try_extend_from_slice(self.as_slice());
        token
    }
}

/// A token has at most 8 bytes (RFC 7252, section 3). This does nothing: the prover doesn't look for the length
/// of a token that stands in another value, and knows it from here on.
pub fn reveal(token: &Token)
    // A token that stands in another value has at most 8 bytes, too.
    ensures { length token.now ≤ MAX_TOKEN_LEN }
{
    token.as_slice();
}

impl Clone for Token {
    ghost is_clone = { λ token copy. copy ≡ token };

    ghost is_infallible = { λ _. ⊤ };

    fn clone(&self) -> Result<Token, AllocError> {
        Ok(self.copy())
    }
}

impl PartialEq for Token {
    ghost eq = { pointwise nat_eq };

    ghost laws = { partial_equiv_from_equiv nat_list_eq_equiv };

    fn eq(&self, other: &Token) -> bool
        ensures value { result ≡ pointwise nat_eq self.now other.now }
        ensures equal { IsTrue result ↔ (self.now ≡ other.now) }
    {
        self.bytes == other.bytes
    }
}

impl Eq for Token {
    ghost laws = { nat_list_eq_equiv };
}

impl PartialOrd for Token {
    ghost partial_cmp = { λ x y. Some (slice_cmp nat_cmp x y) };

    ghost laws = { texts_po };

    fn partial_cmp(&self, other: &Token) -> Option<Ordering> {
        Some(self.cmp(other))
    }
}

impl Ord for Token {
    ghost cmp = { slice_cmp nat_cmp };

    ghost total = { nat_list_cmp_total };

    ghost matches_partial_cmp = { λ x y. refl };

    ghost matches_eq = { texts_ties };

    fn cmp(&self, other: &Token) -> Ordering {
        self.bytes.cmp(&other.bytes)
    }
}

impl Hash for Token {
    ghost hash_input = { fed.slice fed.u8 };

    ghost respects_eq = { Prim.search (hashing, rules) };

    fn hash<H: Hasher>(&self, state: &mut H) {
        self.bytes.hash(state);
    }
}

impl Default for Token {
    fn default() -> Token
        ensures { result ≡ [] }
    {
        Token::empty()
    }
}
