//! The tokens of observations, which a client's side keeps (RFC 7641, section 3.2).
ghost use Rattle.std.specs.Prelude.{◌≡◌, ◌≤◌, [], length};
ghost use Rattle.coap_exchange.specs.Tokens.{max_kept, is_kept, may_keep, kept_with, kept_without};

use arrayvec::ArrayVec;
use coap_types::Token;
use std::marker::Model;

/// So many tokens are kept at most (profile).
pub(crate) const MAX_KEPT: usize = 16;

const _: () = prove!(MAX_KEPT == 16);

/// The tokens of a client's observations (RFC 7641, section 3.2), at most `MAX_KEPT`.
#[derive(Drop)]
pub struct KeptTokens {
    tokens: ArrayVec<Token, MAX_KEPT>,
}

impl Model for KeptTokens {
    ghost use Rattle.std.specs.Prelude.{ℕ, List};

    ghost Value = { List (List ℕ) };

    ghost view = { λ k. k.tokens.items };
}

// Puts copies of the tokens in the place of what is there.
fn refill(copies: &mut ArrayVec<Token, MAX_KEPT>, tokens: &[Token])
    requires { length tokens.now ≤ max_kept }
    ensures { copies.new.items ≡ tokens.now }
{
    copies.clear();
    for token in tokens {
        copies.push(token.copy());
    }
}

impl KeptTokens {
    /// None is kept.
    pub(crate) fn new() -> KeptTokens
        ensures { result ≡ [] }
    {
        KeptTokens {
            tokens: ArrayVec::new(),
        }
    }

    /// How many are kept.
    pub(crate) fn len(&self) -> usize
        ensures { result ≡ length self.now }
    {
        self.tokens.len()
    }

    /// Whether the token is kept.
    #[inline(always)]
    pub(crate) fn has(&self, token: &[u8]) -> bool
        ensures { result ≡ is_kept token.now self.now }
    {
        self.tokens.iter().any(|kept| token == kept.as_slice())
    }

    /// Keeps the token; false where it isn't kept and `MAX_KEPT` others are.
    pub(crate) fn keep(&mut self, token: &Token) -> bool
        ensures answer { result ≡ may_keep token.now self.old }
        ensures left { self.new ≡ kept_with token.now self.old }
    {
        self.has(token.as_slice()) || self.tokens.try_push(token.copy()).is_ok()
    }

    /// Keeps the token no more; false where it isn't kept.
    pub(crate) fn release(&mut self, token: &Token) -> bool
        ensures answer { result ≡ is_kept token.now self.old }
        ensures left { self.new ≡ kept_without token.now self.old }
    {
        let kept = self.has(token.as_slice());
        self.tokens
            .retain(|other| token.as_slice() != other.as_slice());
        kept
    }

    /// Becomes the same tokens as the others. It stays in its place, so that none of the 16 costs anything
    /// but those that are there.
    pub(crate) fn copy_from(&mut self, others: &KeptTokens)
        ensures { self.new ≡ others.now }
    {
        refill(&mut self.tokens, others.tokens.as_slice());
    }
}
