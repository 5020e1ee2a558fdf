//! A message that is lent from its datagram.
ghost use Rattle.std.specs.Prelude.{◌≡◌, ◌≤◌, ◌<◌, ◌^◌, true, length};
ghost use Rattle.coap_types.specs.declared.token.TheConstants.{MAX_TOKEN_LEN as max_token_len};
ghost use Rattle.coap_codec.specs.Message.{HasSpelling};
ghost use Rattle.coap_codec.specs.Refused.{ascends};

use crate::option_walk::option_at;
use coap_types::{Code, Id, Kind, Opt};
use std::marker::Model;

/// A message, lent from a datagram that spells it (RFC 7252, section 3).
#[derive(Drop)]
pub struct View<'a> {
    pub(crate) kind: Kind,
    pub(crate) code: Code,
    pub(crate) id: Id,
    pub(crate) token: &'a [u8],
    pub(crate) options: &'a [u8],
    pub(crate) payload: &'a [u8],
}

impl<'a> Model for View<'a> {
    ghost use Rattle.coap_codec.specs.Message.{Message, HasSpelling};
    ghost use Rattle.coap_codec.specs.Reading.{viewed};

    ghost Value = { Message };

    ghost view = { λ v. viewed v.kind v.code.0 v.id.0 v.token.now v.options.now v.payload.now };

    ghost invariant = { λ v. HasSpelling (viewed v.kind v.code.0 v.id.0 v.token.now v.options.now v.payload.now) };
}

impl<'a> View<'a> {
    /// The type.
    pub fn kind(&self) -> Kind
        // The type is that of the message.
        ensures { result ≡ self.now.kind }
    {
        self.kind
    }

    /// The code.
    pub fn code(&self) -> Code
        // The code is that of the message.
        ensures { result.0 ≡ self.now.code }
    {
        self.code
    }

    /// The Message ID.
    pub fn id(&self) -> Id
        // The Message ID is that of the message.
        ensures { result.0 ≡ self.now.id }
    {
        self.id
    }

    /// The token, of 0 to 8 bytes.
    pub fn token(&self) -> &'a [u8]
        // The token that is lent is that of the message.
        ensures bytes { result.now ≡ self.now.token }
        // The token of a message has at most 8 bytes (RFC 7252, section 3).
        ensures few { length result.now ≤ max_token_len }
    {
        self.token
    }

    /// The payload, which is empty where the message has none.
    pub fn payload(&self) -> &'a [u8]
        // The payload is that of the message.
        ensures { result.now ≡ self.now.payload }
    {
        self.payload
    }

    /// The options, none of whose numbers is below that of the one before it.
    pub fn options(&self) -> Options<'a>
        // The options that are lent are those of the message, in order.
        ensures list { result ≡ self.now.options }
        // The numbers of a message's options never fall.
        ensures order { ascends 0 self.now.options ≡ true }
        // The options of a message can be counted.
        ensures few { length self.now.options < 2 ^ 63 }
    {
        // An option takes at least a byte, so there are no more of them than a slice has bytes.
        let _len = self.options.len();
        Options {
            number: 0,
            rest: self.options,
        }
    }
}

/// The options of a message that are still to come.
#[derive(Drop)]
pub struct Options<'a> {
    number: u16,
    rest: &'a [u8],
}

impl<'a> Model for Options<'a> {
    ghost use Rattle.std.specs.Prelude.{List};
    ghost use Rattle.coap_types.specs.CoapOption.{CoapOption};
    ghost use Rattle.coap_codec.specs.Reading.{walk};

    ghost Value = { List CoapOption };

    ghost view = { λ o. (walk o.number o.rest.now).options };
}

impl<'a> Iterator for Options<'a> {
    ghost use Rattle.std.specs.Prelude.{List};
    ghost use Rattle.std.specs.Iterator.{item_count, YieldsFirstBy};
    ghost use Rattle.coap_types.specs.CoapOption.{CoapOption, option_of};

    type Item = Opt<'a>;

    ghost next_gives = { YieldsFirstBy option_of (λ (s : List CoapOption). s) };

    ghost remaining = { item_count (λ (s : List CoapOption). s) };

    #[inline(always)]
    fn next(&mut self) -> Option<Opt<'a>> {
        match option_at(self.number, self.rest) {
            Ok((option, rest)) => {
                self.number = option.number;
                self.rest = rest;
                Some(option)
            }
            Err(_) => None,
        }
    }
}
