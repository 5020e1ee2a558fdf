//! Methods and requests (RFC 7252, section 5.8).
ghost use Rattle.std.specs.Prelude.{◌≡◌, ◌<◌, ◌^◌, IfSome};
ghost use Rattle.coap_types.specs.Bytes.{AreBytes};
ghost use Rattle.coap_types.specs.MethodCode.{method_code, method_of};
ghost use Rattle.coap_types.specs.RequestRange.{IsInRange};

use crate::message::Code;
use crate::path::Path;
use crate::tag::Tags;
use bytes::Bytes;
use std::alloc::{Allocator, Global};

/// What a request asks for (RFC 7252, section 5.8).
#[derive(Clone, Copy, Debug, PartialEq, Eq, PartialOrd, Ord, Hash)]
pub enum Method {
    /// The representation of the resource (section 5.8.1).
    Get,
    /// That the resource process the body (section 5.8.2).
    Post,
    /// That the resource be made or replaced by the body (section 5.8.3).
    Put,
    /// That the resource be deleted (section 5.8.4).
    Delete,
}

impl Method {
    /// Its code, of class 0 (RFC 7252, section 12.1.1).
    pub fn code(self) -> Code
        // The code of a method is that of RFC 7252, section 12.1.1.
        ensures { result ≡ method_code self }
    {
        match self {
            Method::Get => Code::GET,
            Method::Post => Code::POST,
            Method::Put => Code::PUT,
            Method::Delete => Code::DELETE,
        }
    }

    /// The method of a code (RFC 7252, section 12.1.1); None where it is not that of one of these.
    pub fn of(code: Code) -> Option<Method>
        // The method of a code is the one that has it, and None where none of the four does (RFC 7252, section 12.1.1).
        ensures { result ≡ method_of code.0 }
    {
        match code {
            Code::GET => Some(Method::Get),
            Code::POST => Some(Method::Post),
            Code::PUT => Some(Method::Put),
            Code::DELETE => Some(Method::Delete),
            _ => None,
        }
    }
}

/// What a client asks of a server (RFC 7252, section 5.1).
#[derive(Drop)]
#[derive_where(Debug)]
pub struct Request<A: Allocator = Global> {
    /// What is asked for.
    pub method: Method,
    /// Of which resource.
    pub path: Path<A>,
    /// The format of the body, if it is told (RFC 7252, section 5.10.3).
    pub format: Option<u16>,
    /// The body, which a GET or a DELETE does not carry.
    pub body: Bytes<A>,
    /// The representations that the client has (RFC 7252, section 5.10.6.2).
    pub etags: Tags,
    /// The representations of which one has to be there (RFC 7252, section 5.10.8.1); none: no
    /// condition.
    pub if_match: Tags,
    /// Whether nothing may be there yet (RFC 7252, section 5.10.8.2).
    pub if_none_match: bool,
    /// The format that the client wants, if it does (RFC 7252, section 5.10.4).
    pub accept: Option<u16>,
}

impl<A: Allocator + Copy> Request<A> {
    /// What its type says of a request: its numbers are in range and its fields within their
    /// bounds. It does nothing.
    pub fn ranges(&self)
        // The numbers of a request are in range, and its fields within their bounds.
        ensures { IsInRange self.now }
    {
        let _path = self.path.segments();
        show_16_bits(self.format);
        show_16_bits(self.accept);
        show_bytes(self.body.as_slice());
        let _etags = self.etags.as_slice();
        let _if_match = self.if_match.as_slice();
    }
}

// Each number of a slice of bytes is that of a byte.
fn show_bytes(bytes: &[u8])
    ensures { AreBytes bytes.now }
{}

// A number that is there has 16 bits.
fn show_16_bits(number: Option<u16>)
    ensures { IfSome number (λ n. n < 2 ^ 16) }
{}
