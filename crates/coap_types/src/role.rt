//! What a code makes of its message (RFC 7252, section 12.1).
ghost use Rattle.std.specs.Prelude.{◌≡◌};
ghost use Rattle.coap_types.specs.Roles.{role_of};

use crate::message::Code;

/// What a code makes of its message (RFC 7252, section 12.1).
#[derive(Clone, Copy, Debug, PartialEq, Eq)]
pub enum Role {
    /// 0.00: the message says no more than its kind and Message ID (section 4.1).
    Empty,
    /// 0.01 to 0.31.
    Request,
    /// 2.00 to 5.31.
    Response,
    /// The classes 1, 6 and 7, which are reserved.
    Reserved,
}

impl Role {
    /// The role of a message with this code.
    pub fn of(code: Code) -> Role
        // The role of a message is that of its code (RFC 7252, section 12.1).
        ensures { result ≡ role_of code.0 }
    {
        match code.class() {
            0 if code == Code::EMPTY => Role::Empty,
            0 => Role::Request,
            2..=5 => Role::Response,
            _ => Role::Reserved,
        }
    }
}
