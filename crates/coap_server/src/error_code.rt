//! A code that says an error.
ghost use Rattle.std.specs.Prelude.{◌≡◌, true};
ghost use Rattle.std.specs.Option.{SomeIff};
ghost use Rattle.coap_types.specs.Roles.{role_of};
ghost use Rattle.coap_types.specs.declared.role.Role.TheVariants as role;
ghost use Rattle.coap_server.specs.Refusing.{is_error};

use coap_types::Code;
use std::marker::Model;

// How many codes a class has: the class is the upper three bits of a code (RFC 7252, section 3).
const CODES_OF_A_CLASS: u8 = 32;
// The class of client errors (RFC 7252, section 5.9.2).
const CLIENT_ERROR: u8 = 4;
// The class of server errors (RFC 7252, section 5.9.3).
const SERVER_ERROR: u8 = 5;

const _: () = prove!(CODES_OF_A_CLASS == 32 && CLIENT_ERROR == 4 && SERVER_ERROR == 5);

/// A code of class 4 or 5, by which a request is refused (RFC 7252, sections 5.9.2 and 5.9.3).
#[derive(Clone, Copy, Debug, PartialEq, Eq)]
pub struct ErrorCode {
    code: u8,
}

impl Model for ErrorCode {
    ghost use Rattle.std.specs.Prelude.{ℕ, ◌≡◌, ◌<◌, true};
    ghost use Rattle.coap_server.specs.Refusing.{is_error};

    ghost Value = { ℕ };

    ghost view = { λ e. e.code };

    ghost invariant = { λ e. is_error e.code ≡ true };

    ghost inverse = { λ n. record { code = n } };
}

impl ErrorCode {
    /// The code, where its class is 4 or 5.
    pub fn of(code: Code) -> Option<ErrorCode>
        // An error is made exactly of a code of class 4 or 5.
        ensures { SomeIff result (is_error code.0 ≡ true) code.0 }
    {
        let class = code.0 / CODES_OF_A_CLASS;
        if class == CLIENT_ERROR || class == SERVER_ERROR {
            Some(ErrorCode { code: code.0 })
        } else {
            None
        }
    }

    /// The same as a code.
    pub fn code(self) -> Code
        // The code is the one that the error was made of.
        ensures same { result.0 ≡ self }
        // The class of an error is 4 or 5.
        ensures error { is_error result.0 ≡ true }
        // An error is a response.
        ensures responds { role_of result.0 ≡ role.Response }
    {
        Code(self.code)
    }
}
