//! Which way a message goes.
ghost use Rattle.std.specs.Prelude.{◌≡◌};
ghost use Rattle.coap_types.specs.Recognised.{occurrence};

use crate::option_rule::{Occurrence, Rule};

/// Which way a message goes (RFC 7252, section 5).
#[derive(Clone, Copy, Debug, PartialEq, Eq)]
pub enum Direction {
    /// From a client to a server: it carries a request.
    Request,
    /// From a server to a client: it carries a response.
    Response,
}

impl Direction {
    /// How often an option with this rule is recognised in a message of this direction.
    pub fn occurrence(self, rule: Rule) -> Occurrence
        // How often an option is recognised is what its rule says for the direction of the message.
        ensures { result ≡ occurrence self rule }
    {
        match self {
            Direction::Request => rule.in_request,
            Direction::Response => rule.in_response,
        }
    }
}
