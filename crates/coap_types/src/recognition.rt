//! The table of options (RFC 7252, section 5.10; RFC 7641, section 2; RFC 7959, section 2.1).
ghost use Rattle.std.specs.Prelude.{◌≡◌};
ghost use Rattle.coap_types.specs.OptionTable.{option_rule, rule_of};

use crate::option_number::{
    ACCEPT, BLOCK1, BLOCK2, CONTENT_FORMAT, ETAG, IF_MATCH, IF_NONE_MATCH, OBSERVE, PROXY_SCHEME,
    PROXY_URI, SIZE1, SIZE2, URI_HOST, URI_PATH, URI_PORT,
};
use crate::option_rule::Occurrence::{self, Never, Once, Repeatable};
use crate::option_rule::Rule;

/// What is recognised of the option of this number; None where it is not recognised at all
/// (RFC 7252, section 5.10, table 4; RFC 7641, section 2; RFC 7959, sections 2.1 and 4). Profile:
/// Uri-Query, Max-Age and the options of a Location are not recognised.
pub fn rule(number: u16) -> Option<Rule>
    // The rule of an option is its row in the table of options, and None where it has none (RFC 7252, section 5.10).
    ensures { result ≡ option_rule number }
{
    match number {
        IF_MATCH => Some(of(0, 8, Repeatable, Never)),
        URI_HOST => Some(of(1, 255, Once, Never)),
        ETAG => Some(of(1, 8, Repeatable, Once)),
        IF_NONE_MATCH => Some(of(0, 0, Once, Never)),
        OBSERVE => Some(of(0, 3, Once, Once)),
        URI_PORT => Some(of(0, 2, Once, Never)),
        URI_PATH => Some(of(0, 255, Repeatable, Never)),
        CONTENT_FORMAT => Some(of(0, 2, Once, Once)),
        ACCEPT => Some(of(0, 2, Once, Never)),
        BLOCK2 => Some(of(0, 3, Once, Once)),
        BLOCK1 => Some(of(0, 3, Once, Once)),
        SIZE2 => Some(of(0, 4, Once, Once)),
        PROXY_URI => Some(of(1, 1034, Once, Never)),
        PROXY_SCHEME => Some(of(1, 255, Once, Never)),
        SIZE1 => Some(of(0, 4, Once, Once)),
        _ => None,
    }
}

// One line of the table.
fn of(min_len: usize, max_len: usize, in_request: Occurrence, in_response: Occurrence) -> Rule
    ensures { result ≡ rule_of min_len max_len in_request in_response }
{
    Rule {
        min_len,
        max_len,
        in_request,
        in_response,
    }
}
