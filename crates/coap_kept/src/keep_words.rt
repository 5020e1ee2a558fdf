//! What a program says of the journal of its server.

use coap_journal::Beginning;
use coap_journal_file::Wishes;

/// What a program says of the journal of its server.
#[derive(Clone, Copy, Debug)]
pub struct Keeping<'a> {
    /// The name of the file.
    pub name: &'a str,
    /// What its server has to have begun with.
    pub wishes: Wishes<'a>,
    /// What a server begins with that has no journal yet, and one that is begun anew but for its numbers.
    pub drawn: Beginning,
    /// The inputs that such a one takes before any other.
    pub setup: &'a [u8],
    /// Whether it is begun anew, with what its paths held.
    pub renews: bool,
}
