//! How much a program of turns bears, before it gives up.
ghost use Rattle.std.specs.Prelude.{◌≡◌};
ghost use Rattle.coap_wires.specs.Bearing.{borne, borne_by, borne_in_a_row, borne_in_all, borne_serving};

use coap_arguments::FOREVER;
use coap_links::{Link, Tally};
use coap_status::Stop;

/// The failed call of a link, and the input that was refused memory, that end the program.
pub const MAX_FAILURES: u64 = 100;

const _: () = prove!(MAX_FAILURES == 100);

// Whether the turns go on after so many failed calls of the link.
fn bear_failures(failures: u64, tally: &Tally) -> Result<(), Stop>
    ensures { result ≡ borne failures tally.now }
{
    if tally.refused >= MAX_FAILURES {
        return Err(Stop::Memory);
    }
    if failures >= MAX_FAILURES {
        return Err(Stop::Failed);
    }
    Ok(())
}

/// Which failed calls of a link count.
#[derive(Clone, Copy)]
pub enum Counting {
    /// All, in a program that ends by itself.
    InAll,
    /// Receives in a row that fail for what the link itself is, in one that is run for ever.
    InARow,
}

/// Whether the turns of an end over a link go on, in a program that ends by itself: all failed calls count.
pub fn bear_in_all<L: Link>(link: &L, tally: &Tally) -> Result<(), Stop>
    // A program that ends by itself goes on while fewer inputs were refused memory, and fewer calls of its link failed
    // in all, than end it.
    ensures { result ≡ borne_in_all (L.fault_count link.now) tally.now }
{
    bear_failures(link.faults(), tally)
}

/// Whether the turns go on in a program that is run for ever: only receives in a row count that fail for what the link
/// itself is. Whether a datagram is lost is up to its network, and to whoever has one sent to where none can go.
pub fn bear_in_a_row<L: Link>(link: &L, tally: &Tally) -> Result<(), Stop>
    // A program that is run for ever goes on while fewer inputs were refused memory, and fewer receives failed in a row
    // for what its link itself is, than end it.
    ensures { result ≡ borne_in_a_row (L.broken_count link.now) tally.now }
{
    bear_failures(link.broken_receives(), tally)
}

/// Whether the turns of a server of so many datagrams go on.
pub fn bear_serving<L: Link>(link: &L, tally: &Tally, count: u64) -> Result<(), Stop>
    // Of a server that serves for ever receives in a row count that fail for what its link itself is, and of one that
    // serves so many datagrams all failed calls.
    ensures { result ≡ borne_serving count (L.fault_count link.now) (L.broken_count link.now) tally.now }
{
    if count == FOREVER {
        bear_in_a_row(link, tally)
    } else {
        bear_in_all(link, tally)
    }
}

/// Whether the turns go on where such failed calls count.
pub fn bear<L: Link>(link: &L, tally: &Tally, counting: Counting) -> Result<(), Stop>
    // What failed of a link counts in all or in a row, as is said.
    ensures { result ≡ borne_by counting (L.fault_count link.now) (L.broken_count link.now) tally.now }
{
    match counting {
        Counting::InAll => bear_in_all(link, tally),
        Counting::InARow => bear_in_a_row(link, tally),
    }
}
