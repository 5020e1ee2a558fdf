//! What holds of a body that is given out.
ghost use Rattle.coap_parts.specs.Promised.{JoinedByHistory, NoneJoined, WholeByHistory};

use coap_block::fetch_law;

/// The body that a fetch of parts gives is its parts in order; a whole one is of one version (RFC 7959, section 2.4).
pub fn parts_law()
    // Whatever came before, a body that is answered as whole is its parts in order, with one entity-tag where they are
    // several.
    ensures whole { WholeByHistory }
    // .. and one that is answered as joined is its parts in order, of which none has an entity-tag.
    ensures joined { JoinedByHistory }
    // Where parts without an entity-tag are not allowed, no body is joined of them.
    ensures none { NoneJoined }
{
    fetch_law();
}
