//! What a datagram would be if it arrived.
ghost use Rattle.std.specs.Prelude.{◌≡◌};
ghost use Rattle.coap_layer.specs.Machine.Would.{dropped_by as dropped_by_lem, would_by as would_by_lem};
ghost use Rattle.coap_codec.specs.Message.{Message};
ghost use Rattle.coap_layer.specs.Machine.Verdicts.{answer_by};

use crate::arrival::Verdict;

/// What a datagram would be if it arrived now, by the row of the table of arrivals that it would take (RFC 7252,
/// sections 4.2, 4.3 and 4.5).
#[derive(Clone, Copy, Debug, PartialEq, Eq)]
pub enum Would {
    /// It would be silently ignored.
    Ignored,
    /// It would be rejected with a Reset.
    Rejected,
    /// It would be a duplicate of a message that is remembered.
    Repeated,
    /// It would be handed up; if it is Confirmable or Non-confirmable, it would be remembered too.
    Taken,
    /// It would be dropped, only because no place to remember it is left.
    NoPlace,
    /// It would be handed up and not remembered: a Non-confirmable request for which no Message ID is free.
    NoId,
    /// It would acknowledge a message that is outstanding, and carry nothing.
    Acknowledges,
    /// It would be a Reset: of a message that is outstanding, or of none.
    Resets,
}

// What it would be that is dropped, by the verdict if a place is left.
fn dropped_by(could: Verdict) -> Would
    ensures { (m : Message) → result ≡ dropped_by_lem (answer_by could m) }
{
    match could {
        Verdict::HandUpRequest(_) | Verdict::HandUpResponse => Would::NoPlace,
        _ => Would::Ignored,
    }
}

/// What it would be, by the verdict if a place is left, and by the verdict as things are.
pub(crate) fn would_by(could: Verdict, does: Verdict) -> Would
    ensures { (m : Message) → result ≡ would_by_lem (answer_by could m) (answer_by does m) }
{
    match does {
        Verdict::Drop => dropped_by(could),
        Verdict::Reject => Would::Rejected,
        Verdict::Replay => Would::Repeated,
        Verdict::HandUpRequest(remembered) => {
            if remembered {
                Would::Taken
            } else {
                Would::NoId
            }
        }
        Verdict::HandUpResponse => Would::Taken,
        Verdict::TakeAck => Would::Acknowledges,
        Verdict::TakeReset | Verdict::PassReset => Would::Resets,
    }
}
