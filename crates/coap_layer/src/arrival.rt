//! The verdict on a message that arrives (RFC 7252, sections 4.2, 4.3 and 4.5).
ghost use Rattle.std.specs.Prelude.{◌≡◌};
ghost use Rattle.coap_codec.specs.Message.{Message};
ghost use Rattle.coap_layer.specs.Machine.Table.{up_of};
ghost use Rattle.coap_layer.specs.Machine.Verdicts.{answer_by};

use coap_types::{Kind, Role};

/// What becomes of a message that arrives (RFC 7252, sections 4.2, 4.3 and 4.5).
#[derive(Clone, Copy)]
pub(crate) enum Verdict {
    /// A Reset is sent, with its Message ID.
    Reject,
    /// It is silently ignored.
    Drop,
    /// It ends a retransmission as an acknowledgement.
    TakeAck,
    /// It ends a retransmission as a Reset.
    TakeReset,
    /// It is a Reset of what is not outstanding.
    PassReset,
    /// It is a duplicate: the stored reply is sent again, if there is one.
    Replay,
    /// It is handed up as a request, and remembered or not.
    HandUpRequest(bool),
    /// It is handed up as a response.
    HandUpResponse,
}

/// What is known of a message that arrives.
#[derive(Clone, Copy)]
pub(crate) struct Known {
    /// A CON to its source with its Message ID is outstanding.
    pub(crate) outstanding: bool,
    /// A message of its source with its Message ID is remembered.
    pub(crate) remembered: bool,
    /// No further message can be remembered.
    pub(crate) full: bool,
    /// A Message ID is free.
    pub(crate) free: bool,
}

/// The table of arrivals.
pub(crate) fn classify(kind: Kind, role: Role, known: Known) -> Verdict
    ensures { (m : Message)
        → answer_by result m ≡ up_of kind role m known.outstanding known.remembered known.full known.free }
{
    match (kind, role) {
        (Kind::Con, Role::Empty | Role::Reserved) => Verdict::Reject,
        (Kind::Non, Role::Empty | Role::Reserved) => Verdict::Drop,
        (Kind::Rst, Role::Request | Role::Response | Role::Reserved) => Verdict::Drop,
        (Kind::Ack, Role::Request | Role::Reserved) => Verdict::Drop,
        (Kind::Ack, Role::Empty) if known.outstanding => Verdict::TakeAck,
        (Kind::Rst, Role::Empty) if known.outstanding => Verdict::TakeReset,
        (Kind::Rst, Role::Empty) => Verdict::PassReset,
        (Kind::Ack, Role::Response) if known.outstanding => Verdict::HandUpResponse,
        (Kind::Ack, _) => Verdict::Drop,
        (Kind::Con | Kind::Non, _) if known.remembered => Verdict::Replay,
        (Kind::Con | Kind::Non, _) if known.full => Verdict::Drop,
        (Kind::Con, Role::Request) => Verdict::HandUpRequest(true),
        (Kind::Non, Role::Request) => Verdict::HandUpRequest(known.free),
        (Kind::Con | Kind::Non, Role::Response) => Verdict::HandUpResponse,
    }
}
