//! `show`: a datagram in words.
ghost use Rattle.std.specs.Prelude.{◌≡◌, IfOk};
ghost use Rattle.coap_answers.specs.Shown.{IsShown};
ghost use Rattle.coap_answers.specs.Statuses.{IsCarriedOut};
ghost use Rattle.coap_status.specs.declared.status.Status.TheVariants as statuses;

use coap_codec::{Fault, View, decode};
use coap_print::{FaultWords, hex_or_dash};
use coap_status::{Status, Stop};
use std::alloc::Global;
use std::io::Write;

/// Prints what the datagram spells: a message, or the first fault.
pub fn show<W: Write>(alloc: Global, datagram: &[u8], out: &mut W) -> Result<Status, Stop>
    // A datagram is shown with status 0 where it spells a message, and with 1 where it spells none.
    ensures shown { IfOk result (IsShown datagram.now) }
    // A datagram that is shown ends with status 0 or 1.
    ensures ended { IfOk result IsCarriedOut }
{
    match decode(datagram) {
        Ok(message) => show_message(alloc, &message, out),
        Err(fault) => show_fault(fault, out),
    }
}

// Kind, code, Message ID and token, then a line for each option, then the payload.
fn show_message<W: Write>(alloc: Global, message: &View<'_>, out: &mut W) -> Result<Status, Stop>
    ensures { IfOk result (λ status. status ≡ statuses.Done) }
{
    let kind = message.kind();
    let code = message.code();
    let id = message.id().0;
    let token = hex_or_dash(alloc, message.token())?;
    writeln!(out, "{kind} {code} {id:04x} {token}")?;
    show_options(alloc, message, out)?;
    show_payload(alloc, message, out)?;
    Ok(Status::Done)
}

// A line for each option.
fn show_options<W: Write>(alloc: Global, message: &View<'_>, out: &mut W) -> Result<(), Stop> {
    for option in message.options() {
        let number = option.number;
        let value = hex_or_dash(alloc, option.value)?;
        writeln!(out, "{number} {value}")?;
    }
    Ok(())
}

// A line for the payload, where there is one.
fn show_payload<W: Write>(alloc: Global, message: &View<'_>, out: &mut W) -> Result<(), Stop> {
    if !message.payload().is_empty() {
        let payload = hex::encode(alloc, message.payload())?;
        writeln!(out, "payload {payload}")?;
    }
    Ok(())
}

// The fault in words.
fn show_fault<W: Write>(fault: Fault, out: &mut W) -> Result<Status, Stop>
    ensures { IfOk result (λ status. status ≡ statuses.Refused) }
{
    let words = FaultWords(fault);
    writeln!(out, "{words}")?;
    Ok(Status::Refused)
}
