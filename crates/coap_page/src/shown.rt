//! What a datagram says, as a text.
ghost use Rattle.std.specs.Prelude.{IfOk};
ghost use Rattle.coap_page.specs.Shows.{IsShown};

use crate::ended::Ended;
use crate::room::{NoMemory, Told};
use coap_codec::{View, decode};
use coap_print::{FaultWords, hex_or_dash};
use std::alloc::Allocator;
use std::io::Write;

/// Tells what a datagram spells: a message, or the first fault.
pub(crate) fn datagram_told<A: Allocator + Copy>(
    alloc: A,
    datagram: &[u8],
) -> Result<Told<A>, NoMemory>
    ensures { IfOk result (λ told. IsShown datagram.now told.ended told.text.items) }
{
    let mut text = Vec::new(alloc);
    match decode(datagram) {
        Ok(message) => {
            tell_message(alloc, &message, &mut text)?;
            let ended = Ended::Done;
            Ok(Told { ended, text })
        }
        Err(fault) => {
            let words = FaultWords(fault);
            writeln!(text, "{words}")?;
            let ended = Ended::Refused;
            Ok(Told { ended, text })
        }
    }
}

// Type, code, Message ID and token, then a line for each option, then the payload.
fn tell_message<A: Allocator + Copy>(
    alloc: A,
    message: &View<'_>,
    text: &mut Vec<u8, A>,
) -> Result<(), NoMemory> {
    let kind = message.kind();
    let code = message.code();
    let id = message.id().0;
    let token = hex_or_dash(alloc, message.token())?;
    writeln!(text, "{kind} {code} {id:04x} {token}")?;
    for option in message.options() {
        let number = option.number;
        let value = hex_or_dash(alloc, option.value)?;
        writeln!(text, "{number} {value}")?;
    }
    if !message.payload().is_empty() {
        let payload = hex::encode(alloc, message.payload())?;
        writeln!(text, "payload {payload}")?;
    }
    Ok(())
}
