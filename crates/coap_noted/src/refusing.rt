//! A noted server that is to refuse a request.
ghost use Rattle.std.specs.Prelude.{◌≡◌, ◌≤◌, ℕ, max, Option, None, IfOk, IsOk, OnErr, is_some};
ghost use Rattle.coap_codec.specs.Message.{Message};
ghost use Rattle.coap_layer.specs.Machine.State.{made};
ghost use Rattle.coap_layer.specs.Machine.Ups.{IsQuiet};
ghost use Rattle.coap_layer.specs.Trace as below;
ghost use Rattle.coap_exchange.specs.declared.answerer.Asked.{Asked as AskedSpec};
ghost use Rattle.coap_server.specs.Led.{Step};
ghost use Rattle.coap_server.specs.Object.Shown.{state_of};
ghost use Rattle.coap_server.specs.Refusing.{refused_or_fed};
ghost use Rattle.coap_replay.specs.Replaying.{refused_as};
ghost use Rattle.coap_noted.specs.Notes.{noted_with, with_input};

use crate::noted::Noted;
use crate::notes::{MAX_INPUT_LEN, Notes, reserve};
use coap_journal::{feed_bytes, refuse_bytes};
use coap_resource::Store;
use coap_server::{ErrorCode, Server};
use coap_types::{Endpoint, Moment};
use std::alloc::{AllocError, Allocator};
use std::hash::BuildHasher;

// The longer of two lengths.
fn longer(one: usize, other: usize) -> usize
    ensures one { one ≤ result }
    ensures other { other ≤ result }
{
    if one < other { other } else { one }
}

impl<S: Store<A>, A: Allocator + Copy, H: BuildHasher> Noted<S, A, H> {
    /// Takes a datagram whose request is to be refused with this error, as `Server::refuse`; whether it brought one.
    /// After an `Err` nothing changed.
    pub fn refuse(
        &mut self,
        now: Moment,
        from: Endpoint,
        bytes: &[u8],
        word: u64,
        code: ErrorCode,
    ) -> Result<bool, AllocError>
        // What a datagram to be refused makes of the noted server is a step of its machine.
        ensures step { IfOk result (λ refused. (up : below.Answer) × (came : Option (AskedSpec × Message))
            × (response : Option ℕ) × (sent : below.Answer) × (refused ≡ is_some came)
            × Step (state_of S.content self.old.server)
            (refused_or_fed now.0 from bytes.now word code up came response sent)
            (state_of S.content self.new.server)) }
        // A datagram to be refused is noted as such where it brings a request, and else as one that is fed.
        ensures noted { IfOk result (λ refused. self.new.notes
            ≡ noted_with (refused_as refused now.0 from bytes.now word code) now.0 self.old.notes) }
        // A datagram to be refused for which there is no memory is in no note, and leaves the server as it was.
        ensures err { OnErr result (self.new ≡ self.old) }
        // Where no notes are kept, a datagram to be refused for which nothing is sent and nothing is handed up takes no
        // memory.
        ensures quiet { self.old.notes ≡ None → IsQuiet (made self.old.server.exchanges.layer
            (max self.old.server.clock now.0) (below.Receive from bytes.now)) → IsOk result }
    {
        match &mut self.notes {
            None => {
                let refused = self.server.refuse(now, from, bytes, word, code)?;
                Ok(refused)
            }
            Some(notes) => {
                let refused = refuse_noted(&mut self.server, notes, now, from, bytes, word, code)?;
                Ok(refused)
            }
        }
    }
}

fn refuse_noted<S: Store<A>, A: Allocator + Copy, H: BuildHasher>(
    server: &mut Server<S, A, H>,
    notes: &mut Notes<A>,
    now: Moment,
    from: Endpoint,
    bytes: &[u8],
    word: u64,
    code: ErrorCode,
) -> Result<bool, AllocError>
    ensures step { IfOk result (λ refused. (up : below.Answer) × (came : Option (AskedSpec × Message))
        × (response : Option ℕ) × (sent : below.Answer) × (refused ≡ is_some came)
        × Step (state_of S.content server.old) (refused_or_fed now.0 from bytes.now word code up came response sent)
        (state_of S.content server.new)) }
    ensures noted { IfOk result (λ refused. notes.new
        ≡ with_input (refused_as refused now.0 from bytes.now word code) now.0 notes.old) }
    ensures same { OnErr result (server.new ≡ server.old) }
    ensures err { OnErr result (notes.new ≡ notes.old) }
{
    if bytes.len() > MAX_INPUT_LEN {
        return Err(AllocError);
    }
    let fed = feed_bytes(notes.alloc, now, from, bytes, word)?;
    let refusal = refuse_bytes(notes.alloc, now, from, bytes, word, code.code().0)?;
    reserve(&mut notes.inputs, longer(fed.len(), refusal.len()))?;
    let refused = server.refuse(now, from, bytes, word, code)?;
    if refused {
        let _ = notes.inputs.extend_from_slice(refusal.as_slice());
    } else {
        let _ = notes.inputs.extend_from_slice(fed.as_slice());
    }
    notes.moment = notes.moment.later(now);
    Ok(refused)
}
