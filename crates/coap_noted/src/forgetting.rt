//! A noted server that forgets a peer.
ghost use Rattle.std.specs.Prelude.{◌≡◌, ℕ, None, false, IfOk, IsOk, OnErr, OnOk};
ghost use Rattle.coap_layer.specs.EmptyMessages.{reset_bytes};
ghost use Rattle.coap_layer.specs.Machine.Peers.{goes_to};
ghost use Rattle.coap_exchange.specs.Peers.{reset_to};
ghost use Rattle.coap_server.specs.Forgetting.{IsForgotten};
ghost use Rattle.coap_server.specs.Object.Shown.{state_of};
ghost use Rattle.coap_server.specs.Peers.{knows};
ghost use Rattle.coap_journal.specs.Input.{Feed, Forget};
ghost use Rattle.coap_noted.specs.Notes.{noted_with, with_input};

use crate::noted::Noted;
use crate::notes::{Notes, reserve};
use coap_journal::{feed_bytes, forget_bytes};
use coap_resource::Store;
use coap_server::Server;
use coap_types::{Endpoint, Moment};
use std::alloc::{AllocError, Allocator};
use std::hash::BuildHasher;

impl<S: Store<A>, A: Allocator + Copy, H: BuildHasher> Noted<S, A, H> {
    /// Forgets a peer that never comes again, as `Server::forget`; whether there was anything. After an `Err` nothing
    /// changed.
    pub fn forget(&mut self, peer: Endpoint) -> Result<bool, AllocError>
        // Whether the noted server had anything of a peer that is forgotten is whether it knew it.
        ensures known { IfOk result (λ known. known ≡ knows (state_of S.content self.old.server) 0 peer) }
        // To forget a peer is two steps of the noted server's machine.
        ensures step { OnOk result (IsForgotten peer (state_of S.content self.old.server)
            (state_of S.content self.new.server)) }
        // A peer that is forgotten is not known to the noted server, where nothing that goes to it waits to be taken.
        ensures unknown { OnOk result (goes_to peer self.old.server.exchanges.layer.queue ≡ false → (now : ℕ)
            → knows (state_of S.content self.new.server) now peer ≡ false) }
        // A peer that is forgotten is noted: its Reset as a datagram that was fed, and then that it is let go.
        ensures noted { OnOk result (self.new.notes ≡ noted_with (Forget peer) 0 (noted_with (Feed 0 peer
            (reset_bytes (reset_to peer self.old.server.exchanges.own.separate)) 0) 0 self.old.notes)) }
        // A peer that can't be noted for want of memory stays.
        ensures err { OnErr result (self.new ≡ self.old) }
        // Where no notes are kept, to forget a peer takes no memory.
        ensures quiet { self.old.notes ≡ None → IsOk result }
    {
        match &mut self.notes {
            None => Ok(self.server.forget(peer)),
            Some(notes) => {
                let known = forget_noted(&mut self.server, notes, peer)?;
                Ok(known)
            }
        }
    }
}

fn forget_noted<S: Store<A>, A: Allocator + Copy, H: BuildHasher>(
    server: &mut Server<S, A, H>,
    notes: &mut Notes<A>,
    peer: Endpoint,
) -> Result<bool, AllocError>
    ensures known { IfOk result (λ known. known ≡ knows (state_of S.content server.old) 0 peer) }
    ensures step { OnOk result (IsForgotten peer (state_of S.content server.old) (state_of S.content server.new)) }
    ensures unknown { OnOk result (goes_to peer server.old.exchanges.layer.queue ≡ false → (now : ℕ)
        → knows (state_of S.content server.new) now peer ≡ false) }
    ensures noted { OnOk result (notes.new ≡ with_input (Forget peer) 0 (with_input (Feed 0 peer
        (reset_bytes (reset_to peer server.old.exchanges.own.separate)) 0) 0 notes.old)) }
    ensures same { OnErr result (server.new ≡ server.old) }
    ensures err { OnErr result (notes.new ≡ notes.old) }
{
    let rejects = server.rejects(peer);
    let mut record = feed_bytes(notes.alloc, Moment(0), peer, &rejects, 0)?;
    let forgotten = forget_bytes(notes.alloc, peer)?;
    record.extend_from_slice(forgotten.as_slice())?;
    reserve(&mut notes.inputs, record.len())?;
    let known = server.forget(peer);
    let _ = notes.inputs.extend_from_slice(record.as_slice());
    Ok(known)
}
