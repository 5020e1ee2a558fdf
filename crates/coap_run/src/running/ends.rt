//! The two ends of a run, each with what the run has to know beside it.
ghost use Rattle.std.specs.Prelude.{◌≡◌, ℕ, List, OnOk};
ghost use Rattle.coap_run.specs.Run.Log.{lines_put};
ghost use Rattle.coap_run.specs.Run.Senders.{noted, sender_in};
ghost use Rattle.coap_run.specs.Run.Telling.{applied_told, version_told};

use crate::running::record::Record;
use crate::running::senders::Senders;
use coap_ends::{Client, SentRequest, Server};
use coap_record::Addresses;
use coap_resource::Store;
use std::alloc::{AllocError, Allocator};

/// The client, and for which call or observation it sent each token.
#[derive(Drop)]
pub(crate) struct ClientEnd<A: Allocator + Copy> {
    pub(crate) client: Client<A>,
    pub(crate) senders: Senders<A>,
}

impl<A: Allocator + Copy> ClientEnd<A> {
    /// Notes the request that the last datagram or tick sent, if it sent one.
    pub(crate) fn note_asked(&mut self) -> Result<(), AllocError>
        ensures same { OnOk result (self.new.client ≡ self.old.client) }
        ensures noted { OnOk result ((token : List ℕ)
            → sender_in self.new.senders token ≡ noted token self.old.client.own.asked
            (sender_in self.old.senders token)) }
    {
        if let Some(SentRequest { call, token }) = self.client.asked() {
            self.senders.note(call, token)?;
        }
        Ok(())
    }
}

/// The server, and the version of its last change.
#[derive(Drop)]
pub(crate) struct ServerEnd<S: Store<A>, A: Allocator + Copy> {
    pub(crate) server: Server<S, A>,
    pub(crate) version: u64,
}

impl<S: Store<A>, A: Allocator + Copy> ServerEnd<S, A> {
    /// Tells the request that the last datagram or tick applied, if it applied one, and what it
    /// changed.
    pub(crate) fn tell(
        &mut self,
        addresses: Addresses,
        senders: &Senders<A>,
        log: &mut Record<A>,
    ) -> Result<(), AllocError>
        ensures same { OnOk result (self.new.server ≡ self.old.server) }
        ensures told { OnOk result (log.new ≡ lines_put
            (applied_told addresses (sender_in senders.now) self.old.server.applied
            (S.content self.old.server.store).holds)
            log.old) }
        ensures version { OnOk result (self.new.version ≡ version_told self.old.server.applied self.old.version) }
    {
        let Some(applied) = self.server.applied() else {
            return Ok(());
        };
        let version = applied.version;
        log.apply(
            senders.call_of(addresses.client, applied.from, &applied.token),
            applied,
        )?;
        if version == 0 {
            return Ok(());
        }
        log.change(&applied.path, version, self.server.get(&applied.path))?;
        self.version = version;
        Ok(())
    }
}
