//! With what a run begins.
ghost use Rattle.std.specs.Prelude.{◌≡◌, ◌≢◌, ◌≤◌, ◌↔◌, [], true, false, Err, is_some, IfSome, IsSome, OnErr, OnOk};
ghost use Rattle.coap_server.specs.Deferring.{delay_of, delays_with, may_delay};
ghost use Rattle.coap_server.specs.declared.server.delays.DelayRefusal.TheVariants as delay_refusals;
ghost use Rattle.coap_block.specs.Sizes.{usual_sizes};
ghost use Rattle.coap_resource.specs.Limits.{usual_limits};
ghost use Rattle.coap_server.specs.Plain.{is_plain, may_be_plain, plains_with};
ghost use Rattle.coap_server.specs.declared.server.plain.PlainRefusal.TheVariants as plain_refusals;
ghost use Rattle.coap_record.specs.Events.{usual_addresses};
ghost use Rattle.coap_run.specs.Run.Configs.{with_addresses, with_base, with_delays, with_limits, with_plains};
ghost use Rattle.coap_run.specs.Run.Configs.{with_remembered};
ghost use Rattle.coap_layer.specs.Machine.State.{usual};

use crate::running::deliver::is_end;
use crate::running::ranges::show_endpoint;
use coap_ends::{Delay, DelayRefusal, PlainRefusal, give_delay, give_plain};
use coap_layer::Setup;
use coap_record::{Addresses, CLIENT_END, SERVER_END};
use coap_resource::{MAX_CHANGES_PER_WINDOW, VersionBase};
use coap_types::{BodyLimit, Endpoint, Path, Remembered, Szx};
use std::alloc::{Allocator, Global};
use std::marker::Model;

/// With what a run begins: where its ends stand, the words, the numbers of remembered messages, the block sizes and the
/// limits of bodies of both ends, how many changes a window takes, after which version the server's versions begin,
/// which paths are answered later, and which are notified in NONs.
#[derive(Drop)]
pub struct WorldConfig<A: Allocator + Copy = Global> {
    pub(crate) alloc: A,
    pub(crate) addresses: Addresses,
    pub(crate) client_setup: Setup,
    pub(crate) client_szx: Szx,
    pub(crate) client_limit: BodyLimit,
    pub(crate) server_setup: Setup,
    pub(crate) server_szx: Szx,
    pub(crate) server_limit: BodyLimit,
    pub(crate) changes: u32,
    pub(crate) base: VersionBase,
    pub(crate) delays: Vec<Delay<A>, A>,
    pub(crate) plains: Vec<Path<A>, A>,
}

impl<A: Allocator + Copy> Model for WorldConfig<A> {
    ghost use Rattle.coap_record.specs.Events.{Config};
    ghost use Rattle.coap_record.specs.Legal.{IsConfig};

    ghost Value = { Config };

    ghost use Rattle.coap_run.specs.Run.Configs.{config_of};

    ghost view = { λ c. config_of c.addresses c.client_setup (record { szx = c.client_szx; limit = c.client_limit })
        c.server_setup c.server_szx
        (record { changes = c.changes; body = c.server_limit; base = c.base }) c.delays.items c.plains.items };

    ghost invariant = { λ c. IsConfig (config_of c.addresses c.client_setup
        (record { szx = c.client_szx; limit = c.client_limit })
        c.server_setup c.server_szx (record { changes = c.changes; body = c.server_limit; base = c.base })
        c.delays.items c.plains.items) };
}

impl<A: Allocator + Copy> WorldConfig<A> {
    /// At `CLIENT_END` and `SERVER_END`, with no delays and no plain path, with the limits of
    /// `BodyLimit::default()`, as many remembered messages as `Remembered::default()`, and versions from 1 on; None
    /// where a store does not take so many changes in a window.
    pub fn new(
        alloc: A,
        client_word: u64,
        server_word: u64,
        client_szx: Szx,
        server_szx: Szx,
        changes: u32,
    ) -> Option<WorldConfig<A>>
        // A `new` run has the usual addresses, these words, sizes and changes a window, the usual limits and numbers of
        // remembered messages, no delay and no plain path.
        ensures config { IfSome result (λ c. c ≡ record {
          addresses = usual_addresses;
          client_setup = usual client_word;
          client_sizes = usual_sizes client_szx;
          server_setup = usual server_word;
          server_szx = server_szx;
          limits = usual_limits changes;
          delays = [];
          plains = [];
        }) }
        // It is made exactly where the changes a window are at least one and at most the greatest number.
        ensures when { IsSome result ↔ ((1 ≤ changes) × (changes ≤ MAX_CHANGES_PER_WINDOW)) }
    {
        if changes < 1 || changes > MAX_CHANGES_PER_WINDOW {
            return None;
        }
        Some(WorldConfig {
            alloc,
            addresses: Addresses {
                client: CLIENT_END,
                server: SERVER_END,
            },
            client_setup: Setup::new(client_word),
            client_szx,
            client_limit: BodyLimit::default(),
            server_setup: Setup::new(server_word),
            server_szx,
            server_limit: BodyLimit::default(),
            changes,
            base: VersionBase::default(),
            delays: Vec::new(alloc),
            plains: Vec::new(alloc),
        })
    }

    /// Has the client and the server stand at these addresses; false, and nothing is changed, where they are one.
    pub fn at(&mut self, client: Endpoint, server: Endpoint) -> bool
        // The ends of the run stand at two addresses that are given, and all else is as it was.
        ensures yes { result ≡ true → self.new ≡ with_addresses self.old client server }
        // Where one address is given for both, nothing in the run is changed.
        ensures no { result ≡ false → self.new ≡ self.old }
        // They stand there exactly where the addresses are two.
        ensures when { (result ≡ true) ↔ (client ≢ server) }
    {
        if is_end(client, server) {
            return false;
        }
        show_endpoint(client);
        show_endpoint(server);
        self.addresses = Addresses { client, server };
        true
    }

    /// Has the client and the server begin with these limits of bodies.
    pub fn limits(&mut self, client: BodyLimit, server: BodyLimit)
        // The run has these limits of bodies, and all else is as it was.
        ensures { self.new ≡ with_limits self.old client server }
    {
        self.client_limit = client;
        self.server_limit = server;
    }

    /// Has the versions of the server begin after this base.
    pub fn base(&mut self, base: VersionBase)
        // The versions of the run's server begin after this base, and all else is as it was.
        ensures { self.new ≡ with_base self.old base }
    {
        let _version = base.get();
        self.base = base;
    }

    /// Has the client and the server remember so many messages at most (RFC 7252, section 4.5).
    pub fn remembered(&mut self, client: Remembered, server: Remembered)
        // The ends of the run remember so many messages, and all else is as it was.
        ensures { self.new ≡ with_remembered self.old client server }
    {
        let _client = client.get();
        let _server = server.get();
        self.client_setup.remembered = client;
        self.server_setup.remembered = server;
    }

    /// Has each Confirmable request of the path wait for so many milliseconds, as
    /// `coap_ends::Server::set_delay` does. It takes no memory where `MAX_DELAYS` other paths have a
    /// delay, or the path has one.
    pub fn delay(&mut self, path: &Path<A>, ms: u64) -> Result<(), DelayRefusal>
        // The path of a run has the delay that it is given.
        ensures ok { OnOk result (self.new ≡ with_delays self.old (delays_with path.now ms true self.old.delays)) }
        // A delay that is refused changes nothing in the run.
        ensures err { OnErr result (self.new ≡ self.old) }
        // A delay is refused as Full exactly where the path has none and 16 others have one.
        ensures full { (result ≡ Err delay_refusals.Full) ↔ (may_delay path.now self.old.delays ≡ false) }
        // A further delay for a path of the run that has one takes no memory.
        ensures again { is_some (delay_of path.now self.old.delays) ≡ true → result ≢ Err delay_refusals.Memory }
    {
        let _path = path.segments();
        match give_delay(&mut self.delays, path, ms) {
            Ok(true) => Ok(()),
            Ok(false) => Err(DelayRefusal::Full),
            Err(_) => Err(DelayRefusal::Memory),
        }
    }

    /// Has each notification of the path go in a Non-confirmable message where it may, as
    /// `coap_ends::Server::set_plain` does. It takes no memory where `MAX_PLAINS` other paths are plain,
    /// or the path is.
    pub fn plain(&mut self, path: &Path<A>) -> Result<(), PlainRefusal>
        // The path of a run is plain behind it.
        ensures ok { OnOk result (self.new ≡ with_plains self.old (plains_with path.now true self.old.plains)) }
        // A path that isn't made plain changes nothing in the run.
        ensures err { OnErr result (self.new ≡ self.old) }
        // It is refused as Full exactly where the path isn't plain and 16 others are.
        ensures full { (result ≡ Err plain_refusals.Full) ↔ (may_be_plain path.now self.old.plains ≡ false) }
        // A path of the run that is plain takes no memory.
        ensures again { is_plain path.now self.old.plains ≡ true → result ≢ Err plain_refusals.Memory }
    {
        let _path = path.segments();
        match give_plain(&mut self.plains, path) {
            Ok(true) => Ok(()),
            Ok(false) => Err(PlainRefusal::Full),
            Err(_) => Err(PlainRefusal::Memory),
        }
    }
}
