//! The two ends with which a run begins.
ghost use Rattle.std.specs.Prelude.{◌≡◌, [], IfOk, OnOk};
ghost use Rattle.coap_server.specs.Object.Shown.{state_of};
ghost use Rattle.coap_server.specs.Led.{Led};
ghost use Rattle.coap_record.specs.Record.{begun_with};
ghost use Rattle.coap_record.specs.Begins.{gives};
ghost use Rattle.coap_run.specs.Run.Ends.{ClientLed, ServerLed};

use crate::running::config::WorldConfig;
use crate::running::ends::{ClientEnd, ServerEnd};
use crate::running::put_away::put_away;
use crate::running::senders::Senders;
use coap_ends::{Client, DelayRefusal, PlainRefusal, Server};
use coap_resource::Store;
use std::alloc::{AllocError, Allocator};
use std::hash::BuildHasherDefault;

/// The client.
pub(crate) fn client_of<A: Allocator + Copy>(config: &WorldConfig<A>) -> ClientEnd<A>
    ensures { ClientLed config.now [] result }
{
    let client = Client::with_setup(
        config.alloc,
        config.addresses.server,
        config.client_szx,
        config.client_limit,
        config.client_setup,
        BuildHasherDefault::new(),
    );
    ClientEnd {
        client,
        senders: Senders::new(config.alloc),
    }
}

// The server, without the delays and the plain paths.
fn fresh_server<S: Store<A>, A: Allocator + Copy>(config: &WorldConfig<A>) -> Server<S, A>
    ensures { Led config.now.limits config.now.server_szx config.now.server_setup [] (state_of S.content result) }
{
    let Some(store) = S::new_after(
        config.alloc,
        config.changes,
        config.server_limit,
        config.base,
    ) else {
        unreachable!()
    };
    Server::with_setup(
        config.alloc,
        store,
        config.server_szx,
        config.server_setup,
        BuildHasherDefault::new(),
    )
}

// Gives a server the delays, from the last to the first.
fn give_delays<S: Store<A>, A: Allocator + Copy>(
    server: &mut Server<S, A>,
    config: &WorldConfig<A>,
) -> Result<(), AllocError>
    requires { Led config.now.limits config.now.server_szx config.now.server_setup [] (state_of S.content server.old) }
    ensures { OnOk result (Led config.now.limits config.now.server_szx config.now.server_setup (gives config.now.delays)
        (state_of S.content server.new)) }
{
    let mut left = config.delays.len();
    'delays: while left > 0 {
        left -= 1;
        let delay = &config.delays[left];
        match server.set_delay(&delay.path, delay.ms) {
            Ok(()) => {}
            Err(DelayRefusal::Full) => unreachable!(),
            Err(DelayRefusal::Memory) => return Err(AllocError),
        }
    }
    Ok(())
}

// Then makes the paths plain, from the last to the first.
fn make_plain<S: Store<A>, A: Allocator + Copy>(
    server: &mut Server<S, A>,
    config: &WorldConfig<A>,
) -> Result<(), AllocError>
    requires { Led config.now.limits config.now.server_szx config.now.server_setup (gives config.now.delays)
        (state_of S.content server.old) }
    ensures { OnOk result (Led config.now.limits config.now.server_szx config.now.server_setup (begun_with config.now)
        (state_of S.content server.new)) }
{
    let mut left = config.plains.len();
    'plains: while left > 0 {
        left -= 1;
        match server.set_plain(&config.plains[left]) {
            Ok(()) => {}
            Err(PlainRefusal::Full) => unreachable!(),
            Err(PlainRefusal::Memory) => return Err(AllocError),
        }
    }
    Ok(())
}

// .. both.
fn set_up<S: Store<A>, A: Allocator + Copy>(
    server: &mut Server<S, A>,
    config: &WorldConfig<A>,
) -> Result<(), AllocError>
    requires { Led config.now.limits config.now.server_szx config.now.server_setup [] (state_of S.content server.old) }
    ensures { OnOk result (Led config.now.limits config.now.server_szx config.now.server_setup (begun_with config.now)
        (state_of S.content server.new)) }
{
    give_delays(server, config)?;
    make_plain(server, config)
}

/// The server, which is given the delays and the plain paths.
pub(crate) fn server_of<S: Store<A>, A: Allocator + Copy>(
    config: &WorldConfig<A>,
) -> Result<ServerEnd<S, A>, AllocError>
    ensures { IfOk result (λ server. ServerLed S.content config.now (begun_with config.now) server) }
{
    let mut server = fresh_server(config);
    let version = config.base.get();
    match set_up(&mut server, config) {
        Ok(()) => Ok(ServerEnd { server, version }),
        Err(why) => {
            put_away(server);
            Err(why)
        }
    }
}
