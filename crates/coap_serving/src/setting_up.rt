//! A server, set up as the words say.
ghost use Rattle.std.specs.Prelude.{◌≡◌, ℕ, List, Ok, Some, IfOk, IfErr, IfNone, IfSome, codes, fold, map};
ghost use Rattle.coap_resource.specs.Content.{Content};
ghost use Rattle.coap_resource.specs.Entries.{content_of};
ghost use Rattle.coap_resource.specs.Limits.{Limits};
ghost use Rattle.coap_server.specs.Led.{Led};
ghost use Rattle.coap_layer.specs.declared.setup.Setup.{Setup as SetupSpec};
ghost use Rattle.coap_server.specs.Object.Shown.{state_of};
ghost use Rattle.coap_server.specs.Trace.{Call};
ghost use Rattle.coap_types.specs.declared.szx.TheConstants.{MAX_SZX as max_szx};
ghost use Rattle.coap_scripts.specs.Settings.{setting_of};
ghost use Rattle.coap_serving.specs.ScriptSettings.{AreMade, IsOfSettings};
ghost use Rattle.coap_serving.specs.SettingUp.{Holds, HoldsResource, IsNotHeld, IsRefused, IsRefusedAfter, IsServer};
ghost use Rattle.coap_serving.specs.SettingUp.{IsServerAfter, RefusesOne, RefusesResource, SetsUp};
ghost use Rattle.coap_serving.specs.SettingUp.{with_delay, with_plain};

use crate::serve_script::{BadLine, limit_by, make_all};
use coap_answers::{fresh_server_after, hold};
use coap_arguments::{Delay, Hold, ServeOptions, path_of_text};
use coap_common::put_away;
use coap_ends::{DelayRefusal, PlainRefusal, Server};
use coap_layer::Setup;
use coap_resource::{MapStore, StoreRefusal, VersionBase};
use coap_scripts::Setting;
use coap_status::Stop;
use coap_types::Path;
use coap_wires::Origin;
use std::alloc::Global;
use std::hash::BuildHasher;

// The resource that is served, and what it holds.
pub(crate) const PATH: &str = "temperature";

pub(crate) const BODY: &str = "22.3 C";

/// Has the server hold the resource, the text of a temperature; the refusal of its store where it
/// doesn't.
pub fn hold_resource<H: BuildHasher + Drop>(
    alloc: Global,
    server: &mut Server<MapStore, Global, H>,
) -> Result<Option<StoreRefusal>, Stop>
    // What led to the server before it was to hold the temperature leads, with the one call that set it, to the server
    // that holds it.
    ensures holds { (limits : Limits) (setup : SetupSpec) (t : List Call)
        → Led limits max_szx setup t (state_of content_of server.old)
        → IfOk result (λ refusal. IfNone refusal ((after : List Call) × HoldsResource t after
        × Led limits max_szx setup after (state_of content_of server.new))) }
    // Where its store refuses the temperature, that one call leads on.
    ensures refused { (limits : Limits) (setup : SetupSpec) (t : List Call)
        → Led limits max_szx setup t (state_of content_of server.old)
        → IfOk result (λ refusal. IfSome refusal (λ why. (after : List Call) × RefusesResource why t after
        × Led limits max_szx setup after (state_of content_of server.new))) }
{
    let Ok(path) = path_of_text(alloc, PATH) else {
        return Err(Stop::Memory);
    };
    hold(server, &path, BODY.as_bytes())
}

// Has the server hold each of these, in order.
fn hold_all<H: BuildHasher + Drop>(
    server: &mut Server<MapStore, Global, H>,
    holds: &[Hold],
) -> Result<Option<StoreRefusal>, Stop>
    ensures holds { (limits : Limits) (setup : SetupSpec) (t : List Call)
        → Led limits max_szx setup t (state_of content_of server.old)
        → IfOk result (λ refusal. IfNone refusal ((after : List Call) × Holds holds.now t after
        × Led limits max_szx setup after (state_of content_of server.new))) }
    ensures refused { (limits : Limits) (setup : SetupSpec) (t : List Call)
        → Led limits max_szx setup t (state_of content_of server.old)
        → IfOk result (λ refusal. IfSome refusal (λ why. (after : List Call) × RefusesOne holds.now why t after
        × Led limits max_szx setup after (state_of content_of server.new))) }
{
    for held in holds {
        if let Some(refusal) = hold(server, &held.path, held.body.as_slice())? {
            return Ok(Some(refusal));
        }
    }
    Ok(None)
}

// Has the requests of each of these paths wait.
fn delay_all<H: BuildHasher + Drop>(
    server: &mut Server<MapStore, Global, H>,
    delays: &[Delay],
) -> Result<(), Stop>
    ensures { (limits : Limits) (setup : SetupSpec) (t : List Call)
        → Led limits max_szx setup t (state_of content_of server.old)
        → IfOk result (λ _. Led limits max_szx setup (fold with_delay t delays.now) (state_of content_of server.new)) }
{
    for delay in delays {
        match server.set_delay(&delay.path, delay.ms) {
            Ok(()) => {}
            Err(DelayRefusal::Memory) => return Err(Stop::Memory),
            // More than the words can name.
            Err(DelayRefusal::Full) => return Err(Stop::Failed),
        }
    }
    Ok(())
}

// Has the observers of each of these paths told in Non-confirmable messages.
fn make_plain<H: BuildHasher + Drop>(
    server: &mut Server<MapStore, Global, H>,
    paths: &[Path],
) -> Result<(), Stop>
    ensures { (limits : Limits) (setup : SetupSpec) (t : List Call)
        → Led limits max_szx setup t (state_of content_of server.old)
        → IfOk result (λ _. Led limits max_szx setup (fold with_plain t paths.now) (state_of content_of server.new)) }
{
    for path in paths {
        match server.set_plain(path) {
            Ok(()) => {}
            Err(PlainRefusal::Memory) => return Err(Stop::Memory),
            // More than the words can name.
            Err(PlainRefusal::Full) => return Err(Stop::Failed),
        }
    }
    Ok(())
}

/// Has the server hold the resource and what the words name, and answer as they say; the refusal of its
/// store where it doesn't.
pub fn set_up<H: BuildHasher + Drop>(
    alloc: Global,
    server: &mut Server<MapStore, Global, H>,
    options: &ServeOptions,
) -> Result<Option<StoreRefusal>, Stop>
    // What led to the server before leads to the one that is set up, with these calls and no other: its resource and
    // what the words name is set, in order, and so are their delays and their plain paths.
    ensures set { (limits : Limits) (setup : SetupSpec) (t : List Call)
        → Led limits max_szx setup t (state_of content_of server.old)
        → IfOk result (λ refusal. IfNone refusal ((after : List Call) × SetsUp options.now t after
        × Led limits max_szx setup after (state_of content_of server.new))) }
    // It is refused only where its store refused to set one of these; the call that was answered so is the last one.
    ensures refused { (limits : Limits) (setup : SetupSpec) (t : List Call)
        → Led limits max_szx setup t (state_of content_of server.old)
        → IfOk result (λ refusal. IfSome refusal (λ why. (after : List Call) × IsNotHeld options.now why t after
        × Led limits max_szx setup after (state_of content_of server.new))) }
{
    if let Some(refusal) = hold_resource(alloc, server)? {
        return Ok(Some(refusal));
    }
    if let Some(refusal) = hold_all(server, options.holds.as_slice())? {
        return Ok(Some(refusal));
    }
    delay_all(server, options.delays.as_slice())?;
    make_plain(server, options.plains.as_slice())?;
    Ok(None)
}

/// Why a server isn't set up.
#[derive(Clone, Copy, Debug, PartialEq, Eq)]
pub enum NotSetUp {
    /// Its store doesn't hold what the words name.
    Refused(StoreRefusal),
    /// It doesn't take what this line of its script says.
    Line(BadLine),
}

// Has the server be as the words say, and then as the settings of a script do; why it isn't.
fn set_up_by<H: BuildHasher + Drop>(
    alloc: Global,
    server: &mut Server<MapStore, Global, H>,
    options: &ServeOptions,
    settings: &[Setting],
) -> Result<Option<NotSetUp>, Stop>
    ensures made { (limits : Limits) (setup : SetupSpec) (t : List Call)
        → Led limits max_szx setup t (state_of content_of server.old)
        → IfOk result (λ why. IfNone why ((set : List Call) × (after : List Call) × SetsUp options.now t set
        × AreMade (map setting_of settings.now) set after
        × Led limits max_szx setup after (state_of content_of server.new))) }
    ensures bad { IfOk result (λ why. IfSome why (IsOfSettings (map setting_of settings.now))) }
    ensures refused { (limits : Limits) (setup : SetupSpec) (t : List Call)
        → Led limits max_szx setup t (state_of content_of server.old)
        → IfOk result (λ why. IfSome why (IsRefused (λ after. Led limits max_szx setup after
        (state_of content_of server.new)) options.now (map setting_of settings.now) t)) }
{
    if let Some(refusal) = set_up(alloc, server, options)? {
        return Ok(Some(NotSetUp::Refused(refusal)));
    }
    match make_all(server, settings)? {
        Some(bad) => Ok(Some(NotSetUp::Line(bad))),
        None => Ok(None),
    }
}

/// A server that is set up as the words and the settings of a script say, and begins with this word. Its versions begin
/// with 1. Or why it isn't.
pub fn server_by<H: BuildHasher + Drop>(
    alloc: Global,
    word: u64,
    options: &ServeOptions,
    settings: &[Setting],
    hasher: H,
) -> Result<Result<Server<MapStore, Global, H>, NotSetUp>, Stop>
    // The server that the words set up has versions from 1 on; it remembers as many messages as they say, and takes
    // bodies up to the limit that the script says, or the words; the calls that set it up have led to it, and no other.
    ensures made { IfOk result (λ made. IfOk made (λ server. IsServer word options.now (map setting_of settings.now)
        (state_of content_of server))) }
    // A line of the script is named only where the script has one.
    ensures bad { IfOk result (λ made. IfErr made (IsOfSettings (map setting_of settings.now))) }
    // A server is refused only where its store, which was empty, refused to set what the words name, or where it then
    // didn't take the line that is named, and was as each before that says.
    ensures refused { IfOk result (λ made. IfErr made (IsRefusedAfter (record { word = word; base = 0 }) options.now
        (map setting_of settings.now))) }
{
    let origin = Origin {
        word,
        base: VersionBase::default(),
    };
    server_after(alloc, origin, options, settings, hasher)
}

/// A server that is set up as the words and the settings of a script say, and begins with this word and after this
/// base; why it isn't.
pub fn server_after<H: BuildHasher + Drop>(
    alloc: Global,
    origin: Origin,
    options: &ServeOptions,
    settings: &[Setting],
    hasher: H,
) -> Result<Result<Server<MapStore, Global, H>, NotSetUp>, Stop>
    // The server of `serve` has versions after its base; it remembers as many messages as its words say, and takes
    // bodies up to the limit that its script says, or its words; the calls that set it up have led to it, and no other.
    ensures made { IfOk result (λ made. IfOk made (λ server. IsServerAfter origin options.now
        (map setting_of settings.now) (state_of content_of server))) }
    // A line is named only of a script that has one.
    ensures bad { IfOk result (λ made. IfErr made (IsOfSettings (map setting_of settings.now))) }
    // `serve` refuses only where the store of its server, which was empty, refused to set what its words name, or where
    // it then didn't take the line that is named, and was as each before that says.
    ensures refused { IfOk result (λ made. IfErr made (IsRefusedAfter origin options.now
        (map setting_of settings.now))) }
{
    let setup = Setup {
        word: origin.word,
        remembered: options.remembered,
    };
    let limit = limit_by(options.limit, settings);
    let mut server = fresh_server_after(alloc, setup, limit, origin.base, hasher);
    match set_up_by(alloc, &mut server, options, settings) {
        Ok(None) => Ok(Ok(server)),
        Ok(Some(why)) => {
            put_away(server);
            Ok(Err(why))
        }
        Err(stop) => {
            put_away(server);
            Err(stop)
        }
    }
}
