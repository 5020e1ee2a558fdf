//! `serve --script`: what a script says of how a server is set up.
ghost use Rattle.std.specs.Prelude.{◌≡◌, ◌≤◌, ◌∷◌, ℕ, List, map, length, IfErr, IfNone, IfOk, IfSome};
ghost use Rattle.std.specs.Prelude.{OnOk};
ghost use Rattle.std.specs.Io.KnownBytes.{Appends};
ghost use Rattle.coap_resource.specs.Entries.{content_of};
ghost use Rattle.coap_resource.specs.Limits.{Limits};
ghost use Rattle.coap_server.specs.Led.{Led};
ghost use Rattle.coap_layer.specs.declared.setup.Setup.{Setup as SetupSpec};
ghost use Rattle.coap_server.specs.Object.Shown.{state_of};
ghost use Rattle.coap_server.specs.Trace.{Call, Delays, Plains};
ghost use Rattle.coap_types.specs.declared.szx.TheConstants.{MAX_SZX as max_szx};
ghost use Rattle.coap_scripts.specs.Script.{EachOf, IsFirstBad, lines_of};
ghost use Rattle.coap_scripts.specs.Settings.{SaysSetting, setting_of};
ghost use Rattle.coap_serving.specs.Printed.{bad_line_text};
ghost use Rattle.coap_serving.specs.ScriptSettings.{AreMade, AreOfScriptIn, HoldsIf, IsBadInScript, IsFirstNotMade};
ghost use Rattle.coap_serving.specs.ScriptSettings.{IsMadeIf, limit_by, limit_with};
ghost use Rattle.coap_status.specs.declared.status.Status.TheVariants.{Words};

use coap_answers::refusal_of;
use coap_ends::{DelayRefusal, PlainRefusal, Server};
use coap_resource::MapStore;
use coap_scripts::{ScriptRefusal, Setting, settings_of};
use coap_status::{Status, Stop, stop_of};
use coap_types::{BodyLimit, Moment, Path};
use std::alloc::Global;
use std::fs;
use std::hash::BuildHasher;
use std::io::{Read, Write};
use std::rt::Files;

/// The line of a server's script that is wrong, by its number, from 1.
#[derive(Clone, Copy, Debug, PartialEq, Eq)]
pub struct BadLine(pub usize);

// What a setting leaves the limit.
fn limit_with(limit: BodyLimit, setting: &Setting) -> BodyLimit
    ensures { result ≡ limit_with limit (setting_of setting.now) }
{
    match setting {
        Setting::Limit(most) => *most,
        Setting::Nothing | Setting::Hold(_, _, _) | Setting::Delay(_, _) | Setting::Plain(_) => {
            limit
        }
    }
}

/// The longest body that a server takes: what the last setting says that says one, else this.
pub fn limit_by(limit: BodyLimit, settings: &[Setting]) -> BodyLimit
    // The limit is the last that a script says, and without one it is that of the words.
    ensures { result ≡ limit_by limit (map setting_of settings.now) }
{
    let mut last = limit;
    for setting in settings {
        last = limit_with(last, setting);
    }
    last
}

// Has the server hold this; whether its store takes it.
fn hold<H: BuildHasher + Drop>(
    server: &mut Server<MapStore, Global, H>,
    path: &Path,
    format: u16,
    body: &[u8],
) -> Result<bool, Stop>
    ensures { (limits : Limits) (setup : SetupSpec) (t : List Call)
        → Led limits max_szx setup t (state_of content_of server.old)
        → IfOk result (λ is. (after : List Call) × HoldsIf is path.now format body.now t after
        × Led limits max_szx setup after (state_of content_of server.new)) }
{
    match server.set(Moment(0), path, Some(format), body) {
        Ok(_) => Ok(true),
        Err(refusal) => {
            let _why = refusal_of(refusal)?;
            Ok(false)
        }
    }
}

// Has the requests of a path wait; whether there is a place for one more such path.
fn delay<H: BuildHasher + Drop>(
    server: &mut Server<MapStore, Global, H>,
    path: &Path,
    ms: u64,
) -> Result<bool, Stop>
    ensures { (limits : Limits) (setup : SetupSpec) (t : List Call)
        → Led limits max_szx setup t (state_of content_of server.old)
        → IfOk result (λ is. Led limits max_szx setup (Delays path.now ms is ∷ t) (state_of content_of server.new)) }
{
    match server.set_delay(path, ms) {
        Ok(()) => Ok(true),
        Err(DelayRefusal::Memory) => Err(Stop::Memory),
        Err(DelayRefusal::Full) => Ok(false),
    }
}

// Has the observers of a path told in Non-confirmable messages; whether there is a place for one more such path.
fn plain<H: BuildHasher + Drop>(
    server: &mut Server<MapStore, Global, H>,
    path: &Path,
) -> Result<bool, Stop>
    ensures { (limits : Limits) (setup : SetupSpec) (t : List Call)
        → Led limits max_szx setup t (state_of content_of server.old)
        → IfOk result (λ is. Led limits max_szx setup (Plains path.now is ∷ t) (state_of content_of server.new)) }
{
    match server.set_plain(path) {
        Ok(()) => Ok(true),
        Err(PlainRefusal::Memory) => Err(Stop::Memory),
        Err(PlainRefusal::Full) => Ok(false),
    }
}

// Has the server be as a setting says; whether it takes that.
fn make<H: BuildHasher + Drop>(
    server: &mut Server<MapStore, Global, H>,
    setting: &Setting,
) -> Result<bool, Stop>
    ensures { (limits : Limits) (setup : SetupSpec) (t : List Call)
        → Led limits max_szx setup t (state_of content_of server.old)
        → IfOk result (λ is. (after : List Call) × IsMadeIf is (setting_of setting.now) t after
        × Led limits max_szx setup after (state_of content_of server.new)) }
{
    match setting {
        Setting::Hold(path, format, body) => hold(server, path, *format, body.as_slice()),
        Setting::Delay(path, ms) => delay(server, path, *ms),
        Setting::Plain(path) => plain(server, path),
        Setting::Nothing | Setting::Limit(_) => Ok(true),
    }
}

/// Has the server be as the settings say, in order; the line of the first that it doesn't take.
pub fn make_all<H: BuildHasher + Drop>(
    server: &mut Server<MapStore, Global, H>,
    settings: &[Setting],
) -> Result<Option<BadLine>, Stop>
    // What led to the server before the settings of a script leads, with the calls that they are and no other, to the
    // server that took each of them.
    ensures made { (limits : Limits) (setup : SetupSpec) (t : List Call)
        → Led limits max_szx setup t (state_of content_of server.old)
        → IfOk result (λ bad. IfNone bad ((after : List Call) × AreMade (map setting_of settings.now) t after
        × Led limits max_szx setup after (state_of content_of server.new))) }
    // The line that is named is the first that the server doesn't take: its store refuses that, or there is no place
    // for one more such path.
    ensures refused { (limits : Limits) (setup : SetupSpec) (t : List Call)
        → Led limits max_szx setup t (state_of content_of server.old)
        → IfOk result (λ bad. IfSome bad (λ line. (after : List Call)
        × IsFirstNotMade (map setting_of settings.now) line.0 t after
        × Led limits max_szx setup after (state_of content_of server.new))) }
    // A line that a server doesn't take is one of those that its script has.
    ensures bad { IfOk result (λ bad. IfSome bad (λ line. (1 ≤ line.0) × (line.0 ≤ length settings.now))) }
{
    let mut made: usize = 0;
    for setting in settings {
        if !make(server, setting)? {
            return Ok(Some(BadLine(made + 1)));
        }
        made += 1;
    }
    Ok(None)
}

/// The settings that a text says, or its first line that says none.
pub fn script_in(alloc: Global, text: &[u8]) -> Result<Result<Vec<Setting>, BadLine>, Stop>
    // The settings of a server's script are those of the lines of its text.
    ensures said { IfOk result (λ read. IfOk read (λ settings. EachOf SaysSetting (lines_of text.now)
        (map setting_of settings.items))) }
    // The line of a server's script that is named is the first that says no setting.
    ensures bad { IfOk result (λ read. IfErr read (λ bad. IsFirstBad SaysSetting (lines_of text.now) bad.0)) }
{
    match settings_of(alloc, text) {
        Ok(settings) => Ok(Ok(settings)),
        Err(ScriptRefusal::Line(number)) => Ok(Err(BadLine(number))),
        Err(ScriptRefusal::Memory) => Err(Stop::Memory),
    }
}

/// Where the texts of files are.
pub(crate) trait Texts {
    /// Which text the file of a name may have.
    ghost has: { Self → List ℕ → List ℕ → Type 0 };

    /// What is in the file of this name.
    fn text_of(&self, name: &str) -> Result<Vec<u8>, Stop>
        ensures { IfOk result (λ text. has self.now name.now text.items) };
}

/// The text of a file is what it has, where that is known.
impl<R: AllocGlobal + Files> Texts for R {
    ghost has = { λ _ _ text. (file : R.File) × IfSome (R.File.remaining file) (λ held. text ≡ held) };

    fn text_of(&self, name: &str) -> Result<Vec<u8>, Stop> {
        let file = fs::open(self, name).map_err(|error| stop_of(&error))?;
        text_in(self.alloc(), file)
    }
}

// What a file has.
fn text_in<F: Read + Drop>(alloc: Global, file: F) -> Result<Vec<u8>, Stop>
    ensures { IfOk result (λ text. IfSome (F.remaining file) (λ held. text.items ≡ held)) }
{
    let mut file = file;
    let mut text = Vec::new(alloc);
    match file.read_to_end(&mut text) {
        Ok(_) => Ok(text),
        Err(error) => Err(stop_of(&error)),
    }
}

/// The settings of the script in a file, or its first line that says none; where none is named, there are none.
pub(crate) fn script_of<R: AllocGlobal + Texts>(
    rt: &R,
    name: Option<&str>,
) -> Result<Result<Vec<Setting>, BadLine>, Stop>
    ensures said { IfOk result (λ read. IfOk read (λ settings. AreOfScriptIn (R.has rt.now) name.entry
        (map setting_of settings.items))) }
    ensures bad { IfOk result (λ read. IfErr read (λ bad. IsBadInScript (R.has rt.now) name.entry bad.0)) }
{
    let Some(name) = name else {
        return Ok(Ok(Vec::new(rt.alloc())));
    };
    let text = rt.text_of(name)?;
    script_in(rt.alloc(), text.as_slice())
}

/// Says which line is wrong.
pub(crate) fn tell_bad_line<W: Write>(bad: BadLine, out: &mut W) -> Result<Status, Stop>
    ensures status { IfOk result (λ status. status ≡ Words) }
    ensures printed { OnOk result (Appends (W.contents out.old) (W.contents out.new) (bad_line_text bad.0)) }
{
    let number = bad.0;
    writeln!(out, "bad line {number}")?;
    Ok(Status::Words)
}
