//! What `--changes` prints: a line for each request that the server applies, in words or in JSON.
ghost use Rattle.std.specs.Prelude.{◌≡◌, ℕ, Bool, List, IfOk, is_ok, is_some, option_copied};
ghost use Rattle.coap_types.specs.declared.request.Method.{Method as MethodSpec};
ghost use Rattle.coap_server.specs.Object.Shown.{applied_list};
ghost use Rattle.coap_server.specs.Trace.{Applied as AppliedSpec};
ghost use Rattle.coap_json.specs.Objects.{IsLineOf};
ghost use Rattle.coap_json.specs.OtherObjects.{applied_object};
ghost use Rattle.coap_serving.specs.ToldChanges.{IsToldOnce, IsToldWhere};

use coap_ends::{Applied, End, Server};
use coap_journaled::JournalFile;
use coap_json::applied_line;
use coap_kept::Kept;
use coap_layer::Datagram;
use coap_print::{PathWords, code_name};
use coap_resource::Store;
use coap_types::{Endpoint, Method, Moment, Path};
use coap_wires::SharedWriter;
use std::alloc::{AllocError, Allocator};
use std::cell::RefCell;
use std::hash::BuildHasher;
use std::io::Write;
use std::{fmt, io};

/// How many bytes of a body are told.
pub const MAX_TOLD_LEN: usize = 64;

const _: () = prove!(MAX_TOLD_LEN == 64);

/// A request that was applied, in words: the moment, the method, the path, the version that it made, and the first
/// `MAX_TOLD_LEN` bytes of the body, with `..` behind a longer one. No byte of it is printed as it is but where it
/// is printable ASCII.
#[derive(Clone, Copy)]
pub struct ChangeWords<'a, A: Allocator + Copy> {
    /// When it was applied.
    pub at: Moment,
    /// What it asked for.
    pub method: Method,
    /// Of which resource.
    pub path: &'a Path<A>,
    /// The version that it made, 0 where it changed nothing.
    pub version: u64,
    /// What the path holds then; empty where it holds nothing.
    pub body: &'a [u8],
}

impl<'a, A: Allocator + Copy> fmt::Display for ChangeWords<'a, A> {
    fn fmt<W: fmt::Write>(&self, f: &mut fmt::Formatter<W>) -> fmt::Result {
        let at = self.at.0;
        let method = code_name(self.method.code()).unwrap_or("");
        let version = self.version;
        let path = PathWords(self.path);
        write!(f, "{at} {method} {path} v{version}")?;
        write_body(f, self.body)
    }
}

// The first bytes of a body, a space in front; nothing where there are none.
fn write_body<W: fmt::Write>(f: &mut fmt::Formatter<W>, body: &[u8]) -> fmt::Result {
    if body.is_empty() {
        return Ok(());
    }
    f.write_str(" ")?;
    for byte in body.get(..MAX_TOLD_LEN).unwrap_or(body) {
        let byte = *byte;
        match byte {
            b' '..=b'~' => f.write_char(byte as char)?,
            _ => write!(f, "\\x{byte:02x}")?,
        }
    }
    if body.len() > MAX_TOLD_LEN {
        f.write_str("..")?;
    }
    Ok(())
}

/// What is told of the requests that a server applies, as on a writer.
pub trait ChangeTeller<A: Allocator + Copy> {
    /// The teller before, when a request was applied, its method, its path, the version that it made and the body that
    /// the path holds then, whether it was told of, and the teller after.
    ghost tells_change: { Self → ℕ → MethodSpec → List (List ℕ) → ℕ → List ℕ → Bool → Self → Type 0 };

    /// Tells of a request that was applied. An `Err` says that it did not, or not to the end.
    fn tell_change(
        &mut self,
        at: Moment,
        method: Method,
        path: &Path<A>,
        version: u64,
        body: &[u8],
    ) -> io::Result<()>
        // A teller of changes tells of that request, as its own words have it, and says whether it did.
        ensures { tells_change self.old at.0 method path.now version body.now (is_ok result) self.new };
}

/// Tells of each request that is applied on a writer, a line each, at once: in words, or as an object of JSON.
#[derive(Drop)]
pub struct ChangeLines<A, W> {
    alloc: A,
    out: W,
    is_json: bool,
}

impl<A: Allocator + Copy, W: Write> ChangeLines<A, W> {
    /// Tells on this writer.
    pub fn new(alloc: A, out: W, is_json: bool) -> ChangeLines<A, W>
        // A teller of changes is on its writer as that is.
        ensures out { result.out ≡ out }
        // It tells in JSON exactly where that is wanted.
        ensures json { result.is_json ≡ is_json }
    {
        ChangeLines {
            alloc,
            out,
            is_json,
        }
    }
}

/// A teller of changes on a writer that others have too, where one is wanted.
pub fn changes_on<'a, A: Allocator + Copy, W: Write>(
    alloc: A,
    out: &'a RefCell<W>,
    is_wanted: bool,
    is_json: bool,
) -> Option<ChangeLines<A, SharedWriter<'a, W>>>
    // There is a teller of changes exactly where one is wanted.
    ensures { is_some result ≡ is_wanted }
{
    if is_wanted {
        Some(ChangeLines::new(alloc, SharedWriter(out), is_json))
    } else {
        None
    }
}

// The line of a request that was applied, in words.
fn words_line<A: Allocator + Copy>(
    alloc: A,
    words: &ChangeWords<'_, A>,
) -> Result<Vec<u8, A>, AllocError> {
    let words = *words;
    Ok(format!(in alloc; "{words}\n")?.into_bytes())
}

// .. in JSON.
fn object_line<A: Allocator + Copy>(
    alloc: A,
    words: &ChangeWords<'_, A>,
) -> Result<Vec<u8, A>, AllocError>
    ensures { IfOk result (λ line. (path : List ℕ) × IsLineOf line.items
        (applied_object words.now.at.0 words.now.method path words.now.version words.now.body.now)) }
{
    let path = PathWords(words.path);
    let path = format!(in alloc; "{path}")?;
    applied_line(
        alloc,
        words.at,
        words.method,
        path.as_str(),
        words.version,
        words.body,
    )
}

impl<A: Allocator + Copy, W: Write> ChangeTeller<A> for ChangeLines<A, W> {
    ghost use Rattle.std.specs.Prelude.{true};
    ghost use Rattle.coap_serving.specs.ToldChanges.{WritesApplied};

    ghost tells_change = { λ t at method _ version body told u. told ≡ true → t.is_json ≡ true
        → WritesApplied (W.contents t.out) (W.contents u.out) at method version body };

    fn tell_change(
        &mut self,
        at: Moment,
        method: Method,
        path: &Path<A>,
        version: u64,
        body: &[u8],
    ) -> io::Result<()> {
        let words = ChangeWords {
            at,
            method,
            path,
            version,
            body,
        };
        let line = if self.is_json {
            object_line(self.alloc, &words)?
        } else {
            words_line(self.alloc, &words)?
        };
        self.out.write_all(line.as_slice())
    }
}

/// An end that applies requests.
pub trait Applies<A: Allocator + Copy> {
    /// What the last `feed` or `tick` applied: nothing, or one request.
    ghost applies: { Self → List AppliedSpec };

    /// The body that a path holds; empty where it holds nothing.
    ghost bodies: { Self → List (List ℕ) → List ℕ };

    /// What the last `feed` or `tick` applied, if any.
    fn last_applied(&self) -> Option<&Applied<A>>
        // What an end says that it applied last is what its own words have.
        ensures { applied_list (option_copied result) ≡ applies self.now };

    /// The body that a path holds; empty where it holds nothing.
    fn body_at(&self, path: &Path<A>) -> &[u8]
        // The body that an end has for a path is the one that its own words have.
        ensures { result.now ≡ bodies self.now path.now };
}

impl<S: Store<A>, A: Allocator + Copy, H: BuildHasher> Applies<A> for Server<S, A, H> {
    ghost use Rattle.coap_server.specs.Object.Shown.{state_of};
    ghost use Rattle.coap_serving.specs.ToldChanges.{body_of};

    ghost applies = { λ s. (state_of S.content s).own.applied };

    ghost bodies = { λ s path. body_of ((state_of S.content s).own.store.holds path) };

    fn last_applied(&self) -> Option<&Applied<A>> {
        Server::applied(self)
    }

    fn body_at(&self, path: &Path<A>) -> &[u8] {
        match Server::get(self, path) {
            Some(held) => held.body.as_slice(),
            None => &[],
        }
    }
}

impl<S: Store<A>, F: JournalFile, A: Allocator + Copy, H: BuildHasher> Applies<A>
    for Kept<Server<S, A, H>, F, A> {
    ghost use Rattle.coap_server.specs.Object.Shown.{state_of};
    ghost use Rattle.coap_journaled.specs.Journal.{shown};
    ghost use Rattle.coap_serving.specs.ToldChanges.{applied_if_kept, body_of};

    ghost applies = { λ k. applied_if_kept (shown (state_of S.content) k.journaled) };

    ghost bodies = { λ k path. body_of ((state_of S.content k.journaled.end).own.store.holds path) };

    fn last_applied(&self) -> Option<&Applied<A>> {
        self.journaled().applied()
    }

    fn body_at(&self, path: &Path<A>) -> &[u8] {
        match self.journaled().end().get(path) {
            Some(held) => held.body.as_slice(),
            None => &[],
        }
    }
}

/// An end that tells of each request that it applies, once, where there is a teller. What it does beside is what the
/// end does that it is around; where a request can't be told of, as for want of memory, it goes on as well.
#[derive(Drop)]
pub struct TellingEnd<E, T> {
    /// The end that it is around.
    pub end: E,
    teller: Option<T>,
    untold: u64,
}

impl<E: Drop, T: Drop> TellingEnd<E, T> {
    /// Has a teller, where there is one, tell of the requests that an end applies.
    pub fn new(end: E, teller: Option<T>) -> TellingEnd<E, T>
        // A `new` telling end is around its end as that is, and has missed nothing to tell of.
        ensures { result ≡ record { end = end; teller = teller; untold = 0 } }
    {
        TellingEnd {
            end,
            teller,
            untold: 0,
        }
    }

    /// How many requests it could not tell of, up to the last value of a `u64`.
    pub fn untold(&self) -> u64
        // The number is that of the requests that it could not tell of.
        ensures { result ≡ self.now.untold }
    {
        self.untold
    }
}

// Tells of a request, once, and counts one that can't be told of.
fn tell_once<A: Allocator + Copy, T: ChangeTeller<A>>(
    teller: &mut T,
    untold: &mut u64,
    at: Moment,
    applied: &Applied<A>,
    body: &[u8],
)
    ensures { IsToldOnce (λ t told u. T.tells_change t at.0 applied.now.method applied.now.path applied.now.version
        body.now told u)
        teller.old untold.old teller.new untold.new }
{
    let ended = teller.tell_change(at, applied.method, &applied.path, applied.version, body);
    if ended.is_err() {
        *untold = untold.saturating_add(1);
    }
}

// Tells of what an end applied last, if anything, once, where there is a teller.
fn tell_last<A: Allocator + Copy, E: Applies<A>, T: ChangeTeller<A>>(
    end: &E,
    teller: &mut Option<T>,
    untold: &mut u64,
    at: Moment,
)
    ensures { IsToldWhere T.tells_change at.0 (E.applies end.now) (E.bodies end.now)
        teller.old untold.old teller.new untold.new }
{
    match teller {
        Some(teller) => match end.last_applied() {
            Some(applied) => tell_once(teller, untold, at, applied, end.body_at(&applied.path)),
            None => {}
        },
        None => {}
    }
}

impl<A: Allocator + Copy, E: End<A> + Applies<A> + Drop, T: ChangeTeller<A> + Drop> End<A>
    for TellingEnd<E, T> {
    ghost use Rattle.std.specs.Prelude.{◌≡◌, ℕ, Option};
    ghost use Rattle.coap_serving.specs.ToldChanges.{IsToldAfter, IsToldIf};

    // The end inside; and who tells, and how many requests could not be told of.
    ghost State = { E.State × (Option T × ℕ) };

    ghost state = { λ t. (E.state t.end, (t.teller, t.untold)) };

    ghost waiting = { λ s. E.waiting s.0 };

    ghost latest = { λ s. E.latest s.0 };

    ghost work = { λ s now. E.work s.0 now };

    ghost quiet_feed = { λ s now from bytes. E.quiet_feed s.0 now from bytes };

    ghost quiet_tick = { λ s now. E.quiet_tick s.0 now };

    ghost feeds = { λ s now from bytes word n. E.feeds s.0 now from bytes word n.0
        × IsToldAfter E.state E.applies E.bodies T.tells_change now s n };

    ghost ticks = { λ s now word did n. E.ticks s.0 now word did n.0
        × IsToldIf did (λ s n. IsToldAfter E.state E.applies E.bodies T.tells_change now s n) s n };

    ghost gives = { λ s packet n. E.gives s.0 packet n.0 × (n.1 ≡ s.1) };

    fn feed(
        &mut self,
        now: Moment,
        from: Endpoint,
        bytes: &[u8],
        word: u64,
    ) -> Result<(), AllocError> {
        self.end.feed(now, from, bytes, word)?;
        tell_last(&self.end, &mut self.teller, &mut self.untold, now);
        Ok(())
    }

    fn tick(&mut self, now: Moment, word: u64) -> Result<bool, AllocError> {
        let did = self.end.tick(now, word)?;
        if did {
            tell_last(&self.end, &mut self.teller, &mut self.untold, now);
        }
        Ok(did)
    }

    fn due(&self) -> Option<Moment> {
        self.end.due()
    }

    fn next_out(&mut self) -> Option<Datagram<A>> {
        self.end.next_out()
    }
}
