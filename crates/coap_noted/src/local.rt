//! What the own side of a noted server does.
ghost use Rattle.std.specs.Prelude.{◌≡◌, ◌≢◌, true, false, Err, IfOk, OnErr, OnOk, is_ok};
ghost use Rattle.coap_resource.specs.declared.refusal.StoreRefusal.TheVariants as store_refusals;
ghost use Rattle.coap_server.specs.Led.{Step};
ghost use Rattle.coap_server.specs.Object.Shown.{state_of};
ghost use Rattle.coap_server.specs.Trace.{Delays, Plains, Removes, Sets};
ghost use Rattle.coap_server.specs.declared.server.delays.DelayRefusal.TheVariants as delay_refusals;
ghost use Rattle.coap_server.specs.declared.server.plain.PlainRefusal.TheVariants as plain_refusals;
ghost use Rattle.coap_journal.specs.Input.{Delay, Plain, Remove, Set};
ghost use Rattle.coap_noted.specs.Notes.{noted_with, with_input};

use crate::noted::Noted;
use crate::notes::{MAX_INPUT_LEN, Notes, reserve};
use coap_journal::{delay_bytes, plain_bytes, remove_bytes, set_bytes};
use coap_resource::{Store, StoreRefusal};
use coap_server::{DelayRefusal, PlainRefusal, Server};
use coap_types::{Moment, Path};
use std::alloc::{AllocError, Allocator};
use std::hash::BuildHasher;

// Whether it was memory that a local change lacked.
fn set_lacked(done: Result<u64, StoreRefusal>) -> bool
    ensures lacked { result ≡ true → done ≡ Err store_refusals.Memory }
    ensures other { result ≡ false → done ≢ Err store_refusals.Memory }
{
    match done {
        Err(StoreRefusal::Memory) => true,
        Err(StoreRefusal::TooLarge) => false,
        Err(StoreRefusal::TooManyPaths) => false,
        Err(StoreRefusal::RateExceeded) => false,
        Err(StoreRefusal::VersionsSpent) => false,
        Ok(_) => false,
    }
}

// .. a delay.
fn delay_lacked(done: Result<(), DelayRefusal>) -> bool
    ensures lacked { result ≡ true → done ≡ Err delay_refusals.Memory }
    ensures other { result ≡ false → done ≢ Err delay_refusals.Memory }
{
    match done {
        Err(DelayRefusal::Memory) => true,
        Err(DelayRefusal::Full) => false,
        Ok(()) => false,
    }
}

// .. a plain path.
fn plain_lacked(done: Result<(), PlainRefusal>) -> bool
    ensures lacked { result ≡ true → done ≡ Err plain_refusals.Memory }
    ensures other { result ≡ false → done ≢ Err plain_refusals.Memory }
{
    match done {
        Err(PlainRefusal::Memory) => true,
        Err(PlainRefusal::Full) => false,
        Ok(()) => false,
    }
}

impl<S: Store<A>, A: Allocator + Copy, H: BuildHasher> Noted<S, A, H> {
    /// Puts a body in place of what the path holds, as `Server::set`. After `Memory` nothing changed.
    pub fn set(
        &mut self,
        now: Moment,
        path: &Path<A>,
        format: Option<u16>,
        body: &[u8],
    ) -> Result<u64, StoreRefusal>
        // The version of a local change, or why it is refused, is what a step of the noted server's machine answers.
        ensures step { result ≢ Err store_refusals.Memory → Step (state_of S.content self.old.server)
            (Sets now.0 path.now format body.now result (state_of S.content self.new.server).own.store)
            (state_of S.content self.new.server) }
        // A local change is noted, whatever the server answers but Memory.
        ensures noted { result ≢ Err store_refusals.Memory
            → self.new.notes ≡ noted_with (Set now.0 path.now format body.now) now.0 self.old.notes }
        // A local change that is refused memory is in no note, and leaves the server as it was.
        ensures memory { result ≡ Err store_refusals.Memory → self.new ≡ self.old }
    {
        match &mut self.notes {
            None => self.server.set(now, path, format, body),
            Some(notes) => set_noted(&mut self.server, notes, now, path, format, body),
        }
    }

    /// Takes away what the path holds, as `Server::remove`; an `Err` where it isn't noted for want of memory,
    /// after which nothing changed.
    pub fn remove(
        &mut self,
        now: Moment,
        path: &Path<A>,
    ) -> Result<Result<bool, StoreRefusal>, AllocError>
        // What a local removal answers is what a step of the noted server's machine does.
        ensures step { IfOk result (λ done. Step (state_of S.content self.old.server)
            (Removes now.0 path.now done (state_of S.content self.new.server).own.store)
            (state_of S.content self.new.server)) }
        // A local removal is noted, whatever the server answers.
        ensures noted { OnOk result (self.new.notes ≡ noted_with (Remove now.0 path.now) now.0 self.old.notes) }
        // A local removal that is refused memory is in no note, and leaves the server as it was.
        ensures err { OnErr result (self.new ≡ self.old) }
    {
        match &mut self.notes {
            None => Ok(self.server.remove(now, path)),
            Some(notes) => {
                let done = remove_noted(&mut self.server, notes, now, path)?;
                Ok(done)
            }
        }
    }

    /// Gives the path a delay, as `Server::set_delay`. After `Memory` nothing changed.
    pub fn set_delay(&mut self, path: &Path<A>, ms: u64) -> Result<(), DelayRefusal>
        // Whether a path is given a delay is what a step of the noted server's machine answers.
        ensures step { result ≢ Err delay_refusals.Memory → Step (state_of S.content self.old.server)
            (Delays path.now ms (is_ok result)) (state_of S.content self.new.server) }
        // A delay is noted, whatever the server answers but Memory.
        ensures noted { result ≢ Err delay_refusals.Memory
            → self.new.notes ≡ noted_with (Delay path.now ms) 0 self.old.notes }
        // A delay that is refused memory is in no note, and leaves the server as it was.
        ensures memory { result ≡ Err delay_refusals.Memory → self.new ≡ self.old }
    {
        match &mut self.notes {
            None => self.server.set_delay(path, ms),
            Some(notes) => delay_noted(&mut self.server, notes, path, ms),
        }
    }

    /// Makes the path plain, as `Server::set_plain`. After `Memory` nothing changed.
    pub fn set_plain(&mut self, path: &Path<A>) -> Result<(), PlainRefusal>
        // Whether a path is made plain is what a step of the noted server's machine answers.
        ensures step { result ≢ Err plain_refusals.Memory → Step (state_of S.content self.old.server)
            (Plains path.now (is_ok result)) (state_of S.content self.new.server) }
        // A plain path is noted, whatever the server answers but Memory.
        ensures noted { result ≢ Err plain_refusals.Memory
            → self.new.notes ≡ noted_with (Plain path.now) 0 self.old.notes }
        // A plain path that is refused memory is in no note, and leaves the server as it was.
        ensures memory { result ≡ Err plain_refusals.Memory → self.new ≡ self.old }
    {
        match &mut self.notes {
            None => self.server.set_plain(path),
            Some(notes) => plain_noted(&mut self.server, notes, path),
        }
    }
}

fn set_noted<S: Store<A>, A: Allocator + Copy, H: BuildHasher>(
    server: &mut Server<S, A, H>,
    notes: &mut Notes<A>,
    now: Moment,
    path: &Path<A>,
    format: Option<u16>,
    body: &[u8],
) -> Result<u64, StoreRefusal>
    ensures step { result ≢ Err store_refusals.Memory → Step (state_of S.content server.old)
        (Sets now.0 path.now format body.now result (state_of S.content server.new).own.store)
        (state_of S.content server.new) }
    ensures noted { result ≢ Err store_refusals.Memory
        → notes.new ≡ with_input (Set now.0 path.now format body.now) now.0 notes.old }
    ensures same { result ≡ Err store_refusals.Memory → server.new ≡ server.old }
    ensures memory { result ≡ Err store_refusals.Memory → notes.new ≡ notes.old }
{
    if body.len() > MAX_INPUT_LEN {
        return Err(StoreRefusal::Memory);
    }
    let Ok(record) = set_bytes(notes.alloc, now, path, format, body) else {
        return Err(StoreRefusal::Memory);
    };
    match reserve(&mut notes.inputs, record.len()) {
        Ok(()) => {}
        Err(_) => return Err(StoreRefusal::Memory),
    }
    let done = server.set(now, path, format, body);
    if set_lacked(done) {
        return Err(StoreRefusal::Memory);
    }
    let _ = notes.inputs.extend_from_slice(record.as_slice());
    notes.moment = notes.moment.later(now);
    done
}

fn remove_noted<S: Store<A>, A: Allocator + Copy, H: BuildHasher>(
    server: &mut Server<S, A, H>,
    notes: &mut Notes<A>,
    now: Moment,
    path: &Path<A>,
) -> Result<Result<bool, StoreRefusal>, AllocError>
    ensures step { IfOk result (λ done. Step (state_of S.content server.old)
        (Removes now.0 path.now done (state_of S.content server.new).own.store) (state_of S.content server.new)) }
    ensures noted { OnOk result (notes.new ≡ with_input (Remove now.0 path.now) now.0 notes.old) }
    ensures same { OnErr result (server.new ≡ server.old) }
    ensures err { OnErr result (notes.new ≡ notes.old) }
{
    let record = remove_bytes(notes.alloc, now, path)?;
    reserve(&mut notes.inputs, record.len())?;
    let done = server.remove(now, path);
    let _ = notes.inputs.extend_from_slice(record.as_slice());
    notes.moment = notes.moment.later(now);
    Ok(done)
}

fn delay_noted<S: Store<A>, A: Allocator + Copy, H: BuildHasher>(
    server: &mut Server<S, A, H>,
    notes: &mut Notes<A>,
    path: &Path<A>,
    ms: u64,
) -> Result<(), DelayRefusal>
    ensures step { result ≢ Err delay_refusals.Memory → Step (state_of S.content server.old)
        (Delays path.now ms (is_ok result)) (state_of S.content server.new) }
    ensures noted { result ≢ Err delay_refusals.Memory → notes.new ≡ with_input (Delay path.now ms) 0 notes.old }
    ensures same { result ≡ Err delay_refusals.Memory → server.new ≡ server.old }
    ensures memory { result ≡ Err delay_refusals.Memory → notes.new ≡ notes.old }
{
    let Ok(record) = delay_bytes(notes.alloc, path, ms) else {
        return Err(DelayRefusal::Memory);
    };
    match reserve(&mut notes.inputs, record.len()) {
        Ok(()) => {}
        Err(_) => return Err(DelayRefusal::Memory),
    }
    let done = server.set_delay(path, ms);
    if delay_lacked(done) {
        return Err(DelayRefusal::Memory);
    }
    let _ = notes.inputs.extend_from_slice(record.as_slice());
    done
}

fn plain_noted<S: Store<A>, A: Allocator + Copy, H: BuildHasher>(
    server: &mut Server<S, A, H>,
    notes: &mut Notes<A>,
    path: &Path<A>,
) -> Result<(), PlainRefusal>
    ensures step { result ≢ Err plain_refusals.Memory → Step (state_of S.content server.old)
        (Plains path.now (is_ok result)) (state_of S.content server.new) }
    ensures noted { result ≢ Err plain_refusals.Memory → notes.new ≡ with_input (Plain path.now) 0 notes.old }
    ensures same { result ≡ Err plain_refusals.Memory → server.new ≡ server.old }
    ensures memory { result ≡ Err plain_refusals.Memory → notes.new ≡ notes.old }
{
    let Ok(record) = plain_bytes(notes.alloc, path) else {
        return Err(PlainRefusal::Memory);
    };
    match reserve(&mut notes.inputs, record.len()) {
        Ok(()) => {}
        Err(_) => return Err(PlainRefusal::Memory),
    }
    let done = server.set_plain(path);
    if plain_lacked(done) {
        return Err(PlainRefusal::Memory);
    }
    let _ = notes.inputs.extend_from_slice(record.as_slice());
    done
}
