//! A server that keeps a journal: its local changes, and what it applied.
ghost use Rattle.std.specs.Prelude.{◌≡◌, ◌≢◌, true, false, Err, IfSome, option_copied};
ghost use Rattle.coap_resource.specs.declared.refusal.StoreRefusal.TheVariants as store_refusals;
ghost use Rattle.coap_server.specs.Led.{Step};
ghost use Rattle.coap_server.specs.Object.Shown.{applied_list, state_of};
ghost use Rattle.coap_server.specs.Trace.{Removes, Sets};
ghost use Rattle.coap_journal.specs.Input.{Remove, Set};
ghost use Rattle.coap_replay.specs.Replaying.{Takes};
ghost use Rattle.coap_journaled.specs.Journal.{IsNoted, is_open, shown};

use crate::journal_file::JournalFile;
use crate::journaled::{Journaled, MAX_TURN_LEN, due_of, reserve};
use coap_ends::{Applied, Server};
use coap_journal::{remove_bytes, set_bytes};
use coap_resource::{Store, StoreRefusal};
use coap_types::{Moment, Path};
use std::alloc::Allocator;
use std::hash::BuildHasher;

// Whether it was memory that a local change lacked.
fn set_lacked(done: Result<u64, StoreRefusal>) -> bool
    ensures lacked { result ≡ true → done ≡ Err store_refusals.Memory }
    ensures other { result ≡ false → done ≢ Err store_refusals.Memory }
{
    match done {
        Err(StoreRefusal::Memory) => true,
        Err(StoreRefusal::TooLarge) => false,
        Err(StoreRefusal::TooManyPaths) => false,
        Err(StoreRefusal::RateExceeded) => false,
        Err(StoreRefusal::VersionsSpent) => false,
        Ok(_) => false,
    }
}

impl<S: Store<A>, F: JournalFile, A: Allocator + Copy, H: BuildHasher> Journaled<
    Server<S, A, H>,
    F,
    A,
> {
    /// Puts a body in place of what the path holds, as `Server::set`, and notes that. `Memory` is also the
    /// answer where it is over, and where the journal has no room; then nothing changed.
    pub fn set(
        &mut self,
        now: Moment,
        path: &Path<A>,
        format: Option<u16>,
        body: &[u8],
    ) -> Result<u64, StoreRefusal>
        // A local change is noted as it is handed in, whatever the server answers but Memory.
        ensures noted { result ≢ Err store_refusals.Memory → IsNoted (shown (state_of S.content) self.old)
            (Set now.0 path.now format body.now) (shown (state_of S.content) self.new) }
        // The server takes just that change.
        ensures taken { result ≢ Err store_refusals.Memory → Takes (state_of S.content self.old.end)
            (Set now.0 path.now format body.now) (state_of S.content self.new.end) }
        // The version, or why it is refused, is what the server answers to that change.
        ensures answered { result ≢ Err store_refusals.Memory → Step (state_of S.content self.old.end)
            (Sets now.0 path.now format body.now result (state_of S.content self.new.end).own.store)
            (state_of S.content self.new.end) }
        // After Memory nothing is noted, and nothing changed.
        ensures memory { result ≡ Err store_refusals.Memory
            → shown (state_of S.content) self.new ≡ shown (state_of S.content) self.old }
    {
        if self.over || body.len() > MAX_TURN_LEN {
            return Err(StoreRefusal::Memory);
        }
        let Ok(record) = set_bytes(self.alloc, now, path, format, body) else {
            return Err(StoreRefusal::Memory);
        };
        match reserve(&mut self.inputs, record.len()) {
            Ok(()) => {}
            Err(_) => return Err(StoreRefusal::Memory),
        }
        let done = self.end.set(now, path, format, body);
        if set_lacked(done) {
            return Err(StoreRefusal::Memory);
        }
        let _ = self.inputs.extend_from_slice(record.as_slice());
        self.moment = self.moment.later(now);
        self.due = due_of(&self.end);
        done
    }

    /// Takes away what the path holds, as `Server::remove`, and notes that. `Memory` is the answer where it
    /// is over, and where the journal has no room; then nothing changed.
    pub fn remove(&mut self, now: Moment, path: &Path<A>) -> Result<bool, StoreRefusal>
        // A local removal is noted as it is handed in, whatever the server answers but Memory.
        ensures noted { result ≢ Err store_refusals.Memory → IsNoted (shown (state_of S.content) self.old)
            (Remove now.0 path.now) (shown (state_of S.content) self.new) }
        // The server takes just that removal.
        ensures taken { result ≢ Err store_refusals.Memory → Takes (state_of S.content self.old.end)
            (Remove now.0 path.now) (state_of S.content self.new.end) }
        // Whether the path held anything is what the server answers to that removal.
        ensures answered { result ≢ Err store_refusals.Memory → Step (state_of S.content self.old.end)
            (Removes now.0 path.now result (state_of S.content self.new.end).own.store)
            (state_of S.content self.new.end) }
        // After Memory no removal is noted, and nothing changed.
        ensures memory { result ≡ Err store_refusals.Memory
            → shown (state_of S.content) self.new ≡ shown (state_of S.content) self.old }
    {
        if self.over {
            return Err(StoreRefusal::Memory);
        }
        let Ok(record) = remove_bytes(self.alloc, now, path) else {
            return Err(StoreRefusal::Memory);
        };
        match reserve(&mut self.inputs, record.len()) {
            Ok(()) => {}
            Err(_) => return Err(StoreRefusal::Memory),
        }
        let done = self.end.remove(now, path);
        let _ = self.inputs.extend_from_slice(record.as_slice());
        self.moment = self.moment.later(now);
        self.due = due_of(&self.end);
        done
    }

    /// What the last `feed` or `tick` applied, if any, once that is in the file: None until a `commit`, and
    /// where it is over. So commit after each of them before asking.
    pub fn applied(&self) -> Option<&Applied<A>>
        // What was applied is told only where each input is in the file, which was synced.
        ensures synced { IfSome result (λ _. is_open (shown (state_of S.content) self.now) ≡ true) }
        // Where each input is in the file, what the server applied last is told, and None where it applied nothing.
        ensures open { is_open (shown (state_of S.content) self.now) ≡ true → applied_list (option_copied result)
            ≡ (state_of S.content self.now.end).own.applied }
        // What is told is what the server applied last.
        ensures told { IfSome result (λ x. applied_list (option_copied result)
            ≡ (state_of S.content self.now.end).own.applied) }
    {
        if self.over || !self.inputs.is_empty() {
            return None;
        }
        self.end.applied()
    }
}
