//! The file of a journal on a disk.
ghost use Rattle.std.specs.Prelude.{IfOk, OnOk};
ghost use Rattle.coap_kept.specs.Silence.{Passes};

use coap_journal_file::StoredFile;
use coap_journaled::JournalFile;
use coap_links::Timekeeper;
use std::io;
use std::io::Write;

/// A sync that takes longer is told of: what waited for it counts against the 100 s within which a datagram arrives.
pub const SLOW_SYNC_MS: u64 = 10_000;

const _: () = prove!(SLOW_SYNC_MS == 10_000);

/// The file of a journal, of which a slow sync is told on a writer.
#[derive(Drop)]
pub struct DiskFile<F, T, W> {
    file: F,
    time: T,
    told: W,
}

impl<F: StoredFile + Drop, T: Timekeeper + Drop, W: Write + Drop> DiskFile<F, T, W> {
    /// A file that stands at its end.
    pub fn new(file: F, time: T, told: W) -> DiskFile<F, T, W> {
        DiskFile { file, time, told }
    }
}

// Tells of a sync that took so many milliseconds, where that is long.
fn tell_slow<W: Write>(told: &mut W, ms: u64) {
    if ms > SLOW_SYNC_MS {
        let _ = writeln!(told, "a sync of the journal took {ms} ms");
    }
}

// Syncs a file, and answers how many milliseconds that took.
fn sync_timed<F: StoredFile, T: Timekeeper>(file: &mut F, time: &mut T) -> io::Result<u64>
    ensures timed { IfOk result (λ ms. Passes T.tells time.old ms time.new) }
    ensures synced { OnOk result (F.syncs file.old file.new) }
{
    let begin = time.now()?;
    file.sync()?;
    Ok(time.now()?.since(begin))
}

/// What is appended its file is asked to append, and to keep in a sync: that alone, and once.
impl<F: StoredFile + Drop, T: Timekeeper + Drop, W: Write + Drop> JournalFile
    for DiskFile<F, T, W> {
    ghost use Rattle.std.specs.Prelude.{◌≡◌, true};

    ghost appends = { λ d bytes done e. done ≡ true → F.writes d.file bytes e.file };

    ghost syncs = { λ d done e. done ≡ true → F.syncs d.file e.file };

    fn append(&mut self, bytes: &[u8]) -> io::Result<()> {
        self.file.append(bytes)
    }

    fn sync(&mut self) -> io::Result<()> {
        let ms = sync_timed(&mut self.file, &mut self.time)?;
        tell_slow(&mut self.told, ms);
        Ok(())
    }
}
