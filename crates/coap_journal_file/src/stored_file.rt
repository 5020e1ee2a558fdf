//! What a journal asks of its file.
ghost use Rattle.std.specs.Prelude.{ℕ, List, OnOk};
ghost use Rattle.coap_journal_file.specs.PutInPlace.{IsPutInPlace};

use std::fs::{File, OpenFile};
use std::io::Write;
use std::path::Path;
use std::rt::Files;
use std::{fs, io};

// The folder of a name that names none.
const THIS_FOLDER: &str = ".";

/// The file of a journal. What a system does with a file nobody can say here; what it is asked, and in which order, a
/// trait can.
pub trait StoredFile {
    /// The file before it is asked to append bytes, these, and the file after.
    ghost writes: { Self → List ℕ → Self → Type 0 };

    /// The file before it is asked to be of another length, this, and the file after.
    ghost cuts: { Self → ℕ → Self → Type 0 };

    /// The file before the system is asked to keep what stands in it, whatever happens, and the file after.
    ghost syncs: { Self → Self → Type 0 };

    /// The file before it is asked to have another name, the name that it has, the other, and the file after.
    ghost renames: { Self → List ℕ → List ℕ → Self → Type 0 };

    /// The file before the system is asked to keep its name, whatever happens, that name, and the file after.
    ghost settles: { Self → List ℕ → Self → Type 0 };

    /// Appends these bytes. After an `Err` any front of them may stand there.
    fn append(&mut self, bytes: &[u8]) -> io::Result<()>
        // A file is appended just these bytes, as its own words have it.
        ensures { OnOk result (writes self.old bytes.now self.new) };

    /// Has it be of this length.
    fn cut(&mut self, len: u64) -> io::Result<()>
        // A file is cut to just this length, as its own words have it.
        ensures { OnOk result (cuts self.old len self.new) };

    /// Returns once what stands in it is kept, also where the power goes.
    fn sync(&mut self) -> io::Result<()>
        // A file is synced, as its own words have it.
        ensures { OnOk result (syncs self.old self.new) };

    /// Has it lose this name, and take the other one from the file that has it.
    fn rename<R: Files<File = File>>(&mut self, rt: &R, from: &str, to: &str) -> io::Result<()>
        // A file takes just this name for that, as its own words have it.
        ensures { OnOk result (renames self.old from.now to.now self.new) };

    /// Returns once its name is kept, also where the power goes: the folder in which it stands is synced.
    fn settle<R: Files<File = File>>(&mut self, rt: &R, name: &str) -> io::Result<()>
        // The name of a file is kept, as its own words have it.
        ensures { OnOk result (settles self.old name.now self.new) };
}

/// Nothing is known of what a system does with a file.
impl StoredFile for File {
    ghost use Rattle.std.specs.Prelude.{⊤};
    ghost use Rattle.std.specs.Io.KnownBytes.{Appends};

    ghost writes = { λ f bytes g. Appends (⟦<File as Write>⟧.contents f) (⟦<File as Write>⟧.contents g) bytes };

    ghost cuts = { λ _ _ _. ⊤ };

    ghost syncs = { λ _ _. ⊤ };

    ghost renames = { λ _ _ _ _. ⊤ };

    ghost settles = { λ _ _ _. ⊤ };

    fn append(&mut self, bytes: &[u8]) -> io::Result<()> {
        self.write_all(bytes)
    }

    fn cut(&mut self, len: u64) -> io::Result<()> {
        self.set_len(len)
    }

    fn sync(&mut self) -> io::Result<()> {
        self.sync_all()
    }

    fn rename<R: Files<File = File>>(&mut self, rt: &R, from: &str, to: &str) -> io::Result<()> {
        fs::rename(rt, from, to)
    }

    fn settle<R: Files<File = File>>(&mut self, rt: &R, name: &str) -> io::Result<()> {
        let folder = match Path::new(name).parent() {
            Some(folder) if !folder.as_str().is_empty() => folder,
            _ => Path::new(THIS_FOLDER),
        };
        File::open(rt, folder)?.sync_all()
    }
}

/// Has a file, which has the one name, be these bytes, and then take the other name. Until it is whole and synced the
/// file that has that name stays.
pub(crate) fn put_in_place<F: StoredFile, R: Files<File = File>>(
    rt: &R,
    file: &mut F,
    beside: &str,
    name: &str,
    bytes: &[u8],
) -> io::Result<()>
    ensures { OnOk result (IsPutInPlace F.writes F.cuts F.syncs F.renames F.settles
        file.old beside.now name.now bytes.now file.new) }
{
    file.cut(0)?;
    file.append(bytes)?;
    file.sync()?;
    file.rename(rt, beside, name)?;
    file.settle(rt, name)
}
