//! The file of a journal is opened for this program alone.

use crate::stored_file::put_in_place;
use std::fs::{File, OpenFile, OpenOptions, TryLockError};
use std::io;
use std::io::{ErrorKind, Read};
use std::os::unix::fs::OpenOptionsExt;
use std::rt::Files;
use thiserror::Error;

/// Who may read and write a journal that is made: its owner alone, since all bodies stand in it, and the seed.
pub const OWNER_ALONE: u32 = 0o600;

const _: () = prove!(OWNER_ALONE == 6 * 64);

/// The file of a journal, open for this program alone, and what stands in it. What is written goes behind that.
#[derive(Drop)]
pub struct OpenJournal<F = File> {
    /// The file.
    pub file: F,
    /// Its bytes.
    pub bytes: Vec<u8>,
}

/// Why the file of a journal isn't opened.
#[derive(Clone, Copy, Debug, Error)]
pub enum OpenError {
    /// Another program has it.
    #[error("another program has it open")]
    InUse,
    /// It can't be read or written.
    #[error("{0}")]
    Io(io::Error),
}

impl From<io::Error> for OpenError {
    fn from(error: io::Error) -> OpenError {
        OpenError::Io(error)
    }
}

// The file of this name, which is made where there is none.
fn open_or_make<R: Files<File = File>>(rt: &R, name: &str) -> io::Result<File> {
    let file = OpenOptions::new()
        .read(true)
        .append(true)
        .create(true)
        .mode(OWNER_ALONE)
        .open(rt, name)?;
    if !file.metadata()?.is_file() {
        return Err(io::Error::from(ErrorKind::Unsupported));
    }
    Ok(file)
}

// Has no other program open it so.
fn lock(file: &File) -> Result<(), OpenError> {
    match file.try_lock() {
        Ok(()) => Ok(()),
        Err(TryLockError::WouldBlock) => Err(OpenError::InUse),
        Err(TryLockError::Error(error)) => Err(OpenError::Io(error)),
    }
}

/// Opens the file of a journal for this program alone, and reads it. Where there is none one is made, which its owner
/// alone may read and write. What stands in it isn't changed.
pub fn open_journal<R: AllocGlobal + Files<File = File>>(
    rt: &R,
    name: &str,
) -> Result<OpenJournal, OpenError> {
    let mut file = open_or_make(rt, name)?;
    lock(&file)?;
    let mut bytes = Vec::new(rt.alloc());
    file.read_to_end(&mut bytes)?;
    Ok(OpenJournal { file, bytes })
}

/// Has the journal of this name be these bytes, in another file, which is open for this program alone. It is written
/// beside the old one, under the other name, and synced; then it takes the name. Until then the old one stays.
pub fn replace_journal<R: Files<File = File>>(
    rt: &R,
    name: &str,
    beside: &str,
    bytes: &[u8],
) -> Result<File, OpenError> {
    let mut file = open_or_make(rt, beside)?;
    lock(&file)?;
    put_in_place(rt, &mut file, beside, name, bytes)?;
    Ok(file)
}
