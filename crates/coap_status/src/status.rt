//! How a run of the program ends.
ghost use Rattle.std.specs.Prelude.{◌≡◌, ◌≢◌};
ghost use Rattle.std.specs.IoError.{error_kind};
ghost use Rattle.coap_status.specs.StatusNumbers.{status_number};
ghost use Rattle.coap_status.specs.declared.status.Stop.TheVariants.{Failed, Memory};

use std::alloc::AllocError;
use std::io;
use std::io::ErrorKind;

/// How a run ends: the exit status of the program.
#[derive(Clone, Copy, Debug, PartialEq, Eq)]
pub enum Status {
    /// What was asked for is printed.
    Done = 0,
    /// A refused datagram or body, or a call that was refused or failed.
    Refused = 1,
    /// Wrong words or hex.
    Words = 2,
    /// A socket, the clock or standard output failed.
    Failed = 3,
    /// An allocation was refused.
    Memory = 4,
}

/// Why a run stops before its end.
#[derive(Debug, Drop)]
pub enum Stop {
    /// A socket, the clock or standard output failed.
    Failed,
    /// An allocation was refused.
    Memory,
}

impl Status {
    /// The exit status as a number.
    pub fn number(self) -> u8
        // The number of a status is the exit status that it stands for.
        ensures { result ≡ status_number self }
    {
        match self {
            Status::Done => 0,
            Status::Refused => 1,
            Status::Words => 2,
            Status::Failed => 3,
            Status::Memory => 4,
        }
    }
}

impl From<io::Error> for Stop {
    ghost from_gives = { λ _ stop. stop ≡ Failed };

    fn from(_error: io::Error) -> Stop {
        Stop::Failed
    }
}

impl From<AllocError> for Stop {
    ghost from_gives = { λ _ stop. stop ≡ Memory };

    fn from(_error: AllocError) -> Stop {
        Stop::Memory
    }
}

/// Why a run stops whose file can't be read.
pub fn stop_of(error: &io::Error) -> Stop
    // An error of a file that is want of memory stops a run for want of memory.
    ensures memory { error_kind error.now ≡ ErrorKind.OutOfMemory → result ≡ Memory }
    // Every other error of a file stops a run as a failure.
    ensures failed { error_kind error.now ≢ ErrorKind.OutOfMemory → result ≡ Failed }
{
    match error.kind() {
        ErrorKind::OutOfMemory => Stop::Memory,
        _ => Stop::Failed,
    }
}
