//! How a call ends.
ghost use Rattle.std.specs.Prelude.{◌≡◌, pos};
ghost use Rattle.coap_page.specs.Endings.{ended_number};

/// How a call ended.
#[derive(Clone, Copy, Debug, PartialEq, Eq)]
pub enum Ended {
    /// The run came to its end; the datagram spells a message.
    Done,
    /// An event is not legal; the datagram spells no message.
    Refused,
    /// A line of the script, or a path, can't be read, or too many paths are plain.
    Words,
    /// The room is smaller than the text.
    Small,
    /// An allocation was refused.
    Memory,
}

impl Ended {
    /// The number of this ending, from 0: for a text that is printed it is the exit status that `coap` has.
    pub fn number(self) -> i32
        // The endings are numbered in their order, from 0.
        ensures { result ≡ pos (ended_number self) }
    {
        match self {
            Ended::Done => 0,
            Ended::Refused => 1,
            Ended::Words => 2,
            Ended::Small => 3,
            Ended::Memory => 4,
        }
    }
}
