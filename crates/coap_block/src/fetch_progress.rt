//! How far a fetch is, and what it keeps so that its last input can be taken back.
ghost use Rattle.std.specs.Prelude.{◌≡◌, ◌+◌, ◌≤◌, None, Some};

use coap_types::{Szx, Tag};
use std::mem;

/// The number and the size of the block that was asked for (RFC 7959, section 2.4).
#[derive(Clone, Copy, Debug, PartialEq, Eq)]
pub struct Asked {
    /// The number (NUM).
    pub num: u32,
    /// The size (SZX).
    pub szx: Szx,
}

/// How far the gathering has come.
#[derive(Debug, Drop)]
pub(crate) struct Progress {
    /// How many bytes were gathered.
    pub(crate) len: usize,
    /// The block that was asked for; none at the start.
    pub(crate) asked: Option<Asked>,
    /// The ETag of the parts so far.
    pub(crate) tag: Option<Tag>,
    /// How often the body changed.
    pub(crate) restarts: u8,
}

/// What `undo` puts back.
#[derive(Debug, Drop)]
pub(crate) enum Before {
    /// There is nothing to undo.
    Nothing,
    /// The last part changed nothing.
    Same,
    /// The progress before the last part.
    Was(Progress),
}

impl Progress {
    /// Nothing was gathered yet, after so many restarts.
    pub(crate) fn start(restarts: u8) -> Progress
        ensures { result ≡ record { len = 0; asked = None; tag = None; restarts = restarts } }
    {
        Progress {
            len: 0,
            asked: None,
            tag: None,
            restarts,
        }
    }

    /// At the start again, after so many restarts: how far it was before.
    pub(crate) fn start_again(&mut self, restarts: u8) -> Progress
        ensures was { result ≡ self.old }
        ensures start { self.new ≡ record { len = 0; asked = None; tag = None; restarts = restarts } }
    {
        mem::replace(self, Progress::start(restarts))
    }

    /// So many bytes further, with the block that is asked for next: how far it was before.
    pub(crate) fn go_on(&mut self, len: usize, asked: Asked, tag: Option<Tag>) -> Progress
        requires { self.old.len + len ≤ usize.MAX }
        ensures was { result ≡ self.old }
        ensures next { self.new
            ≡ record { len = self.old.len + len; asked = Some asked; tag = tag; restarts = self.old.restarts } }
    {
        let next = Progress {
            len: self.len + len,
            asked: Some(asked),
            tag,
            restarts: self.restarts,
        };
        mem::replace(self, next)
    }
}
