//! What a server took since that was asked last.
ghost use Rattle.std.specs.Prelude.{◌≡◌, ◌≤◌, ◌+◌, ◌<◌, true, false, [], Some, length, IfOk, OnOk, option_map};
ghost use Rattle.std.specs.Vec.{vec_capacity};
ghost use Rattle.coap_noted.specs.Notes.{Waits, most, told_in};

use coap_journal::turn_bytes;
use coap_types::Moment;
use std::alloc::{AllocError, Allocator};
use std::marker::Model;

/// The longest datagram or body that is noted, in bytes.
pub const MAX_INPUT_LEN: usize = 1 << 24;

const _: () = prove!(MAX_INPUT_LEN == 16_777_216);

/// What a server took since that was asked last: the bytes of its inputs, how many datagrams it gave out
/// before them, and the latest moment that was handed in.
#[derive(Drop)]
pub struct Notes<A: Allocator> {
    pub(crate) alloc: A,
    pub(crate) moment: Moment,
    pub(crate) taken: u64,
    pub(crate) inputs: Vec<u8, A>,
}

impl<A: Allocator> Model for Notes<A> {
    ghost use Rattle.coap_noted.specs.Notes.{Note};

    ghost Value = { Note };

    ghost view = { λ n. record { moment = n.moment.0; taken = n.taken; inputs = n.inputs.items } };
}

impl<A: Allocator + Copy> Notes<A> {
    /// Notes of nothing, after this moment.
    pub fn new(alloc: A, moment: Moment) -> Self
        // The `new` notes have no input and no datagram.
        ensures { result ≡ record { moment = moment.0; taken = 0; inputs = [] } }
    {
        Notes {
            alloc,
            moment,
            taken: 0,
            inputs: Vec::new(alloc),
        }
    }

    // Whether there is an input that wasn't handed out, or no further datagram can be counted.
    pub(crate) fn waits(&self) -> bool
        ensures waits { result ≡ true → Waits self.now }
        ensures free { result ≡ false → Waits self.now → ⊥ }
        ensures fewer { result ≡ false → self.now.taken < most }
    {
        !self.inputs.is_empty() || self.taken == u64::MAX
    }

    // The bytes of the turn that the next frame of a journal is to hold; None where there is no input.
    pub(crate) fn turn(&self) -> Result<Option<Vec<u8, A>>, AllocError>
        ensures { IfOk result (λ told. option_map (λ v. v.items) told ≡ told_in (Some self.now)) }
    {
        if self.inputs.is_empty() {
            return Ok(None);
        }
        let turn = turn_bytes(self.alloc, self.moment, self.taken, self.inputs.as_slice())?;
        Ok(Some(turn))
    }

    // Forgets the inputs and the datagrams.
    pub(crate) fn begin_anew(&mut self)
        ensures { self.new ≡ record { moment = self.old.moment; taken = 0; inputs = [] } }
    {
        self.taken = 0;
        self.inputs.clear();
    }
}

/// Makes room for a record in what is noted.
pub(crate) fn reserve<A: Allocator>(inputs: &mut Vec<u8, A>, len: usize) -> Result<(), AllocError>
    ensures same { inputs.new.items ≡ inputs.old.items }
    ensures room { OnOk result (length inputs.new.items + len ≤ vec_capacity inputs.new) }
{
    inputs.reserve(len)
}
