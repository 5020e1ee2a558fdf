//! An entry of the slab in which a client keeps its operations.
ghost use Rattle.std.specs.Prelude.{◌≡◌};
ghost use Rattle.std.specs.Borrow.{Lends, sem};

/// An entry of the slab: an operation that waits or runs, or a live observation.
#[derive(Drop)]
pub(crate) enum Entry<W, O> {
    /// An operation.
    Operation(W),
    /// An observation.
    Observation(O),
}

impl<W, O> Entry<W, O> {
    ghost use Rattle.coap_operations.specs.contracts.entry.Entry.{the_row};
    ghost use Rattle.coap_operations.specs.Keys.{IsObservation};

    /// The observation, for writing.
    pub(crate) fn observation_mut(&mut self) -> &mut O
        requires { IsObservation self.old }
        ensures* lends { sem 𝓛 (Lends (the_row W.row O.row) O.row self.entry result Entry.Observation) }
        ensures value { self.old ≡ Entry.Observation result.now }
    {
        match self {
            Entry::Observation(observation) => observation,
            Entry::Operation(_) => unreachable!("it is an observation"),
        }
    }
}
