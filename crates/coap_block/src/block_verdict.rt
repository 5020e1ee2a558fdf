//! The verdict on a block of an upload.
use crate::assembly_step::AssemblyRefusal;
use coap_types::Szx;

/// What a block means to an assembly.
#[derive(Clone, Copy, Debug, PartialEq, Eq)]
pub enum BlockVerdict {
    /// It is not taken.
    Refuse(AssemblyRefusal),
    /// It is joined, and answered with this size.
    Join(Szx),
    /// The body is whole with it.
    Done,
}
