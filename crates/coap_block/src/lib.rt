//! Block-wise transfer (RFC 7959): the piece of a body that a [`Block`] carries ([`slice`]), the
//! client's Block2 transfer ([`Fetch`]) and Block1 transfer ([`Upload`]), and the server's Block1
//! transfers ([`Assembly`]).
//!
//! A body that is given out whole is its pieces in order, of one version or of one upload. Nothing
//! here sends or receives anything: what came is handed in, and what is to go out is answered.
#![tactic(auto)]

mod arrival;
mod assembly;
mod assembly_judging;
mod assembly_step;
mod assembly_undo;
mod block_verdict;
mod fetch;
mod fetch_judging;
mod fetch_progress;
mod fetch_step;
mod fetch_verdict;
mod gathering;
mod laws;
mod partial;
mod partials;
mod piece;
mod upload;
mod upload_key;

pub use assembly::Assembly;
pub use assembly_judging::MAX_PARTIALS;
pub use assembly_step::{AssemblyRefusal, Took};
pub use block_verdict::BlockVerdict;
pub use coap_types::{Block, MAX_BLOCK_LEN, MAX_NUM};
pub use fetch::Fetch;
pub use fetch_judging::MAX_RESTARTS;
pub use fetch_progress::Asked;
pub use fetch_step::{FetchRefusal, Step};
pub use fetch_verdict::Verdict;
pub use laws::{assembly_law, body_law, fetch_law, upload_law};
pub use partial::PARTIAL_LIFETIME_MS;
pub use piece::slice;
pub use upload::Upload;
pub use upload_key::UploadKey;
