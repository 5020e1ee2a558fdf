//! The values that every layer of CoAP (RFC 7252) speaks of: endpoints and moments, what a message
//! is made of, the options that are recognised, blocks, paths and requests, the transmission
//! parameters and the limits.
//! Nothing here reads or writes a message. What can be refused memory says so by its answer: only
//! `Path::push`, `Path::of_options`, the `clone` of a `Path`, `recognised` and `appended`.
#![tactic(auto)]

mod block;
mod bodies;
mod body_limit;
mod direction;
mod endpoint;
mod first_moment;
pub mod limits;
mod message;
mod option_list;
pub mod option_number;
mod option_rule;
mod options;
mod path;
mod recognised_options;
mod recognition;
mod remembered;
mod request;
mod role;
mod szx;
mod tag;
mod token;
pub mod transmission;
mod uint;

pub use block::{Block, MAX_BLOCK_LEN, MAX_NUM, block_law};
pub use bodies::appended;
pub use body_limit::{BodyLimit, DEFAULT_BODY_LIMIT, MAX_BODY_LIMIT};
pub use direction::Direction;
pub use endpoint::{Endpoint, Moment};
pub use first_moment::{after, earlier, latest};
pub use message::{Code, Id, Kind, MESSAGE_IDS};
pub use option_list::OptionList;
pub use option_rule::{Occurrence, Rule};
pub use options::Opt;
pub use path::{MAX_SEGMENT_LEN, MAX_SEGMENTS, Path, PathRefusal, path_law};
pub use recognised_options::{carries, lacks_critical, recognised, recognised_value};
pub use recognition::rule;
pub use remembered::{DEFAULT_REMEMBERED, MAX_REMEMBERED, Remembered};
pub use request::{Method, Request};
pub use role::Role;
pub use szx::{MAX_SZX, RESERVED_SZX, Szx};
pub use tag::{MAX_TAG_LEN, MAX_TAGS, Tag, Tags};
pub use token::{MAX_TOKEN_LEN, Token, reveal};
pub use uint::{MAX_UINT_LEN, UintBytes, uint_bytes, uint_laws, uint_of};
