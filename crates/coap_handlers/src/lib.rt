//! A server whose answers the application computes, and a client for any request: the exchanges of `coap_exchange`,
//! with a refusal that has a name in the place of each condition of a call (RFC 7252, section 5).
#![tactic(auto)]

mod load;
mod refusal;
mod request;
mod responder;
mod response;
mod same;

pub use load::{Load, MAX_DEFERRED};
pub use refusal::{AnswerRefusal, NotifyRefusal};
pub use request::is_request;
pub use responder::{Ready, Responder};
pub use response::is_response;
