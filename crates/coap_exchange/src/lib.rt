//! The request/response layer of CoAP (RFC 7252, section 5): each answer belongs to one request.
#![tactic(auto)]

mod answerer;
mod arrivals;
mod asker;
mod deferrals;
mod findings;
mod held;
mod kept_tokens;
mod laws;
mod listed;
mod matching;
mod peers;
mod replies;
mod separate;
mod token_source;
mod waiting;

pub use answerer::{Answerer, Asked, Due, Ended, Response};
pub use asker::{Ask, AskRefusal, Asker, Event, Exchange, Turn};
pub use held::Held;
pub use kept_tokens::KeptTokens;
pub use laws::{answerable_law, answerer_law, askable_law, asker_law, notifiable_law, witness_law};
pub use separate::{Deferred, Separate};
