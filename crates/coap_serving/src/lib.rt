//! The subcommand `serve`: a server that is set up as its words and its script say, or goes on from a journal.
//!
//! [`serve_over`] serves over a link that it is handed.
#![tactic(auto)]

mod changes;
mod journal_words;
mod keeping;
mod kept_turns;
mod missing_paths;
mod serve_command;
mod serve_script;
mod serving;
mod setting_up;

pub use changes::{
    Applies, ChangeLines, ChangeTeller, ChangeWords, MAX_TOLD_LEN, TellingEnd, changes_on,
};
pub use serve_command::serve;
pub use serve_script::{BadLine, limit_by, make_all, script_in};
pub use serving::serve_over;
pub use setting_up::{hold_resource, server_after, server_by, set_up};
