//! The words of the program `coap`: what they ask for, as `clap` reads them, and what is wrong in
//! them.
#![tactic(auto)]

mod arguments;
mod ask_orders;
mod asking;
mod command_line;
mod ends;
mod formats;
mod hosts;
mod laws;
mod marks;
mod orders;
mod path_text;
mod plains;
mod put_away;
mod refusals;
mod repeating;
mod servers;
mod serving;
mod sizes;
mod table_words;
mod tables;
mod together;
mod uris;
mod words;
mod wrongs;

pub use command_line::coap_command;
pub use hosts::{Address, Host, Server};
pub use laws::one_answer;
pub use orders::{
    AskOptions, Content, DEFAULT_PORT, DEFAULT_WORD, Delay, FOREVER, Hold, Journal, MAX_DELAYS,
    MAX_PLAINS, Order, PingOptions, ServeOptions, StoreKind, What, WordChoice, Wrong,
};
pub use path_text::path_of_text;
pub use refusals::{
    AddressRefusal, BesideRefusal, EndsRefusal, NumberRefusal, SettingRefusal, TagsRefusal,
    TogetherRefusal, UriRefusal,
};
pub use words::order;
