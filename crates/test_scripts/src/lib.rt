//! Scripts of tests: the file and the line of whatever they say, and the words that they have in common.
//!
//! A file of tests has its scripts in a text. A script begins with `== ` and its name. An empty line says nothing,
//! nor does one that begins with `#`. Each other line is a step, or begins with a mark:
//!
//! | Line | What it is |
//! |---|---|
//! | `> hi` | what is told, or what goes one way |
//! | `< hi` | what comes back |
//! | `! hi` | why nothing is told |
//! | `| a | b` | a row: its columns are put into the steps, which are carried out once for each row |
//!
//! `{ab*3}` stands for `ababab`, and `{}` for nothing. In what is told a `_` parts bytes that belong together.
//!
//! A step that goes wrong is shown with its place, as `tests/end_tests/src/ends/pair/waits.rt.in:17`.
#![tactic(auto)]

mod lines;
mod places;
mod scripts;
mod spelling;
mod wanted;
mod words;
mod wrong;

pub use lines::{Line, Mark};
pub use places::Place;
pub use scripts::{Script, Scripts, find, scripts_of};
pub use spelling::{cut, first, push_repeated, push_spelt, spelt};
pub use wanted::{Difference, Wanted};
pub use words::{format_of, limit_of, method_of, push_tag, put_option, szx_of};
pub use wrong::{Shown, Wrong};
