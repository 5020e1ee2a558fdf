//! Scripts of runs: a text says a list of events, and what their run comes to is printed a line each, or as a chart.
//! [`settings_of`] reads another kind of script, which says how a server is set up.
//!
//! Of a run [`tell_run`] prints a line for each thing that came of it, and [`draw_run`] a chart, for reading;
//! [`report_text`] is a report on a line.
#![tactic(auto)]

mod capture;
mod chart;
mod report_lines;
mod report_words;
mod requests;
mod run_lines;
mod script;
mod sim;

pub use chart::draw_run;
pub use report_lines::report_text;
pub use requests::plain;
pub use run_lines::tell_run;
pub use script::{ScriptRefusal, Setting, events_of, paths_of, settings_of};
pub use sim::{USUAL_ENDS, sim_captured, sim_file, sim_to, sim_with};
