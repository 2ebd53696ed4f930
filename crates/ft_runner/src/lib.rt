//! The tool: a script is read or made, run and written, and a transcript is checked.
#![tactic(auto)]

mod checking;
mod command;
mod errors;
mod laws;
mod limits;
mod making;
mod outcome;
mod program;
mod reading;
mod report;
mod running;
mod separator;
mod tool;
mod writing;

pub use command::Subcommand;
pub use ft_run_threads::{Gate, NoGate};
pub use laws::{
    bad_lines_are_reported, enough_tables_never_run_out, legal_histories_are_read_back,
    reports_have_their_causes, scripts_are_refused, scripts_are_run, transcripts_are_checked,
    verdicts_are_reported, what_is_written_is_found_legal,
};
pub use program::{end_without_memory, run_program};
pub use report::{Fault, Report};
pub use tool::{run_still, run_tool};
