//! The report: what `run` writes about the end of a machine; and the lines that `mean` writes about a C task.
//!
//! Its first line tells the platform. Then it has each core in order: what became of its task, the words
//! of the array `out` of a done C task, how many starts of transfers were dropped, and its first
//! transactions with main memory.
//!
//! - [`Rows`] is what a report tells, with a [`Row`] for each core and its [`RowState`].
//! - [`put_core_name`] writes how every text names a core.
//! - [`put_mean_line`] and [`put_outs`] write what a C task means: its value, and the words of its array `out`.
//! - [`put_platform_line`], [`put_step_line`] and [`put_state_line`] write the platform, what the five stages of a core
//!   hold at a step, and what became of a core's task. Each appends whole, or leaves the text as it was.
//! - [`report`] gives exactly the text that the definition in `specs/Report.antt` gives for the rows. Only
//!   want of memory may come besides. Its work is linear in the text.
//!
//! What its words mean stands in [the glossary](../../../docs/GLOSSARY.md).
#![tactic(auto)]

mod core_lines;
mod lines;
mod rows;
mod text;
mod whole;
mod worked;

pub use lines::{
    put_core_name, put_mean_line, put_outs, put_platform_line, put_state_line, put_step_line,
};
pub use rows::{Row, RowState, Rows};
pub use whole::report;
pub use worked::report_worked;
