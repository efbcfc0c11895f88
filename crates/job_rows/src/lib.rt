//! The machine of a job, and what is reported of it.
//!
//! [`loaded_of`] loads the machine that a job asks for, once each of its tasks is made: the job's platform, and on each
//! core its task with its input, if it has one. It is the machine of `specs/Machine.antt`, as `specs/Loading.antt` says.
//! [`rows_of`] gives a row for each core of the machine at its limit, exactly as `specs/Rows.antt` has it: what became of
//! its task, its first transactions and the packets that were dropped; and of a C task its bound, whether it is alone
//! with the data that it uses, whether a loop ran past its count, and the words of its array `out`. [`report_text_of`] is
//! the text of these rows, and [`status_of`] the status under which it is written.
//!
//! [`bare_row`], [`runs_alone`] and [`is_flagged`] serve who tells of one core alone. [`worked_run`] shows the definitions
//! on a small job.
//!
//! What its words mean stands in [the glossary](../../../docs/GLOSSARY.md).
#![tactic(auto)]

mod laws;
mod loading;
mod output;
mod rows;

pub use laws::{loaded_machine_is_the_jobs, worked_run};
pub use loading::loaded_of;
pub use rows::{bare_row, is_flagged, report_text_of, rows_of, runs_alone, status_of};
