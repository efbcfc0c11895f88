//! Jobs: what a text in TOML asks the emulator to run.
//!
//! A job states the platform, which is its cores and the slots in which they use main memory, how many
//! cycles it may take, and the tasks, at most one for each core. Version 1 has up to 8 cores that take
//! their slots in turn. Version 2 has up to 16, and states its slot table.
//!
//! - [`read_job`] gives exactly the job that the definition in `specs/Job.antt` finds in the tree that
//!   `toml` makes of the bytes, or the first fault of that tree: [`tc_toml::JobError`] says which, in which task
//!   and at which key. Only want of memory may come besides.
//! - [`Job`], [`Task`] and [`Lang`] are what a job says. Every number of a job that was read is in its
//!   range, its table is a slot table for its cores, and each task has a core of its own.
//!
//! What its words mean stands in [the glossary](../../../docs/GLOSSARY.md).
#![tactic(auto)]

mod input;
mod job;
mod keys;
mod platform;
mod slots;
mod task;
mod worked;

pub use job::{Job, read_job};
pub use task::{Lang, Task};
pub use worked::jobs_worked;
