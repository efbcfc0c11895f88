//! Compiled tasks on a core. A task's tree is emitted, scheduled and linked; its code behaves as
//! `code_core` wants it: it makes its iterations, asks for nothing that a check of a core stops, and loads by
//! the data cache at fixed addresses, whatever words stand in memory and loads give. So a core follows it.
//! The crate has definitions and laws, and no code besides.
//!
//! - `specs/Tasks.antt`: what is wanted of a task's tree and of its code
//!   (`IsRunnable`, `IsCode`), its bound and its times;
//! - `specs/Worked.antt`: a small task.
//!
//! - [`tasks_never_trap`]: no check ever stops a compiled task;
//! - [`tasks_keep_their_times`]: its transactions and its end are the same whatever it
//!   reads, and its end is within its bound;
//! - [`a_task_that_sends`]: what these laws want can be met.
//!
//! What a task leaves in its memories, `task_words` tells.
//!
//! What its words mean stands in [the glossary](../../../docs/GLOSSARY.md).
#![tactic(auto)]

mod laws;

pub use laws::{a_task_that_sends, tasks_keep_their_times, tasks_never_trap};
