//! Compiled tasks in the machine of all cores. A core of the machine does what its task does apart, on what its own
//! loads gave; so all that holds of a compiled task apart holds of it there, whatever runs on the other cores. The
//! crate has definitions and laws, and no code besides. In `specs/`, in reading order:
//!
//! 1. `Machines`: machines in which a core has a compiled task, and which words other tasks may change;
//! 2. `Reported`: the times of a task in a machine, and its own operations.
//!
//! [`machines_keep_tasks_times`] says that it has its own times there, [`machines_give_tasks_their_meaning`] that it
//! gives what its tree means from each world that fits its loads, and [`tasks_alone_read_zeros`] that the world of
//! zeros fits where no other task may change what it reads.
//!
//! What its words mean stands in [the glossary](../../../docs/GLOSSARY.md).
#![tactic(auto)]

mod laws;

pub use laws::{
    machines_give_tasks_their_meaning, machines_keep_tasks_times, tasks_alone_read_zeros,
};
