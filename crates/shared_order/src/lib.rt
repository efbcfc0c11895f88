//! The order of shared operations: what the cores of a platform do to the words that they share,
//! in which order it stands, and how a machine that steps all cores relates to its cores run apart.
//!
//! In the terms of conservative parallel discrete-event simulation a core is a logical process, an
//! [`Operation`] an event that others can notice, and its stamp a time that no two cores have in
//! common. Everything is stated once for any kind of core: a core is a function that gives, for
//! each phase of each cycle, a program of loads and stores.
//!
//! The crate has definitions and laws, and no code besides. Each law is a function that does
//! nothing: its clauses are the theorems, and lemmas that are public to the crates above.
//!
//! - [`worked_machine`] shows the definitions at work on a machine of two small cores.
//! - [`words_after_operations`] and [`own_loads_see_their_words`] speak of lists of operations,
//!   [`program_is_heard_again`] of single programs, and [`turn_in_parts`] of one program after another.
//! - [`machine_by_stamps`]: by cycles and phases, and by stamps, is one machine.
//! - [`core_is_its_run_apart`]: a core in the machine does what it does apart from the others on
//!   the values that its own loads gave there.
//! - [`operations_in_order`]: the stamps do not fall, each load has what was stored last, and the
//!   words are those after all operations.
//! - [`merge_is_the_machines`]: a list with these marks is the machine's, however it came about;
//!   [`merge_goes_on`] has the steps by which one comes about.
//! - [`next_is_determined`], [`machine_is_a_course`] and [`ranges_are_kept`]: what a board that lets
//!   the cores act in the order of their stamps has to know.
//! - [`core_goes_on`], [`core_skips`] and [`core_stands`]: what a core that is stepped by itself has
//!   to keep; [`event_asks`], [`event_is_next`] and [`part_is_next`]: what follows for the event
//!   that it asks for.
//!
//! What its words mean stands in [the glossary](../../../docs/GLOSSARY.md).
#![tactic(auto)]

mod course;
mod event;
mod machine;
mod merge;
mod operation;
mod position;
mod program;
mod range;
mod stores;
mod worked;

pub use course::{machine_is_a_course, next_is_determined};
pub use event::event_asks;
pub use machine::{core_is_its_run_apart, machine_by_stamps, operations_in_order};
pub use merge::{merge_goes_on, merge_is_the_machines};
pub use operation::Operation;
pub use position::{core_goes_on, core_skips, core_stands, event_is_next, operation_is_next};
pub use program::{program_is_heard_again, turn_in_parts};
pub use range::{Ranged, ranges_are_kept};
pub use stores::{own_loads_see_their_words, words_after_operations};
pub use worked::worked_machine;
