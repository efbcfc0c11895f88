//! Texts in TOML: the values at their keys, and what is wrong with them.
//!
//! Jobs and schedules of the network are such texts, and their faults are reported alike: by a name, by the
//! number of the task where there is one, and by the key.
//!
//! - [`tree_of`] gives the tree that `toml` makes of the bytes, or the fault of a text that is no TOML.
//! - [`Section`] is a table of the tree: a number in its range, a string, or any value at a key is exactly
//!   what the definitions in `specs/Values.antt` find there, or their fault at that key. [`integers_in`],
//!   [`tables_of`] and [`text_of`] read a value by itself.
//! - `specs/Keys.antt` says which unknown key of a table is reported: the least by bytes, as [`least_key_is_told`] shows.
//! - [`JobError`] says the first fault of a text, and where it is; [`put_fault`] appends the line in which
//!   it is reported. Only want of memory may come besides.
//!
//! What its words mean stands in [the glossary](../../../docs/GLOSSARY.md).
#![tactic(auto)]

mod fault;
mod keys;
mod section;
mod tree;
mod values;
mod worked;

pub use fault::{JobError, JobFault, Refusal, put_fault};
pub use keys::least_key_is_told;
pub use section::Section;
pub use tree::tree_of;
pub use values::{integers_in, tables_of, text_of};
pub use worked::faults_worked;
