//! The checks of a C program.
//!
//! `specs/Valid.antt` of c_tree lists all faults of a program on a core of so many: what is wrong with its names,
//! types, loops, calls and sends, and what is too deep, too large or too heavy, each with the number of the token where
//! it is. A program is valid where that list is empty. [`faults_point_at_tokens`] says which tokens stand there.
//!
//! [`check`] walks the tree once with the open names, keeps the least fault, and gives a valid program with the places
//! of its variables and arrays.
//!
//! What its words mean stands in [the glossary](../../../docs/GLOSSARY.md).
#![tactic(auto)]

mod checks;
mod depths;
mod expressions;
mod frames;
mod functions;
mod laws;
mod layouts;
mod names;
mod statements;
mod units;
mod walk;
mod weights;

pub use checks::{CheckError, check};
pub use frames::frame_of;
pub use laws::{faults_point_at_tokens, least_fault_of_all};
pub use weights::weight_of;
