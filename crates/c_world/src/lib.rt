//! What a C task works on.
//!
//! A task has words in four memories (its scratchpad, its communication memory, its private memory, and the words that
//! all cores share), a flag that says whether a loop went past its bound, and the sends that it started
//! (`specs/World.antt`). What its operators make of words is stated in `specs/Numbers.antt`. Both the meaning of a C text
//! and that of single-path code are stated over these. In code the memories are a [`Memory`]: each call changes the
//! world that it shows exactly as the definitions do.
//!
//! What its words mean stands in [the glossary](../../../docs/GLOSSARY.md).
#![tactic(auto)]

mod memory;
mod region;
mod worked;

pub use memory::Memory;
pub use region::Region;
pub use worked::{worked_numbers, worked_world};
