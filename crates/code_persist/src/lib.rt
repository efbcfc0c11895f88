//! The persistent bound holds: where all functions of code that are reached stay in the method cache together, the code
//! ends within the bound that counts one fetch of each (`bound_persist`), and elsewhere within the bound as ever. The
//! crate has definitions and a law, and no code besides.
//!
//! - `specs/Events.antt`: events that go to some functions alone, and what events cost without the method cache.
//!
//! [`code_keeps_its_persistent_bound`] says it of the times that each run has (`code_times`).
//!
//! What its words mean stands in [the glossary](../../../docs/GLOSSARY.md).
#![tactic(auto)]

mod laws;

pub use laws::code_keeps_its_persistent_bound;
