//! The words of a core that follows its code. Along the walk its scratchpad, its private words below the
//! stack and the lines of its data cache hold what a run of the code holds, and so do the words that other
//! cores reach, where its own loads of them agree with a world. The crate has definitions and a law, and
//! no code besides. In `specs/`, in reading order:
//!
//! 1. `Own`: the words that the core alone reaches, against a run's;
//! 2. `Board`: the words that others reach too, after the core's own stores;
//! 3. `Left`: what a core begins with and leaves; `May`: which words it may load and store, and whom it may send to.
//!
//! [`code_leaves_its_words`] says that the core ends with the registers and the words of the run in which
//! each load gives what was stored last in its word.
//!
//! What its words mean stands in [the glossary](../../../docs/GLOSSARY.md).
#![tactic(auto)]

mod laws;

pub use laws::code_leaves_its_words;
