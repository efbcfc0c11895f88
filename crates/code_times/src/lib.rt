//! The times of code. A core that follows its code ([`code_core`]) has the same events whatever is put in and read, so
//! it makes the same transactions in the same cycles and ends in the same cycle; and what its events cost at most is
//! the bound that cycle_bound works out. The crate has definitions and a law, and no code besides.
//!
//! - `specs/Costs.antt`: how many cycles events take at most, where a transaction takes so many;
//! - `specs/Times.antt`: the times of code at a core's place, and the cycle by which it has ended.
//!
//! [`code_keeps_its_times`] says that each run has those times, ends within the bound, and is never stopped by a check.
//!
//! What its words mean stands in [the glossary](../../../docs/GLOSSARY.md).
#![tactic(auto)]

mod laws;

pub use laws::code_keeps_its_times;
