//! The steps of a core of Patmos (profile TP1): a body that carries out the acts of a cycle, each with one clause
//! that says that the fields end where the definition's step ends.
//!
//! [`Body`] has a core's fields: registers, caches, memories, network interface, the place in the code. `Shown` says
//! which state of the model they are, and for which histories they stand. The steps, in the order of a cycle:
//!
//! - `begin`: the fields before the first cycle, with the image's words and the input in memory;
//! - `flow`: a flow of control that is due takes effect;
//! - `code`: the words of the image, each decoded once, with how a core can do them ([`Class`]);
//! - `plan`, `fetch`, `check`: what the core does in the cycle, the bundle at its offset, and the bundle's checks;
//! - `execute`, `cells`, `stack`: the bundle's registers, its load or store, its stack instruction;
//! - `transact`: up to four words move in a slot of main memory;
//! - `act`: all of them in the order of a cycle, with the values that the core's loads gave;
//! - `ask`: what the act will want of the board's words, known before its loads give their values ([`Ask`]);
//! - `report`: how far the task has come, and the words of the core's own memories.
//!
//! No step takes memory; [`Body::new`] does, once.
//!
//! What its words mean stands in [the glossary](../../../docs/GLOSSARY.md).
#![tactic(auto)]

mod act;
mod ask;
mod begin;
mod body;
mod cells;
mod check;
mod code;
mod execute;
mod fetch;
mod flow;
mod plan;
mod report;
mod stack;
mod transact;
mod values;

pub use ask::Ask;
pub use body::Body;
pub use cells::comm_word;
pub use check::cell_of;
pub use code::{Class, Decoded};
pub use execute::branch_target;
pub use plan::Plan;
