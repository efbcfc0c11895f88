//! A core of Patmos (profile TP1) that is run by itself, from one use of the board's words to the next.
//!
//! [`Core::next`] gives the next event of the core's run apart, which is the words of the board that it loads and
//! stores at one stamp, whatever its loads will give; or it says that none comes before a limit, and what the core then
//! is; [`Core::go_on`] does the same and leaves the event in the core, where [`Core::event`] shows it.
//! [`Core::resume`] hands back what the event's loads gave. A public relation (`Position`) says for which run apart
//! a core stands. The model (the crate patmos_model) waits cycle by cycle; the code does private bundles one after
//! another (`turn`, `second_phase`) and goes over waiting by arithmetic on slots, windows and due cycles.
//!
//! - `begin`, `step`, `resume`, `report`: making a core, its next event, handing back values, what it then is.
//! - `phase`, `turn`, `second_phase`, `window`, `events`: the phases of a cycle and the events of each.
//! - [`core_is_at_its_place`]: a core stands for a run apart at its own place.
//!
//! No call but [`Core::new`] takes memory.
//!
//! What its words mean stands in [the glossary](../../../docs/GLOSSARY.md).
#![tactic(auto)]

mod begin;
mod cpu;
mod events;
mod kind;
mod phase;
mod place;
mod report;
mod resume;
mod second_phase;
mod step;
mod tasked;
mod turn;
mod window;

pub use cpu::{Core, Next};
pub use patmos_model::CoreState;
pub use place::core_is_at_its_place;
