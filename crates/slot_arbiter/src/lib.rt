//! The slot arbiter of the platform: which core may use main memory at which cycle.
//!
//! Time is cut into slots of equal length, and a slot table that repeats for ever gives each
//! slot to one core. A core's transaction moves its data in a slot of its own, so that no core
//! can delay another.
//!
//! - [`Table`] holds a slot table, and [`Place`] what one core knows of its place among the others.
//! - [`start_of`] is the first slot start of a core at or after a cycle, and [`gap_of`] the
//!   greatest distance from one of its slot starts to the next.
//! - [`limits`] says in numbers how large platforms and runs may be.
//! - [`stamp_of`] numbers what the cores do to shared words, so that all of it has one order.
//!
//! What its words mean stands in [the glossary](../../../docs/GLOSSARY.md).
#![tactic(auto)]

mod event;
mod laws;
mod place;
mod stamp;
mod start;
mod table;

pub use event::{Access, Event, MOST_TRACE, WordOp};
pub use laws::limits;
pub use place::{LATEST_START, LEAST_SLOT, MOST_CYCLES, MOST_SLOT, Place};
pub use stamp::{stamp_of, stamps_in_order};
pub use start::{gap_of, start_of, starts_in_turn};
pub use table::{MOST_CORES, Table};
