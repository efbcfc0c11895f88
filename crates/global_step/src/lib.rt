//! The machine of all cores: what is loaded, and what it does cycle by cycle.
//!
//! - [`Loaded`] holds the cores of one platform with their places, images and inputs, the cycle limit, how
//!   much of a trace is told, and the number of workers; [`Loaded::new`] accepts exactly what is one.
//! - `specs/Machine.antt` has the machine: in each cycle all deliveries by sender number, then each core in
//!   order with its injection and its own part, up to the limit; all operations and those of a core, of a
//!   task itself; and how far a core has come.
//! - [`machine_keeps_ranges`]: the cores of a machine that is loaded with words stay in range, and so do its
//!   loads and stores.
//! - [`machine_is_a_course`]: all operations of such a machine are a course, which is what a board that lets
//!   the cores act in the order of their stamps has to know.
//! - [`worked_platform`], [`worked_shared`] and [`worked_network`] show it on cores that meet, computed by
//!   the checker.
//!
//! What its words mean stands in [the glossary](../../../docs/GLOSSARY.md).
#![tactic(auto)]

mod course;
mod loaded;
mod plain;
mod range;
mod worked;

pub use course::machine_is_a_course;
pub use loaded::{Loaded, LoadedCore};
pub use plain::plain_run;
pub use range::machine_keeps_ranges;
pub use worked::{worked_network, worked_platform, worked_shared};
