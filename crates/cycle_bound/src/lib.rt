//! The bound of compiled code: how many cycles it takes at most.
//!
//! Single-path code runs the same bundles whatever its input, and each of its transactions with main memory waits for
//! a slot of its core, however little the other cores do. So the bundles that are run, and the most that each possible
//! transaction can take at the core's place, bound its time on every input and beside every neighbour. This crate works
//! the number out; that the time of code is at most the number is a law of code_times.
//!
//! - [`bound`] is that number of a [`Shape`](sp_shape::Shape) at a [`Place`](slot_arbiter::Place): exactly the one of
//!   `specs/Bound.antt`, or [`Long`] exactly where it is more than [`MOST_BOUND`]. It takes no memory.
//!   [`bound_uncounted`] is the same for a caller that reads no count of steps.
//! - [`cycles_of_functions`], [`cycles_of_fill`], [`words_of_parts`] and [`plus`] are what it is made of,
//!   for a bound that counts the fetches of functions otherwise (`bound_persist`): what is counted for a
//!   fetch at each call and each return is an argument.
//! - [`Steps`] counts the nodes of the shape (`specs/Nodes.antt`) that it visits. Each is visited so many times as does
//!   not depend on the shape: iterations are multiplied and not run.
//!
//! What its words mean stands in [the glossary](../../../docs/GLOSSARY.md).
#![tactic(auto)]

mod bundles;
mod functions;
mod held;
mod known;
mod laws;
mod parts;
mod shapes;
mod steps;
mod words;
mod worked;

pub use bundles::{LEAST_EACH, MOST_EACH};
pub use functions::{cycles_of_fill, cycles_of_functions, fills_of_functions};
pub use held::{MOST_BOUND, plus};
pub use known::Known;
pub use laws::limits;
pub use shapes::{Long, bound, bound_uncounted, within};
pub use steps::Steps;
pub use words::words_of_parts;
pub use worked::{worked_bounds, worked_bundles, worked_fills, worked_gaps, worked_nodes};
