//! The persistent bound of compiled code: a second and tighter one, for code whose
//! functions all stay in the method cache together.
//!
//! The bound of `cycle_bound` counts a fetch at each call and at each return, as if the method cache never had
//! the function. Where all functions that are reached fit into the cache together, none is ever evicted: each is
//! fetched at most once, the first time that it is called. So the persistent bound counts one fetch of each, and
//! nothing at calls and returns. Elsewhere it is the bound. This crate works the number out; that the time of
//! code is at most the number is a law of code_persist.
//!
//! - [`persist_bound`] is that number of a [`Shape`](sp_shape::Shape) at a [`Place`](slot_arbiter::Place): exactly the
//!   one of `specs/Persist.antt`, or [`Long`](cycle_bound::Long) exactly where it is more than
//!   [`MOST_BOUND`](cycle_bound::MOST_BOUND). It is never more than the bound. It takes no memory.
//!   [`persist_bound_uncounted`] is the same for a caller that reads no count of steps.
//! - `specs/Reached.antt`: which functions are reached, and when they stay in the method cache together.
//! - `specs/Together.antt` and [`each_misses_once`]: why one fetch of each is enough, stated of the method cache alone.
//!
//! What its words mean stands in [the glossary](../../../docs/GLOSSARY.md).
#![tactic(auto)]

mod laws;
mod marks;
mod shapes;
mod sums;
mod worked;

pub use laws::{each_misses_once, persistent_bounds_are_tighter};
pub use shapes::{persist_bound, persist_bound_uncounted};
pub use worked::{worked_persistent_bounds, worked_reached};
