//! Compiled code, packed and with its values in time.
//!
//! The processor carries out bundles of one instruction or two. It gives a load's value and a product one bundle late:
//! the next bundle still reads what stood in their registers before. And after a call, a return or a branch it carries
//! out the bundles of its delay slots too. Code is compiled as if each value were there at once, one instruction in a
//! bundle, and with delay slots that do nothing. It is then scheduled, in three steps:
//!
//! - It is ordered, by list scheduling: bundles that do nothing are left out, and second slots that do nothing emptied.
//!   The bundles that are ordered are rows, and each instruction, in its order, goes back over rows that have nothing
//!   in common with it, to the first that has room for it: an empty one, where a value is waited for, or one with
//!   another instruction. Loads, stores, products, special registers and operations on the stack keep their order, and
//!   none looks back at more than sixteen rows.
//! - It is packed: two neighbours become one bundle where the second neither reads nor writes what the first writes;
//!   and the last bundles before a call, a return or a branch go into its delay slots, as many as there are, up to one
//!   whose value comes late, that writes a special register, or that writes the predicate of the branch. What stands
//!   beside a flow comes into its first delay slot too. The straight code at the end of a loop's body is one piece with
//!   what stands before its branch. That comes first where nothing in the code keeps it from going back over all of it,
//!   and the iteration takes fewer bundles so; and else last.
//! - Each value comes in time: a bundle that does nothing stands after each load and each product that the next bundle
//!   reads, or that is the last of its piece.
//!
//! [`schedule`] does so with a shape that is well formed, and whose delay slots do nothing. It gives exactly the shape
//! that `specs/Scheduled.antt` defines, and promises besides:
//!
//! - What comes of the answer's trail, read late, is what comes of the argument's, read at once, from all states in
//!   which nothing is pending, wherever loads take their values from: registers, memories, and what was asked for.
//! - Where each loop of the argument makes all its iterations, each of the answer's does, wherever returns go; and where
//!   each return goes to the place that was set, so does the answer's.
//! - The answer is well formed. Where whatever may have a transaction with main memory is always done, it still is. A
//!   function takes at most as many words as sp_shape's `specs/Words.antt` gives it room.
//! - The answer is packed, as `specs/Packed.antt` says: no two neighbours of straight code stand apart that could be
//!   one, no second slot does nothing, and no call and no return has a first delay slot that does nothing where the
//!   bundle before it could fill it.
//!
//! That no bundle is lost, so that what holds of each of the answer holds of each of the argument, is
//! [`no_bundle_is_lost`].
//!
//! - `specs/Operands.antt` has what an instruction reads and writes, `specs/Ordered.antt` how code is ordered,
//!   `specs/Packing.antt` how it is packed, and `specs/Placed.antt` where a bundle that does nothing is put.
//!
//! What its words mean stands in [the glossary](../../../docs/GLOSSARY.md).
#![tactic(auto)]

mod bundles;
mod laws;
mod operands;
mod ordering;
mod packing;
mod pairs;
mod parts;
mod shapes;
mod slots;
mod tails;
mod worked;

pub use laws::no_bundle_is_lost;
pub use shapes::schedule;
pub use worked::{worked_loops, worked_ordering, worked_packed, worked_packing, worked_places};
