//! Times at each start. Slots belong to cores by a table that begins again after its period, and the waits for slots
//! are all that the start of a task changes. So code that starts whole periods later has the same transactions and the
//! same end, so much later, and code that finds the same slot first has them at the same cycles. The greatest number of
//! cycles over the starts of one period is then the exact worst case over all starts, and it is enough to look at the
//! starts that have just missed a slot of the core. The crate has definitions and laws, and no code besides.
//!
//! - `specs/Later.antt`: starts of one core, and times that are so many cycles later;
//! - `specs/Worst.antt`: how many cycles pass from a start, and the most of them over some starts.
//!
//! [`code_comes_round`] says of code that its times are the same from period to period and from slot to slot, and
//! [`code_has_its_worst_start`] that its worst start is among those of one period; [`programs_come_round`] and
//! [`programs_have_their_worst_start`] say so of C programs.
//!
//! What its words mean stands in [the glossary](../../../docs/GLOSSARY.md).
#![tactic(auto)]

mod code;
mod programs;

pub use code::{code_comes_round, code_has_its_worst_start};
pub use programs::{programs_come_round, programs_have_their_worst_start};
