//! The run of a machine in threads: each of its cores is made as it was loaded and gets a worker on one board of
//! published clocks; the workers are run up to the limit, in threads of their own.
//!
//! - [`run_machine`] leaves a [`Final`]: for every interleaving of the workers each core is the one that the
//!   machine has at its limit, and so is each word of the board. Want of memory comes before the first step, or
//!   not at all. [`run_waiting`] is the same over what its workers wait with, for who asks which clocks are awaited.
//! - [`run_by_turns`] and [`run_plain`] leave the same in the calling thread alone: its workers by turns, or without a
//!   board, always the event of the least stamp.
//! - [`outcome_of`], [`accesses_of`], [`dropped_of`] and [`own_word_of`] tell what such a core is in the
//!   machine at its limit, and [`loaded_with_words`] that a machine is loaded with words of 32 bits.
//!
//! `machine` makes what the workers share to wait for one another, before the first of them starts.
//! `making` makes the board and the workers in groups, `crew` runs the groups in threads and joins them, with the
//! steps of `threads` and what all workers have in common, and `ending` gives the passes back and closes the board.
//! That a step hands all workers on is said by `specs/Carried.antt`, and for which of the machine's cores a worker
//! stands by `specs/Worked.antt`. That the run returns is not promised, nor that several threads run.
//!
//! What its words mean stands in [the glossary](../../../docs/GLOSSARY.md).
#![tactic(auto)]

mod begin;
mod crew;
mod ending;
mod in_words;
mod machine;
mod making;
mod one_thread;
mod reporting;
mod threads;

pub use ending::Final;
pub use in_words::loaded_with_words;
pub use machine::{run_machine, run_waiting};
pub use one_thread::{run_by_turns, run_plain};
pub use reporting::{accesses_of, dropped_of, outcome_of, own_word_of};
