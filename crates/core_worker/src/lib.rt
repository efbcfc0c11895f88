//! A worker: it runs one core against the clock board.
//!
//! A core that is stepped by itself gives its uses of the board's words one after another, each with a stamp.
//! Its worker makes them on the board, each when the clocks of all other cores are at or past its stamp; and
//! before it looks at others it publishes how far its own core has come, which is all that they wait for.
//!
//! - [`Worker::advance`] is one turn. It runs the core by pieces of at most 1,024 cycles up to the next
//!   event and publishes after each piece; it publishes the event's stamp; it looks, at most once, at each
//!   clock that it has not seen there yet; and it makes the event, or tells which clock is before it
//!   ([`Turn`]). It neither waits nor takes memory.
//! - [`Worker::run`] and [`run_all`] take turns until the limit, and [`run_some`] until the threads of a run give
//!   their workers back; they may wait for workers elsewhere.
//! - [`Waiting`] is what the workers of a run share to do so, beside the board: who waits peeks at a clock and
//!   then sleeps, and who publishes a stamp that is waited for wakes it.
//! - [`two_idle_cores`] and [`two_idle_cores_at_once`] show how workers are made, run and taken apart, and
//!   [`one_core_awaited`] how a thread that sleeps for a clock is woken.
//!
//! Contracts tell of the core for whose run apart a worker stands (`specs/Runs.antt`), of the stamps that it
//! has published (`specs/Pieces.antt`), and of its looks (`specs/Looked.antt`); what each turn did stands in
//! `specs/Worker.antt`. That a worker which waits ever goes on is not promised.
//!
//! What its words mean stands in [the glossary](../../../docs/GLOSSARY.md).
#![tactic(auto)]

mod looking;
mod making;
mod progress;
mod rounds;
mod turn;
mod waiting;
mod worked;
mod worker;

pub use rounds::{run_all, run_some};
pub use turn::Turn;
pub use waiting::Waiting;
pub use worked::{NoOperations, one_core_awaited, two_idle_cores, two_idle_cores_at_once};
pub use worker::Worker;
