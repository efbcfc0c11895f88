//! The board of published clocks: the words that the cores of a platform share, and what makes sure
//! that the cores, run by threads of their own, make their loads and stores in one fixed order.
//!
//! In the terms of conservative parallel discrete-event simulation each core is a logical process
//! and each load or store of a shared word an event, with a stamp. A core makes its events in the
//! order of their stamps, and may make one only when no other core can still make an earlier one.
//! So each core has a clock on the board. It publishes a stamp there, which says that it makes
//! nothing earlier from then on (a null message is nothing else); and before it makes an event it
//! looks at the other clocks until each is at or past the event's stamp.
//!
//! - [`Course`] names what the cores do: all their operations in one order, by stamp, and what each
//!   core asks for next. The board needs no more of them, and takes no part in computing it.
//! - [`Board`] has the words, and a clock and a claim word for each core, in an `atomic_table`; each
//!   call is one atomic step. [`Pass`] is the right to act for one core, or the maker's right to
//!   give such passes and take them back. It carries what its core has made, published and seen, its
//!   [`Record`], which no program computes: contracts alone speak of it.
//! - [`rule_in_words`] tells what holds between any two steps of any threads: the operations that
//!   all passes have made are the first ones of the course, each with the course's value, each core
//!   has made the first ones of its own, and each shared word has what was stored last in it.
//! - [`Board::close`] gives the words after the whole course, once the passes of all cores are back
//!   and each has published a stamp past it.
//! - [`two_cores_by_turns`] and [`two_cores_at_once`] make a worked course, [`TwoCores`], and
//!   [`worked_records`] shows the definitions at work on it.
//!
//! No call but [`Board::give`] may wait, and none but [`Board::new`] takes memory. Who has to wait for a
//! clock looks again, and sees to it that other threads run meanwhile: [`Board::peek`] shows a clock to
//! those who wait beside the board.
//!
//! What is not promised: that a core gets on, that waiting ends, that no two cores wait for one
//! another, or that threads run at the same time.
//!
//! What its words mean stands in [the glossary](../../../docs/GLOSSARY.md).
#![tactic(auto)]

mod board;
mod course;
mod known;
mod law;
mod parts;
mod rule;
mod worked;

pub use course::Course;
pub use known::{Holding, Look, Record, View};
pub use law::rule_in_words;
pub use parts::{Board, Pass};
pub use worked::{TwoCores, two_cores_at_once, two_cores_by_turns, worked_records};
