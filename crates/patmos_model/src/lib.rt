//! A core of Patmos (profile TP1) as a model: the definitions that every promise on the emulator speaks of, from
//! the state of a core to the outcome of its task. Here is all that a reader must believe of the machine.
//!
//! What a core does in each phase of each cycle is a program on the words of the board. In `specs/`, in reading
//! order:
//!
//! 1. `Site` (what of a core never changes), `Trap`, `Transfers` and `State` (what a core is between two acts, and
//!    what it has done so far), `Begin` (a core before the first cycle);
//! 2. the rules of the handbook: `Flows` (flows of control that take effect), `Cells` (the memories that an address
//!    names), `Checks` (the checks at the start of a bundle), `Bundle`, `Transaction` (words that move in a slot
//!    of main memory), and `Bursts` (the transactions of a transfer);
//! 3. `Cycle`: both phases of a cycle, with the network interface;
//! 4. the whole run: `Apart` (one core by itself, the transfers that it asks for, and the operations of its task
//!    without those of its interface), `Outcome` (how far it has come at a limit), `Range` (that all of it are words);
//! 5. worked tasks: `Programs`, `Tasks`, `Alone`.
//!
//! - [`worked_task`], [`worked_flows`], [`worked_memory`] and [`worked_traps`] show the definitions on small tasks,
//!   computed by the checker.
//! - [`run_apart_is_followed`]: keeping the task's operations apart from its interface's changes nothing.
//! - [`transfer_is_its_bursts`]: a transfer moves its words in the transactions, four
//!   words a slot and the rest in the last.
//! - [`core_keeps_ranges`]: a core in range names only words of the board, stores only words of 32 bits, and stays
//!   in range.
//! - [`words_fit`] and [`image_fits`]: what is held in types of 32 bits, as the code of an image, is words.
//! - [`CoreState`], [`Status`], [`Trap`], [`Flow`], [`Goal`], [`Transfer`], [`Then`], [`Fetched`] and
//!   [`PendingStore`] are the types of a core's state, for code and definitions both.
//!
//! What its words mean stands in [the glossary](../../../docs/GLOSSARY.md).
#![tactic(auto)]

mod apart;
mod bursts;
mod fetched;
mod flow;
mod pending_store;
mod range;
mod state;
mod transfer;
mod trap;
mod words;
mod worked;

pub use apart::run_apart_is_followed;
pub use bursts::transfer_is_its_bursts;
pub use fetched::Fetched;
pub use flow::{Flow, Goal};
pub use pending_store::PendingStore;
pub use range::core_keeps_ranges;
pub use state::{CoreState, Status};
pub use transfer::{Then, Transfer};
pub use trap::Trap;
pub use words::{image_fits, words_fit};
pub use worked::{worked_flows, worked_memory, worked_task, worked_traps};

// The crates below, which do not know one another, mean the same: a function fits the method cache.
const _: () = prove!(patmos_code::MOST_IN_FUNCTION == method_cache::METHOD_CACHE_WORDS as usize);
