//! The local store of a core: which word an address names, and the words that no other core can reach.
//!
//! [`where_is`] is the memory map: it names the cell that stands at an address of one of the two spaces,
//! and answers `None` exactly where nothing does. [`Store`] is a core's scratchpad and private memory. How large
//! the memories are, [`limits`] says in numbers.
//!
//! What its words mean stands in [the glossary](../../../docs/GLOSSARY.md).
#![tactic(auto)]

mod laws;
mod map;
mod store;

pub use laws::limits;
pub use map::{COMM_WORDS, Cell, SHARED_WORDS, Space, where_is};
pub use store::{
    DATA_WORDS, FIRST_DATA_WORD, INPUT_WORDS, PRIVATE_WORDS, SCRATCH_WORDS, Store, words_of_a_store,
};
