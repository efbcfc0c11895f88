//! The stack cache of a core: the words on top of the task's stack, kept beside the processor.
//!
//! The stack grows down in a core's private memory. `st` points at its top, and the cache holds the
//! words from `st` up to `ss`, [`STACK_CACHE_WORDS`] at most; the words from `ss` on stand in private
//! memory. [`StackCache::reserve`] puts zeros on top and spills what no longer fits, [`StackCache::ensure`]
//! brings spilled words back, and [`StackCache::free`] takes words off and moves no data. Each
//! refuses a count above that, or a pointer outside the stack's region, with a [`StackFault`], and
//! then nothing has changed. [`words_come_back`] is the law that nothing is lost on the way, and
//! [`limits`] says the sizes in numbers.
//!
//! What its words mean stands in [the glossary](../../../docs/GLOSSARY.md).
#![tactic(auto)]

mod fault;
mod laws;
mod slots;
mod stack;

pub use fault::StackFault;
pub use laws::limits;
pub use slots::STACK_CACHE_WORDS;
pub use stack::{STACK_END, STACK_LOWEST, StackCache, words_come_back};
