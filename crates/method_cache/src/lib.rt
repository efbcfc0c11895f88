//! The method cache of a core: which functions stand in it, and what it costs to bring one in.
//!
//! The cache holds whole functions, at most [`MOST_METHODS`] of them and at most [`METHOD_CACHE_WORDS`] in all.
//! A core looks it up where its task starts and where a call or a return takes effect. A function that
//! is not there is a miss: it is read from memory, and the oldest functions are evicted, first in first
//! out, until it fits. [`MethodCache::touch`] is one such look-up, and [`limits`] says the
//! sizes in numbers.
//!
//! What its words mean stands in [the glossary](../../../docs/GLOSSARY.md).
#![tactic(auto)]

mod cache;
mod laws;

pub use cache::{
    METHOD_CACHE_WORDS, MOST_METHODS, Method, MethodCache, residents_are_the_longest_suffix,
};
pub use laws::limits;
