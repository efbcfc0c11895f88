//! The data cache of a core: the lines of main memory that its cached loads brought in.
//!
//! The cache has 64 lines of 4 words, and a line of memory can stand at one place only. Only a cached
//! load brings a line in; a cached store changes a line that is there and brings none in. Nothing else
//! looks at the cache, so that its words may be stale: they are what this core read, changed by what
//! it stored itself.
//!
//! What its words mean stands in [the glossary](../../../docs/GLOSSARY.md).
#![tactic(auto)]

mod cache;

pub use cache::DataCache;
