//! What compiled tasks leave, and what they may touch. A core that follows a task's code holds in its memories what the
//! code's run holds, so it gives what the task's tree means; and of the words that other cores reach it touches only
//! those that the tree names. The crate has definitions and laws, and no code besides.
//!
//! - `specs/Reach.antt`: which words that other cores reach a tree names;
//! - `specs/Meant.antt`: what a task's core comes to, and what it has asked of the others.
//!
//! - [`tasks_come_to_their_meaning`]: value, flag, words and transfers are those of the tree;
//! - [`tasks_reach_what_they_name`]: what is loaded, stored and sent is named.
//!
//! What its words mean stands in [the glossary](../../../docs/GLOSSARY.md).
#![tactic(auto)]

mod laws;

pub use laws::{tasks_come_to_their_meaning, tasks_reach_what_they_name};
