//! What C programs mention, and when a task is alone with the data that it uses.
//!
//! Each C task is given two arrays: `comm`, the words of its core's communication memory, and `shared`, the
//! words that all cores share. A program mentions one of them where a name in its text means it: where the
//! name stands for no variable that is open there (`specs/Uses.antt`, `specs/Mentions.antt`).
//! [`mentions_of`] tells this of a program, whether it assigns elements of `shared`, and which cores it has
//! a `send` to, as the bits of a word (`specs/Bits.antt`).
//!
//! A task is alone with its data where no other task of the job can change what it mentions (`specs/Alone.antt`,
//! [`is_alone`]): assembly may change all, a C task what it assigns and the communication memory of the cores that it
//! sends to.
//!
//! What its words mean stands in [the glossary](../../../docs/GLOSSARY.md).
#![tactic(auto)]

mod alone;
mod arrays;
mod expressions;
mod mentioned;
mod noted;
mod programs;
mod statements;
mod tasks;
mod worked;

pub use alone::is_alone;
pub use mentioned::Mentions;
pub use programs::mentions_of;
pub use tasks::{CoreTask, Mentioning};
pub use worked::{worked_alone, worked_mentions, worked_sends};
