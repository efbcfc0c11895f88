//! Tests of the crates of a processor: instructions, their words, what a bundle does, a core and what it is made of,
//! its pipeline, and the machine of all cores.
//!
//! A crate with tests is proved twice, with them and without. So the tests of several crates stand here, over their
//! public calls alone, and have no part in the program. What a command shows is a case of `cases/` at the top instead.
#![tactic(auto)]

#[cfg(test)]
mod bundles;
#[cfg(test)]
mod cores;
#[cfg(test)]
mod expect;
#[cfg(test)]
mod instructions;
#[cfg(test)]
mod interfaces;
#[cfg(test)]
mod machines;
#[cfg(test)]
mod models;
#[cfg(test)]
mod operations;
#[cfg(test)]
mod pipelines;
#[cfg(test)]
mod stacks;
#[cfg(test)]
mod words;
