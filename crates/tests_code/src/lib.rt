//! Tests of the crates that make code of single-path trees: code, its scheduling and linking, its image, and its
//! bound; and of compiled C kernels, run on a core.
//!
//! A crate with tests is proved twice, with them and without. So the tests of several crates stand here, over their
//! public calls alone, and have no part in the program. What a command shows is a case of `cases/` at the top instead.
#![tactic(auto)]

#[cfg(test)]
mod bounds;
#[cfg(test)]
mod compiling;
#[cfg(test)]
mod emission;
#[cfg(test)]
mod expect;
#[cfg(test)]
mod kernel_texts;
#[cfg(test)]
mod kernels;
#[cfg(test)]
mod linking;
#[cfg(test)]
mod making;
#[cfg(test)]
mod persisting;
#[cfg(test)]
mod scheduling;
#[cfg(test)]
mod trees;
