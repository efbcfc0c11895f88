//! Tests of the crates that read texts: what no case of the program shows.
//!
//! A crate with tests is proved twice, with them and without. So the tests of several crates stand here, over their
//! public calls alone, and have no part in the program. What a command shows is a case of `cases/` at the top instead.
#![tactic(auto)]

#[cfg(test)]
mod assembly;
#[cfg(test)]
mod c_texts;
#[cfg(test)]
mod checks;
#[cfg(test)]
mod conversions;
#[cfg(test)]
mod expect;
#[cfg(test)]
mod jobs;
#[cfg(test)]
mod kernels;
#[cfg(test)]
mod meanings;
#[cfg(test)]
mod mentions;
#[cfg(test)]
mod names;
#[cfg(test)]
mod schedules;
