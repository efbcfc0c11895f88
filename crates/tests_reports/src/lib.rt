//! Tests of the crates of bytes that go in and out: sources and sinks, reports, and generated jobs.
//!
//! A crate with tests is proved twice, with them and without. So the tests of several crates stand here, over their
//! public calls alone, and have no part in the program. What a command shows is a case of `cases/` at the top instead.
#![tactic(auto)]

#[cfg(test)]
mod expect;
#[cfg(test)]
mod generated;
#[cfg(test)]
mod reports;
#[cfg(test)]
mod streams;
