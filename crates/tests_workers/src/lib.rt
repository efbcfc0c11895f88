//! Tests of the crates whose threads wait for one another: the board of published clocks, the worker of a core, and
//! the run of a machine.
//!
//! A crate with tests is proved twice, with them and without. So the tests of several crates stand here, over their
//! public calls alone, and have no part in the program. What a command shows is a case of `cases/` at the top instead.
#![tactic(auto)]

#[cfg(test)]
mod boards;
#[cfg(test)]
mod expect;
#[cfg(test)]
mod machines;
#[cfg(test)]
mod workers;
