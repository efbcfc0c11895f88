//! The forms of Patmos instructions in assembly texts: what stands after a mnemonic, and the instruction that it is.
//!
//! `specs/` says what each of them is, from the smallest up: numbers, words and signs (`Readers`), registers, addresses
//! and other operands (`Operands`), and the forms of instructions with their mnemonics (`Forms`).
//!
//! - [`guard_at`] and [`guard_of`] read a guard, and [`op_in`] what stands after a mnemonic of a [`Form`];
//! - [`AsmKind`] lists the faults of a text; of the faults of one statement the first in that list is reported.
//!
//! What its words mean stands in [the glossary](../../../docs/GLOSSARY.md).
#![tactic(auto)]

mod faults;
mod forms;
mod numerals;
mod operands;
mod ops;
mod readers;

pub use faults::{AsmKind, Refused};
pub use forms::{Form, JumpKind};
pub use numerals::Numeral;
pub use operands::guard_at;
pub use ops::{guard_of, op_in};
pub use readers::{Radix, at_end, is_name, sign_at, without_blanks, word_at};
