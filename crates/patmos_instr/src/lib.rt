//! The instructions of Patmos, as bundles of typed fields.
//!
//! A bundle is what the processor fetches and carries out at once: one instruction, or two beside each
//! other. An instruction is an operation under a guard. Every field has a type of its own that keeps
//! the field's range, the lists of functions, memories, widths and special registers are enums, and the
//! special registers that can be written are a type apart. So an `Instr` is always one that a word of
//! code can hold, and a `Bundle` always one that the processor takes: `Bundle::pair` refuses exactly
//! the pairs that it does not.
//!
//! No call of this crate takes memory, and every type is `Copy`.
//!
//! What its words mean stands in [the glossary](../../../docs/GLOSSARY.md).
#![tactic(auto)]

mod bundles;
mod functions;
mod guards;
mod immediates;
mod instructions;
mod memories;
mod registers;
mod specials;
mod targets;

pub use bundles::{Bundle, SlotFault};
pub use functions::{AluFunc, CmpFunc, ImmFunc, PredFunc, StackFunc};
pub use guards::Guard;
pub use immediates::{Imm5, Imm7, Imm12};
pub use instructions::{Instr, Op};
pub use memories::{Mem, StoreWidth, Width};
pub use registers::{Pred, Reg};
pub use specials::{Special, WritableSpecial};
pub use targets::{Addr22, Off22};
