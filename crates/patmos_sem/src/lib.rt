//! What a bundle of Patmos does to a core's registers, and what it asks for.
//!
//! `exec` carries out one bundle: both slots read the registers before it, an instruction whose guard is
//! false does nothing, and where two writes name one register the second slot's stands. A product and a
//! load's value come one bundle late: they are pending until the next bundle has read its operands, and
//! a write of that bundle's own wins over them. `r0` stays 0 and `p0` stays true. What lies outside the
//! registers is answered as an `Effect`: a load, a store, an operation of the stack cache or a flow.
//! `asked_by` and `write_back` are its two halves, for a caller that looks at the effect before it lets the
//! bundle write; `write_second` is the latter where it asks for something. `arrive` makes a load's value
//! pending. `pick` and `merge` take a byte or a half out of a word and put it in; `load_bytes` and
//! `store_bytes` say how many bytes an access has.
//!
//! The definitions in `specs/` tell the registers after a bundle one by one, from small pieces that
//! readers above put together in other ways. No call takes memory, and a bundle is constant work.
//!
//! What its words mean stands in [the glossary](../../../docs/GLOSSARY.md).
#![tactic(auto)]

mod effects;
mod execution;
mod files;
mod laws;
mod narrow;
mod operations;
mod pending;
mod registers;
mod writes;

pub use effects::{Effect, FlowKind};
pub use execution::{arrive, asked_by, exec, load_bytes, store_bytes, write_back, write_second};
pub use laws::{after_bundle_by_register, worked_values};
pub use narrow::{merge, pick};
pub use pending::Pending;
pub use registers::Regs;
