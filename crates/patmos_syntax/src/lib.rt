//! The syntax of assembly texts: what stands in a text, statement by statement, before any name has a place.
//!
//! A text is a list of statements: functions that begin, labels, and bundles of one or two instructions. Their words,
//! operands and forms are those of the crate patmos_forms. `specs/` says what stands above them: an instruction and a
//! bundle whose target may still be a name (`Drafts`), how a text is cut into statements (`Statements`), and what each
//! statement says (`Items`).
//!
//! - [`items_of`] reads a whole text: exactly the statements of the definition, each with its line.
//! - A statement that fits nothing has a fault of its own, [`patmos_forms::AsmKind`].
//!
//! Texts are read in time linear in their length.
//!
//! What its words mean stands in [the glossary](../../../docs/GLOSSARY.md).
#![tactic(auto)]

mod draft_types;
mod drafts;
mod items;
mod sizes;
mod statements;

pub use draft_types::{Draft, DraftBundle, DraftInstr, Jump};
pub use items::{Item, items_of};
pub use statements::Where;
