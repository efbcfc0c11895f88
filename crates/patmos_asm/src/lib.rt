//! The assembler: texts and the code of a core's task.
//!
//! What stands in a text is read by the crate patmos_syntax. Here names get their places: `specs/Assembly.antt` says
//! what the code of a text is, which is the names of its functions, the places of their first words, and the words of
//! the image, in which each function's size stands before its words. A text without a code has a fault: that of its
//! first faulty statement, and there the first in the order of [`AsmKind`].
//!
//! - [`assemble`] gives exactly that code or that fault.
//! - [`image_of`] makes of a code the image that a core is started with.
//! - [`print`] writes a code exactly as `specs/Printed.antt` says (`Written` has the text of each instruction): each
//!   function's name, labels named after the offsets that are branched to, and each bundle on a line of its own. The
//!   printed text has the same code.
//! - A [`Code`] is always the code of some text.
//!
//! The names of labels and functions stand in an `indexmap`, so that a text is assembled in time linear in its length.
//!
//! What its words mean stands in [the glossary](../../../docs/GLOSSARY.md).
#![tactic(auto)]

mod checks;
mod codes;
mod faults;
mod laws;
mod names;
mod printing;
mod words;
mod writers;

pub use codes::{Code, assemble, image_of};
pub use faults::{AsmError, AsmFault};
pub use laws::worked_texts;
pub use patmos_forms::AsmKind;
pub use printing::print;
pub use writers::{write_guard, write_plain};
