//! From C texts to images.
//!
//! [`compile`] makes the task of a C text for a core's place: its program, that program's single-path code and
//! the words of that, how many cycles it takes at most there, by two bounds, and what it mentions. It never
//! sees an input. Which texts it refuses, and for what, is exactly `specs/Texts.antt`. It promises of a core
//! that runs the image, whatever words are put in and read:
//!
//! - its transactions and its end are the same, and its end is within both bounds;
//! - no check stops it;
//! - it gives what the text means, where each of its own loads of a word that others reach gives what
//!   it stored there last, else the word of a world;
//! - of the words that others reach, and of the cores, it touches only those that the text mentions.
//!
//! What it does in a machine of several cores, laws of c_task tell.
//!
//! [`program_of`] goes as far as the program. [`code_of`] emits the code of a well-formed task's tree, schedules it and
//! links it: the image that `specs/Code.antt` defines. It promises that a walk over the image's words, from the entry
//! on, does the bundles of the code's trail, one after another, and leaves what the tree means, where each load gives
//! what was stored last in its word. A walk is a core without time, as tc_link's `specs/Walk.antt` says.
//!
//! What its words mean stands in [the glossary](../../../docs/GLOSSARY.md).
#![tactic(auto)]

mod code;
mod faults;
mod programs;
mod tasks;
mod worked;

pub use code::{Code, code_of};
pub use faults::CompileFault;
pub use programs::program_of;
pub use tasks::{Compiled, compile};
pub use worked::worked_image;
