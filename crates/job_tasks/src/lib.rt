//! The tasks of a job, made.
//!
//! [`coded_tasks`] makes each task of a job, core after core: an assembly text to the image of its code, a C text to
//! its image, with its program, the shape of its code and its two bounds. It never looks at an input. The first task
//! that is refused ends it, and [`refusal_answer`] has the line on that. What each task is made to, which are refused
//! and with which line, is exactly `specs/Tasks.antt`. It promises of what it makes:
//!
//! - there is a task of a core exactly where the job has one, of that core (`specs/Coding.antt`);
//! - its input, its code and the first words of its image are words of 32 bits, and the program of a C task is valid on
//!   its core, with the image and the bounds that its text alone gives there (`specs/Making.antt`);
//! - the shape and the image of a C task are those of its program's code.
//!
//! A program that reads a job and writes one text has the rest of what it needs here:
//!
//! - [`RangedJob`] is a job whose numbers are in their ranges, and where its cores stand;
//! - [`Answer`] is a status and a text, and `specs/Answer.antt` has those that do not depend on what is asked: whole
//!   texts, and the lines on bytes that are no job, on tasks that are refused, on texts that are too long, and on
//!   sources that fail;
//! - [`words_of`] gives the words of the command line;
//! - [`finish`] sends an answer, and `specs/Outcome.antt` says what a call has done that ends so, whatever failed.
//!
//! What its words mean stands in [the glossary](../../../docs/GLOSSARY.md).
#![tactic(auto)]

mod answers;
mod calls;
mod laws;
mod program;
mod ranged;
mod refusal;
mod tasks;

pub use answers::{Answer, READ_FAULT_LINE, TOO_LONG_LINE, no_job, whole};
pub use calls::{MOST_BYTES, TextFault, finish, words_of};
pub use laws::limits;
pub use program::Program;
pub use ranged::RangedJob;
pub use refusal::{CoreRefusal, Halt, Refusal, refusal_answer};
pub use tasks::{CodedTask, MadeTask, coded_tasks};
