//! Single-path trees.
//!
//! A single-path tree is a program without branches, between a C text and its code: masks, which are words of a
//! function's frame, decide what has an effect, and loops always make all their iterations. Its variables are the words of a
//! frame, by their numbers, and cells and arrays of the memories; what it works on is a [`c_world::Memory`].
//!
//! - What is said: expressions ([`SpExpr`]), targets that are set ([`SpTarget`]), statements ([`SpStmt`]), functions
//!   and tasks ([`SpUnit`]). `specs/Plain.antt` and `specs/Statements.antt` are the same without the places of their
//!   boxes in memory, `specs/Shown.antt` what a tree in code says.
//! - What it means: `specs/Values.antt` is what an expression is worth, `specs/Straight.antt` what statements and
//!   functions do, `specs/Begun.antt` what a task begins with and comes to. [`value`] and [`plain_straight`] work it
//!   out: exactly that. They go only as deep as the tree and its chain of calls.
//! - What is well formed: `specs/Formed.antt`, with the registers that an expression takes (`specs/Need.antt`) and what
//!   a unit does with memories (`specs/Uses.antt`). Code can be written for each unit that is well formed.
//! - How the statements of each function of C begin, with a test of its mask: `specs/MaskTests.antt`, [`tests_mask`].
//! - How many words the code of a function takes at most: `specs/Cost.antt`.
//!
//! What its words mean stands in [the glossary](../../../docs/GLOSSARY.md).
#![tactic(auto)]

mod evaluation;
mod expressions;
mod laws;
mod limits;
mod making;
mod mask_tests;
mod operators;
mod outcome;
mod run;
mod settings;
mod statements;
mod worked;
mod worked_forms;
mod worked_runs;

pub use c_world::Region;
pub use evaluation::value;
pub use expressions::{SpArray, SpCell, SpExpr, SpTarget};
pub use laws::{earlier_functions_serve, frames_grow, masks_hold, statements_join, tree_limits};
pub use limits::{MOST_FRAME, MOST_FUNCTIONS, MOST_NEED, MOST_PARAMETERS};
pub use making::{before_operand, between_operands, copied, indexed};
pub use mask_tests::{is_one, tests_mask};
pub use operators::{SpBinary, SpUnary};
pub use outcome::{SpOutcome, plain_straight};
pub use statements::{SpFunction, SpStmt, SpUnit};
pub use worked::{worked_operators, worked_values};
pub use worked_forms::{
    worked_costs, worked_formed, worked_needs, worked_unformed, worked_unformed_units,
};
pub use worked_runs::{worked_calls, worked_effects, worked_masks, worked_tasks};
