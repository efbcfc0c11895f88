//! Code for single-path trees.
//!
//! Each construct of a tree has its bundles, one instruction in each, whatever the masks and the values are: so a
//! tree's code always runs the same bundles. What is off is kept off by a predicate where it is a word of the stack, of
//! the scratchpad, of communication memory or of the interface; a word of main memory is then stored at word 0, which
//! nothing else uses, so that the transactions are the same too.
//!
//! [`emit`] writes the code of a well-formed task, as the shape that `specs/Functions.antt` defines. It
//! promises besides that the shape is well formed, that each of its bundles is one instruction, that its
//! delay slots do nothing, that whatever may have a transaction with main memory is always done, that a
//! function has at most as many words as its tree costs, and that it takes at most as many words of the stack as its
//! tree's frame has.
//!
//! What comes of a task's code is what its tree means, where each load gives what was stored last in its word: so
//! [`emit`] promises, and [`functions_do_what_they_give`] says it of each function and of its statements.
//! [`loops_make_all_iterations`] says that the branches and returns of a task's code go where its trail goes on,
//! [`tasks_ask_for_what_they_name`] which words it may read and store, and [`tasks_stay_within_the_stack`] that it
//! never leaves the stack: all three whatever is loaded from outside the stack. Where these want the constants and
//! the counts of a tree to be words, [`code_holds_the_constants`] says that they are if the constants of its code are.
//!
//! - `specs/Instructions.antt` has the bundles, `src/registers.rt` which registers they use for what, and
//!   `specs/Places.antt` where the words of a frame stand: in a window of registers, or in the stack.
//! - `specs/Expressions.antt`, `specs/Division.antt` and `specs/Divisors.antt` have the code of values,
//!   `specs/Endings.antt` the one instruction in which it may end,
//!   `specs/Statements.antt` that of what statements do, `specs/Functions.antt` that of functions and tasks.
//! - `specs/Fits.antt` says when a statement's code fits a frame, `specs/Ran.antt` what comes of a task's code.
//! - `specs/Accesses.antt` says what code may ask for, `specs/Counts.antt` that the counts of iterations are words,
//!   `specs/Chains.antt` which statements call, and how many words frames take, each and on a chain of calls.
//! - `specs/Holding.antt` says what code keeps, `specs/Means.antt` when a run shows the words that a tree works on,
//!   `specs/Serving.antt` what a function's code has where it begins and leaves where it has returned.
//!
//! What its words mean stands in [the glossary](../../../docs/GLOSSARY.md).
#![tactic(auto)]

mod arrays;
mod calls;
mod division;
mod divisors;
mod expressions;
mod flags;
mod functions;
mod instructions;
mod last;
mod laws;
mod operators;
mod parts;
mod places;
mod registers;
mod stands;
mod statements;
mod truths;
mod worked;
mod writes;

pub use functions::emit;
pub use laws::{
    code_holds_the_constants, functions_do_what_they_give, loops_make_all_iterations,
    registers_numbered, tasks_ask_for_what_they_name, tasks_stay_within_the_stack,
};
pub use registers::{
    DIGITS, DIVIDEND, DIVISOR, FIRST, FLAGS, MASK, MORE, OVERRUN, REMAINDER, RESULT, SECOND, SPARE,
    TEST,
};
pub use sp_shape::{Part, Shape};
pub use stands::{Flags, Homes};
pub use worked::{worked_calls, worked_divisions, worked_effects};
