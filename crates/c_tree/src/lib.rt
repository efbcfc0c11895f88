//! The tokens and the trees of C texts, and which programs are valid.
//!
//! A text is a list of tokens ([`Token`]). A program is a tree ([`Unit`]) whose tokens are those of the text
//! (`specs/Tokens.antt` writes them) and that fits the grammar's levels and its limit of open brackets
//! (`specs/Fits.antt`). A tree keeps what was written, parentheses and signs included, so that it has one list of
//! tokens, and a list of tokens one tree, but for the places of its boxes in memory: `specs/Plain.antt` has trees
//! without them.
//!
//! All else is stated of plain trees: the place of a part, counted in tokens (`specs/Sizes.antt`, [`sizes_are_tokens`]),
//! its depth, weight and frame, the faults of a program (`specs/Valid.antt` and the files that it names), and where its
//! variables and arrays stand (`specs/Layout.antt`). How much a program may have of each, [`subset_limits`] says in
//! numbers. A [`Checked`] is a program that is valid on its place.
//!
//! What its words mean stands in [the glossary](../../../docs/GLOSSARY.md).
#![tactic(auto)]

mod checks;
mod expressions;
mod laws;
mod layout;
mod limits;
mod statements;
mod tokens;
mod units;
mod worked;
mod worked_checks;

pub use checks::{CheckFault, Fault, Meaning, Within};
pub use expressions::{BinaryOp, Expr, Step, UnaryOp};
pub use laws::{sizes_are_tokens, subset_limits};
pub use layout::{Checked, Slot};
pub use limits::{
    MOST_BRACKETS, MOST_DEPTH, MOST_FRAME_WORDS, MOST_FUNCTION_WEIGHT, MOST_ITERATIONS,
    MOST_LEVELS, MOST_PARAMETERS, MOST_PRIVATE_WORDS, MOST_SCRATCH_WORDS, MOST_TASK_WEIGHT,
    WORDS_BESIDES,
};
pub use statements::{Arm, Bound, Head, Kind, Right, Stmt};
pub use tokens::{Keyword, Sign, Token};
pub use units::{Const, Function, Global, Item, Length, Parameter, Unit};
pub use worked::{between, in_parentheses, worked_fits, worked_tokens};
pub use worked_checks::{worked_faults, worked_layout, worked_weights};
