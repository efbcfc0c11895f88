//! The limits of the subset. Each number stands here alone, or is of the memories' own sizes;
//! [`crate::subset_limits`] tells them in figures.
use local_store::{DATA_WORDS, FIRST_DATA_WORD, SCRATCH_WORDS};

/// How many words a function may keep on the stack.
pub const MOST_FRAME_WORDS: u32 = 120;

/// How many words compiled code keeps there besides a function's variables, loops and arms.
pub const WORDS_BESIDES: u32 = 24;

/// How many variables of a function can be open at once, parameters among them: so many levels there are.
pub const MOST_LEVELS: usize = (MOST_FRAME_WORDS - WORDS_BESIDES) as usize;

/// What a function may weigh. Weights count parts of a text, as `specs/Weight.antt` says.
pub const MOST_FUNCTION_WEIGHT: u32 = 4_096;

/// What the functions of a task may weigh together.
pub const MOST_TASK_WEIGHT: u32 = 32_768;

/// How many words of private memory a task's variables and arrays may take.
pub const MOST_PRIVATE_WORDS: u32 = DATA_WORDS as u32 - FIRST_DATA_WORD;

/// How many words of the scratchpad they may take.
pub const MOST_SCRATCH_WORDS: u32 = SCRATCH_WORDS as u32;

/// How deep an expression may be, in operands that wait at once.
pub const MOST_DEPTH: u32 = 12;

/// How many parameters a function may have.
pub const MOST_PARAMETERS: usize = 6;

/// How many iterations the bound of a loop may tell.
pub const MOST_ITERATIONS: u32 = 65_535;

/// How many brackets may be open at once.
pub const MOST_BRACKETS: usize = 64;
