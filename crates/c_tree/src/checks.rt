//! What may be wrong with a program, what its names mean, and where its statements stand.
ghost use Rattle.std.specs.Prelude.{◌≡◌, ◌<◌};

/// What may be wrong with a program, in the order of the numbers.
#[derive(Clone, Copy, Debug, PartialEq, Eq)]
pub enum CheckFault {
    /// A name in use is not declared.
    Unknown,
    /// A name is declared in this scope already.
    Twice,
    /// Something is not used as what it is.
    WrongType,
    /// A loop has no bound.
    NoBound,
    /// A bound has its least above its most, or its most above [`crate::MOST_ITERATIONS`].
    BoundRange,
    /// A function calls itself.
    Recursion,
    /// A function has more than [`crate::MOST_PARAMETERS`] parameters, or a call
    /// another number of arguments than parameters.
    Params,
    /// An expression is deeper than [`crate::MOST_DEPTH`].
    Deep,
    /// A function's frame is above [`crate::MOST_FRAME_WORDS`].
    Frame,
    /// A function weighs more than [`crate::MOST_FUNCTION_WEIGHT`], or a task more than [`crate::MOST_TASK_WEIGHT`].
    Heavy,
    /// An array has no element, or too few for its first values, or the private words pass
    /// [`crate::MOST_PRIVATE_WORDS`].
    Data,
    /// The scratchpad's words pass [`crate::MOST_SCRATCH_WORDS`].
    Scratch,
    /// A send goes to no core, or to the own.
    Target,
    /// There is no function `int main` without parameters.
    NoMain,
}

impl CheckFault {
    ghost use Rattle.c_tree.specs.Least.{fault_number};

    /// The fault's number, from 1.
    pub fn number(self) -> u32
        ensures value { result ≡ fault_number self }
        ensures small { result < 15 }
    {
        match self {
            CheckFault::Unknown => 1,
            CheckFault::Twice => 2,
            CheckFault::WrongType => 3,
            CheckFault::NoBound => 4,
            CheckFault::BoundRange => 5,
            CheckFault::Recursion => 6,
            CheckFault::Params => 7,
            CheckFault::Deep => 8,
            CheckFault::Frame => 9,
            CheckFault::Heavy => 10,
            CheckFault::Data => 11,
            CheckFault::Scratch => 12,
            CheckFault::Target => 13,
            CheckFault::NoMain => 14,
        }
    }
}

/// A fault, and the number of the token where it is, from 0.
#[derive(Clone, Copy, Debug, PartialEq, Eq)]
pub struct Fault {
    pub at: u32,
    pub kind: CheckFault,
}

/// What a name is declared as.
#[derive(Clone, Copy, Debug, PartialEq, Eq)]
pub enum Meaning {
    /// A variable of one word.
    Scalar,
    /// An array.
    Array,
    /// A function, with the number of its parameters, whether it gives a value, and whether this is inside of it.
    Function {
        parameters: usize,
        gives: bool,
        inside: bool,
    },
}

/// Where a statement stands.
#[derive(Clone, Copy, Debug, PartialEq, Eq)]
pub struct Within {
    /// How many cores there are.
    pub cores: u32,
    /// The core that the program runs on.
    pub own: u32,
    /// Whether the function gives a value.
    pub gives: bool,
    /// Whether this is inside of a loop.
    pub in_loop: bool,
    /// How many of the open names are declared outside of this block.
    pub outer: usize,
}
