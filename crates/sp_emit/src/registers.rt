//! Which registers compiled code uses for what. Those from [`FIRST`] on hold the values of expressions, and a
//! function's arguments, one after another; after them, up to [`OVERRUN`], stand words of frames; those from [`SPARE`]
//! on hold what an operator or a statement needs besides.
ghost use Rattle.std.specs.Prelude.{◌≡◌, ◌+◌, ◌<◌, ◌%◌, ◌^◌};

use patmos_instr::{Pred, Reg};

/// What a function gives.
pub const RESULT: u32 = 1;

/// The mask that a function is run under, with its lowest bit inverted: a task begins with 0 here, which is the mask 1.
/// A function ends with the task's flag here.
pub const MASK: u32 = 2;

/// The first value of a statement, and a function's first argument.
pub const FIRST: u32 = 3;

/// A word that is used at once: an address, a length, a mask, a bit.
pub const SPARE: u32 = 27;

/// What is divided; while it is, the digits of the quotient come in from the right.
pub const DIVIDEND: u32 = 28;

/// By what it is divided, or that number's factor.
pub const DIVISOR: u32 = 29;

/// What is left of the digits that were taken so far.
pub const REMAINDER: u32 = 30;

/// How many iterations of a division are still to be made.
pub const DIGITS: u32 = 31;

/// Whether a loop went past its bound, in all functions of the task: 0 or 1.
pub const OVERRUN: u32 = 26;

/// The predicate of a test, or of a mask.
pub const TEST: u32 = 1;

/// The predicate of a second test, which is joined with the first; and that a divisor is large, or that what a signed
/// division gives is negative.
pub const SECOND: u32 = 2;

/// The predicate that a loop makes one more iteration, of statements or of a division.
pub const MORE: u32 = 3;

/// The first predicate in which a word of a frame may stand.
pub const FLAGS: u32 = 4;

/// The register of a number.
pub fn reg(number: u32) -> Reg
    requires { number < 32 }
    ensures { result ≡ number }
{
    Reg::low(number)
}

/// The predicate of a number.
pub fn pred(number: u32) -> Pred
    requires { number < 8 }
    ensures { result ≡ number }
{
    Pred::low(number)
}

/// The register after one.
pub fn register_after(rd: Reg) -> Reg
    requires { rd + 1 < 32 }
    ensures { result ≡ rd + 1 }
{
    Reg::low(rd.number() + 1)
}
