ghost use Rattle.std.specs.Prelude.{◌≡◌, ◌%◌, ◌^◌, ◌<◌};
ghost use Rattle.patmos_instr.specs.Guards.{guard_number, guard_of};

use crate::registers::Pred;

/// The guard of an instruction: a predicate, or its negation. Where it is false, the instruction has
/// no effect. An operand of a combination of predicates has the same form.
#[derive(Clone, Copy, Debug, PartialEq, Eq)]
pub struct Guard {
    /// Whether the guard is the predicate's negation.
    pub negated: bool,
    /// The predicate.
    pub pred: Pred,
}

impl Guard {
    /// The guard that the low four bits of a word name: the negation, then the predicate.
    pub fn low(word: u32) -> Guard
        ensures { result ≡ guard_of word }
    {
        Guard {
            negated: word / 8 % 2 == 1,
            pred: Pred::low(word),
        }
    }

    /// Its four bits.
    pub fn number(self) -> u32
        ensures value { result ≡ guard_number self }
        ensures range { result < 16 }
    {
        u32::from(self.negated) * 8 + self.pred.number()
    }
}
