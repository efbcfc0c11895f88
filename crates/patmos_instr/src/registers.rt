ghost use Rattle.std.specs.Prelude.{◌≡◌, ℕ, ◌%◌, ◌^◌};
ghost use Rattle.std.specs.Option.{SomeIff};
ghost use Rattle.patmos_instr.specs.Fields.{FitsReg, FitsPred};

use std::marker::Model;

/// A general register: 0 to 31. Register 0 always reads 0.
#[derive(Clone, Copy, Debug, PartialEq, Eq)]
pub struct Reg {
    number: u32,
}

impl Model for Reg {
    ghost Value = { ℕ };

    ghost view = { λ f. f.number };

    ghost invariant = { λ f. FitsReg f.number };

    ghost inverse = { λ n. record { number = n } };
}

impl Reg {
    /// The register of this number; None exactly where the number is past the range.
    pub fn new(number: u32) -> Option<Reg>
        ensures { SomeIff result (FitsReg number) number }
    {
        if number < 32 {
            Some(Reg { number })
        } else {
            None
        }
    }

    /// The register that the low 5 bits of a word name.
    pub fn low(word: u32) -> Reg
        ensures { result ≡ word % 2 ^ 5 }
    {
        Reg { number: word % 32 }
    }

    /// Its number.
    pub fn number(self) -> u32
        ensures value { result ≡ self }
        ensures range { FitsReg result }
    {
        self.number
    }
}

/// A predicate register, of one bit: 0 to 7. Predicate 0 is always true.
#[derive(Clone, Copy, Debug, PartialEq, Eq)]
pub struct Pred {
    number: u32,
}

impl Model for Pred {
    ghost Value = { ℕ };

    ghost view = { λ f. f.number };

    ghost invariant = { λ f. FitsPred f.number };

    ghost inverse = { λ n. record { number = n } };
}

impl Pred {
    /// The predicate of this number; None exactly where the number is past the range.
    pub fn new(number: u32) -> Option<Pred>
        ensures { SomeIff result (FitsPred number) number }
    {
        if number < 8 {
            Some(Pred { number })
        } else {
            None
        }
    }

    /// The predicate that the low 3 bits of a word name.
    pub fn low(word: u32) -> Pred
        ensures { result ≡ word % 2 ^ 3 }
    {
        Pred { number: word % 8 }
    }

    /// Its number.
    pub fn number(self) -> u32
        ensures value { result ≡ self }
        ensures range { FitsPred result }
    {
        self.number
    }
}
