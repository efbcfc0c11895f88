ghost use Rattle.std.specs.Prelude.{◌≡◌, ℕ, ◌%◌, ◌^◌};
ghost use Rattle.std.specs.Option.{SomeIff};
ghost use Rattle.patmos_instr.specs.Fields.{FitsImm5, FitsImm7, FitsImm12};

use std::marker::Model;

/// The immediate of a compare, unsigned: 0 to 31.
#[derive(Clone, Copy, Debug, PartialEq, Eq)]
pub struct Imm5 {
    number: u32,
}

impl Model for Imm5 {
    ghost Value = { ℕ };

    ghost view = { λ f. f.number };

    ghost invariant = { λ f. FitsImm5 f.number };

    ghost inverse = { λ n. record { number = n } };
}

impl Imm5 {
    /// The immediate of this number; None exactly where the number is past the range.
    pub fn new(number: u32) -> Option<Imm5>
        ensures { SomeIff result (FitsImm5 number) number }
    {
        if number < 32 {
            Some(Imm5 { number })
        } else {
            None
        }
    }

    /// The immediate that the low 5 bits of a word name.
    pub fn low(word: u32) -> Imm5
        ensures { result ≡ word % 2 ^ 5 }
    {
        Imm5 { number: word % 32 }
    }

    /// Its number.
    pub fn number(self) -> u32
        ensures value { result ≡ self }
        ensures range { FitsImm5 result }
    {
        self.number
    }
}

/// The immediate of a load or a store, unsigned: 0 to 127, in units of the access's width.
#[derive(Clone, Copy, Debug, PartialEq, Eq)]
pub struct Imm7 {
    number: u32,
}

impl Model for Imm7 {
    ghost Value = { ℕ };

    ghost view = { λ f. f.number };

    ghost invariant = { λ f. FitsImm7 f.number };

    ghost inverse = { λ n. record { number = n } };
}

impl Imm7 {
    /// The immediate of this number; None exactly where the number is past the range.
    pub fn new(number: u32) -> Option<Imm7>
        ensures { SomeIff result (FitsImm7 number) number }
    {
        if number < 128 {
            Some(Imm7 { number })
        } else {
            None
        }
    }

    /// The immediate that the low 7 bits of a word name.
    pub fn low(word: u32) -> Imm7
        ensures { result ≡ word % 2 ^ 7 }
    {
        Imm7 { number: word % 128 }
    }

    /// Its number.
    pub fn number(self) -> u32
        ensures value { result ≡ self }
        ensures range { FitsImm7 result }
    {
        self.number
    }
}

/// The immediate of a short operation, unsigned: 0 to 4,095. Of a stack operation it counts words.
#[derive(Clone, Copy, Debug, PartialEq, Eq)]
pub struct Imm12 {
    number: u32,
}

impl Model for Imm12 {
    ghost Value = { ℕ };

    ghost view = { λ f. f.number };

    ghost invariant = { λ f. FitsImm12 f.number };

    ghost inverse = { λ n. record { number = n } };
}

impl Imm12 {
    /// The immediate of this number; None exactly where the number is past the range.
    pub fn new(number: u32) -> Option<Imm12>
        ensures { SomeIff result (FitsImm12 number) number }
    {
        if number < 4096 {
            Some(Imm12 { number })
        } else {
            None
        }
    }

    /// The immediate that the low 12 bits of a word name.
    pub fn low(word: u32) -> Imm12
        ensures { result ≡ word % 2 ^ 12 }
    {
        Imm12 {
            number: word % 4096,
        }
    }

    /// Its number.
    pub fn number(self) -> u32
        ensures value { result ≡ self }
        ensures range { FitsImm12 result }
    {
        self.number
    }
}
