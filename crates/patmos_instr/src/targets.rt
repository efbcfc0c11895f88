ghost use Rattle.std.specs.Prelude.{◌≡◌, ℕ, ℤ, ◌%◌, ◌^◌, ◌<◌};
ghost use Rattle.std.specs.Option.{SomeIff};
ghost use Rattle.patmos_instr.specs.Fields.{FitsAddr22, FitsOff22, offset_bits, offset_of};

use std::marker::Model;

/// The target of a call, as the place of a word of the code: 0 to 2^22 - 1.
#[derive(Clone, Copy, Debug, PartialEq, Eq)]
pub struct Addr22 {
    number: u32,
}

impl Model for Addr22 {
    ghost Value = { ℕ };

    ghost view = { λ f. f.number };

    ghost invariant = { λ f. FitsAddr22 f.number };

    ghost inverse = { λ n. record { number = n } };
}

impl Addr22 {
    /// The target of this number; None exactly where the number is past the range.
    pub fn new(number: u32) -> Option<Addr22>
        ensures { SomeIff result (FitsAddr22 number) number }
    {
        if number < 0x40_0000 {
            Some(Addr22 { number })
        } else {
            None
        }
    }

    /// The target that the low 22 bits of a word name.
    pub fn low(word: u32) -> Addr22
        ensures { result ≡ word % 2 ^ 22 }
    {
        Addr22 {
            number: word % 0x40_0000,
        }
    }

    /// Its number.
    pub fn number(self) -> u32
        ensures value { result ≡ self }
        ensures range { FitsAddr22 result }
    {
        self.number
    }
}

/// The offset of a branch, in words, signed: -2^21 to 2^21 - 1. It counts from the first word of the
/// branch's own bundle.
#[derive(Clone, Copy, Debug, PartialEq, Eq)]
pub struct Off22 {
    number: i32,
}

impl Model for Off22 {
    ghost Value = { ℤ };

    ghost view = { λ f. f.number };

    ghost invariant = { λ f. FitsOff22 f.number };

    ghost inverse = { λ n. record { number = n } };
}

impl Off22 {
    /// The offset of this number; None exactly where the number is past the range.
    pub fn new(number: i32) -> Option<Off22>
        ensures { SomeIff result (FitsOff22 number) number }
    {
        if number >= -0x20_0000 && number < 0x20_0000 {
            Some(Off22 { number })
        } else {
            None
        }
    }

    /// The offset that the low 22 bits of a word name, in two's complement.
    pub fn low(word: u32) -> Off22
        ensures { result ≡ offset_of (word % 2 ^ 22) }
    {
        let bits = word % 0x40_0000;
        if bits < 0x20_0000 {
            Off22 {
                number: bits as i32,
            }
        } else {
            Off22 {
                number: bits as i32 - 0x40_0000,
            }
        }
    }

    /// Its number.
    pub fn number(self) -> i32
        ensures value { result ≡ self }
        ensures range { FitsOff22 result }
    {
        self.number
    }

    /// Its 22 bits in two's complement.
    pub fn bits(self) -> u32
        ensures value { result ≡ offset_bits self }
        ensures range { result < 2 ^ 22 }
    {
        if self.number >= 0 {
            self.number as u32
        } else {
            (self.number + 0x40_0000) as u32
        }
    }
}
