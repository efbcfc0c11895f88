ghost use Rattle.std.specs.Prelude.{◌≡◌, ◌<◌, slice_get};
ghost use Rattle.patmos_instr.specs.Numbers.{IsNumbered};
ghost use Rattle.patmos_instr.specs.Specials.{special_number, specials, writable_special_number, writable_specials};

/// A special register.
#[derive(Clone, Copy, Debug, PartialEq, Eq)]
pub enum Special {
    /// The predicates, as eight bits.
    S0,
    /// The low word of a product.
    Sl,
    /// The high word of a product.
    Sh,
    /// The base to return to, as the place of a word of the code.
    Srb,
    /// The offset to return to, in words.
    Sro,
    /// The top of the stack, as a byte address of private memory.
    St,
    /// The end of what the stack cache holds of the stack, as a byte address.
    Ss,
}

impl Special {
    /// Its number in an instruction's word.
    pub fn number(self) -> u32
        ensures value { result ≡ special_number self }
        ensures range { result < 7 }
    {
        match self {
            Special::S0 => 0,
            Special::Sl => 1,
            Special::Sh => 2,
            Special::Srb => 3,
            Special::Sro => 4,
            Special::St => 5,
            Special::Ss => 6,
        }
    }

    /// The special register of this number; None exactly where there is none.
    pub fn of_number(number: u32) -> Option<Special>
        ensures exact { IsNumbered special_number number result }
        ensures listed { result ≡ slice_get specials number }
    {
        match number {
            0 => Some(Special::S0),
            1 => Some(Special::Sl),
            2 => Some(Special::Sh),
            3 => Some(Special::Srb),
            4 => Some(Special::Sro),
            5 => Some(Special::St),
            6 => Some(Special::Ss),
            _ => None,
        }
    }
}

/// A special register that an instruction can write.
#[derive(Clone, Copy, Debug, PartialEq, Eq)]
pub enum WritableSpecial {
    /// The predicates, as eight bits.
    S0,
    /// The low word of a product.
    Sl,
    /// The high word of a product.
    Sh,
    /// The base to return to, as the place of a word of the code.
    Srb,
    /// The offset to return to, in words.
    Sro,
}

impl WritableSpecial {
    /// Its number in an instruction's word.
    pub fn number(self) -> u32
        ensures value { result ≡ writable_special_number self }
        ensures range { result < 5 }
    {
        match self {
            WritableSpecial::S0 => 0,
            WritableSpecial::Sl => 1,
            WritableSpecial::Sh => 2,
            WritableSpecial::Srb => 3,
            WritableSpecial::Sro => 4,
        }
    }

    /// The special register of this number; None exactly where there is none.
    pub fn of_number(number: u32) -> Option<WritableSpecial>
        ensures exact { IsNumbered writable_special_number number result }
        ensures listed { result ≡ slice_get writable_specials number }
    {
        match number {
            0 => Some(WritableSpecial::S0),
            1 => Some(WritableSpecial::Sl),
            2 => Some(WritableSpecial::Sh),
            3 => Some(WritableSpecial::Srb),
            4 => Some(WritableSpecial::Sro),
            _ => None,
        }
    }
}
