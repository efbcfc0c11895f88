ghost use Rattle.std.specs.Prelude.{◌≡◌, ◌<◌, slice_get};
ghost use Rattle.patmos_instr.specs.Numbers.{IsNumbered};
ghost use Rattle.patmos_instr.specs.Memories.{mem_number, mems, mem_of, width_number, widths, store_width_number, store_widths};

/// The memory that a load or a store uses.
#[derive(Clone, Copy, Debug, PartialEq, Eq)]
pub enum Mem {
    /// The stack cache.
    S,
    /// The local memories.
    L,
    /// Main memory, through the data cache.
    C,
    /// Main memory, past the data cache.
    M,
}

impl Mem {
    /// The memory that the low two bits of a word name.
    pub fn low(word: u32) -> Mem
        ensures { result ≡ mem_of word }
    {
        match word % 4 {
            0 => Mem::S,
            1 => Mem::L,
            2 => Mem::C,
            _ => Mem::M,
        }
    }

    /// Its number in an instruction's word.
    pub fn number(self) -> u32
        ensures value { result ≡ mem_number self }
        ensures range { result < 4 }
    {
        match self {
            Mem::S => 0,
            Mem::L => 1,
            Mem::C => 2,
            Mem::M => 3,
        }
    }

    /// The memory of this number; None exactly where there is none.
    pub fn of_number(number: u32) -> Option<Mem>
        ensures exact { IsNumbered mem_number number result }
        ensures listed { result ≡ slice_get mems number }
    {
        match number {
            0 => Some(Mem::S),
            1 => Some(Mem::L),
            2 => Some(Mem::C),
            3 => Some(Mem::M),
            _ => None,
        }
    }
}

/// How wide a load is, and how it fills the register.
#[derive(Clone, Copy, Debug, PartialEq, Eq)]
pub enum Width {
    /// Four bytes.
    Word,
    /// Two bytes, with their sign.
    Half,
    /// One byte, with its sign.
    Byte,
    /// Two bytes, zeros before them.
    HalfUnsigned,
    /// One byte, zeros before it.
    ByteUnsigned,
}

impl Width {
    /// Its number in an instruction's word.
    pub fn number(self) -> u32
        ensures value { result ≡ width_number self }
        ensures range { result < 5 }
    {
        match self {
            Width::Word => 0,
            Width::Half => 1,
            Width::Byte => 2,
            Width::HalfUnsigned => 3,
            Width::ByteUnsigned => 4,
        }
    }

    /// The width of this number; None exactly where there is none.
    pub fn of_number(number: u32) -> Option<Width>
        ensures exact { IsNumbered width_number number result }
        ensures listed { result ≡ slice_get widths number }
    {
        match number {
            0 => Some(Width::Word),
            1 => Some(Width::Half),
            2 => Some(Width::Byte),
            3 => Some(Width::HalfUnsigned),
            4 => Some(Width::ByteUnsigned),
            _ => None,
        }
    }
}

/// How wide a store is.
#[derive(Clone, Copy, Debug, PartialEq, Eq)]
pub enum StoreWidth {
    /// Four bytes.
    Word,
    /// Two bytes.
    Half,
    /// One byte.
    Byte,
}

impl StoreWidth {
    /// Its number in an instruction's word.
    pub fn number(self) -> u32
        ensures value { result ≡ store_width_number self }
        ensures range { result < 3 }
    {
        match self {
            StoreWidth::Word => 0,
            StoreWidth::Half => 1,
            StoreWidth::Byte => 2,
        }
    }

    /// The width of this number; None exactly where there is none.
    pub fn of_number(number: u32) -> Option<StoreWidth>
        ensures exact { IsNumbered store_width_number number result }
        ensures listed { result ≡ slice_get store_widths number }
    {
        match number {
            0 => Some(StoreWidth::Word),
            1 => Some(StoreWidth::Half),
            2 => Some(StoreWidth::Byte),
            _ => None,
        }
    }
}
