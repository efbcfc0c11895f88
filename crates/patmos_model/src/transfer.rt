use patmos_instr::{Reg, StoreWidth, Width};

/// What a core does once its words have moved. Addresses are in bytes.
#[derive(Clone, Copy, Debug, PartialEq, Eq)]
pub enum Then {
    /// Nothing: the words of a method, a spill or a fill.
    Nothing,
    /// A load's value comes: a word of main memory, past the data cache.
    Load {
        rd: Reg,
        width: Width,
        address: u32,
    },
    /// The line comes into the data cache, and with it a load's value.
    Line {
        rd: Reg,
        width: Width,
        address: u32,
    },
    /// A value is stored; where the store is cached, the data cache's line is changed too.
    Store {
        cached: bool,
        width: StoreWidth,
        address: u32,
        value: u32,
    },
}

/// What a core still has to move between main memory and its caches or registers. Its slots move four
/// words each, and the last one the rest.
#[derive(Clone, Copy, Debug, PartialEq, Eq)]
pub struct Transfer {
    /// Whether the words go to main memory.
    pub write: bool,
    /// How many words are left; with none, there is nothing to move.
    pub words: u32,
    pub then: Then,
}

impl Transfer {
    ghost use Rattle.std.specs.Prelude.{◌≡◌};
    ghost use Rattle.patmos_model.specs.Transfers.{reads, writes};

    /// Nothing is to be moved.
    pub const NOTHING: Transfer = Transfer {
        write: false,
        words: 0,
        then: Then::Nothing,
    };

    /// So many words are to be read.
    pub fn read(words: u32, then: Then) -> Transfer
        ensures { result ≡ reads words then }
    {
        Transfer {
            write: false,
            words,
            then,
        }
    }

    /// So many words are to be written.
    pub fn write(words: u32, then: Then) -> Transfer
        ensures { result ≡ writes words then }
    {
        Transfer {
            write: true,
            words,
            then,
        }
    }
}
