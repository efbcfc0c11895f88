ghost use Rattle.std.specs.Prelude.{◌≡◌};
ghost use Rattle.patmos_model.specs.Trap.{trap_number};

/// Why a core stopped before its task's end.
#[derive(Clone, Copy, Debug, PartialEq, Eq)]
pub enum Trap {
    /// A load or a store of an address that no memory has.
    Access,
    /// A load or a store whose address is no multiple of its width.
    Align,
    /// Words that stand for no bundle.
    Decode,
    /// A bundle, or a flow's goal, that does not lie inside a function; or a flow in a delay slot.
    Flow,
    /// A word of the stack that is not held, or a stack instruction without room.
    Stack,
    /// A use of the network's registers that they do not have.
    Interface,
}

impl Trap {
    /// Its number in a report, 1 to 6.
    pub fn number(self) -> u32
        ensures { result ≡ trap_number self }
    {
        match self {
            Trap::Access => 1,
            Trap::Align => 2,
            Trap::Decode => 3,
            Trap::Flow => 4,
            Trap::Stack => 5,
            Trap::Interface => 6,
        }
    }
}
