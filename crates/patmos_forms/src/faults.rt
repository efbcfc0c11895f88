ghost use Rattle.std.specs.Prelude.{◌≡◌};
ghost use Rattle.patmos_forms.specs.Faults.{fault_number, least};
ghost use Rattle.patmos_forms.specs.declared.faults.Refused.TheVariants as no_memory;

use tc_word::OutOfMemory;

/// What is wrong with a statement. Of the faults of one statement the first of this list is
/// reported.
#[derive(Clone, Copy, Debug, PartialEq, Eq)]
pub enum AsmKind {
    /// It begins with nothing that begins a statement, or no mnemonic stands where one should.
    Mnemonic,
    /// What stands after the mnemonic has not its form.
    Operand,
    /// A number, a register or a predicate passes its field.
    Range,
    /// The two instructions in braces are no legal pair.
    Slot,
    /// The label is nowhere in the function, or the function is nowhere in the text.
    NoLabel,
    /// The label was set before in its function, or the function was begun before.
    LabelTwice,
    /// The function passes 4,096 words, or the image 32,768.
    TooLarge,
    /// No function was begun, or the text has no statement.
    NoFunction,
}

impl AsmKind {
    // its number in the order in which faults are reported
    fn number(self) -> u32
        ensures { result ≡ fault_number self }
    {
        match self {
            AsmKind::Mnemonic => 1,
            AsmKind::Operand => 2,
            AsmKind::Range => 3,
            AsmKind::Slot => 4,
            AsmKind::NoLabel => 5,
            AsmKind::LabelTwice => 6,
            AsmKind::TooLarge => 7,
            AsmKind::NoFunction => 8,
        }
    }

    /// The one of the two that is reported.
    pub fn least(self, other: AsmKind) -> AsmKind
        ensures { result ≡ least self other }
    {
        if other.number() < self.number() {
            other
        } else {
            self
        }
    }
}

/// Why a statement was not read: a fault, or want of memory.
#[derive(Clone, Copy)]
pub enum Refused {
    Fault(AsmKind),
    Memory,
}

impl From<OutOfMemory> for Refused {
    ghost from_gives = { λ _ e. e ≡ no_memory.Memory };

    fn from(_refused: OutOfMemory) -> Refused {
        Refused::Memory
    }
}

impl From<AsmKind> for Refused {
    ghost from_gives = { λ fault e. e ≡ no_memory.Fault fault };

    fn from(fault: AsmKind) -> Refused {
        Refused::Fault(fault)
    }
}
