ghost use Rattle.std.specs.Prelude.{◌≡◌};
ghost use Rattle.patmos_asm.specs.declared.faults.AsmError.TheVariants.{Memory};

use patmos_forms::AsmKind;
use tc_word::OutOfMemory;

/// The fault of a text: that of its first faulty statement, and that statement's line, from 1.
#[derive(Clone, Copy, Debug, PartialEq, Eq)]
pub struct AsmFault {
    pub fault: AsmKind,
    pub line: u32,
}

/// Why a text was not assembled.
#[derive(Clone, Copy, Debug, PartialEq, Eq)]
pub enum AsmError {
    /// The text has no code.
    Fault(AsmFault),
    /// Memory ran out.
    Memory,
}

impl From<OutOfMemory> for AsmError {
    ghost from_gives = { λ _ e. e ≡ Memory };

    fn from(_refused: OutOfMemory) -> AsmError {
        AsmError::Memory
    }
}
