ghost use Rattle.std.specs.Prelude.{◌≡◌};
ghost use Rattle.c_lex.specs.declared.faults.LexFault.TheVariants.{Memory};

use std::alloc::{AllocError, AllocFailed};

/// Why a text has no tokens. Places are counted in bytes from 0.
#[derive(Clone, Copy, Debug, PartialEq, Eq)]
pub enum LexFault {
    /// No token begins with this byte, or what begins there is cut off or of a wrong form.
    Char { at: u32 },
    /// The number that begins there is above 2^32 - 1.
    Wide { at: u32 },
    /// Memory was refused.
    Memory,
}

impl From<AllocError> for LexFault {
    ghost from_gives = { λ _ e. e ≡ Memory };

    fn from(_refused: AllocError) -> LexFault {
        LexFault::Memory
    }
}

impl<T: Drop> From<AllocFailed<T>> for LexFault {
    ghost from_gives = { λ _ e. e ≡ Memory };

    fn from(_refused: AllocFailed<T>) -> LexFault {
        LexFault::Memory
    }
}
