//! Why a C text is no task of its core.
ghost use Rattle.std.specs.Prelude.{◌≡◌};
ghost use Rattle.c_compile.specs.declared.faults.CompileFault.TheVariants as fault;

use c_check::CheckError;
use c_lex::LexFault;
use c_parse::ParseFault;
use cycle_bound::Long as PastBound;
use tc_word::OutOfMemory;

/// Why a C text is no task of its core. The fault inside one of the first three is never want of memory.
#[derive(Clone, Copy, Debug, PartialEq, Eq)]
pub enum CompileFault {
    /// It has no tokens from this byte on.
    Lex(LexFault),
    /// Its tokens are no program from this token on.
    Parse(ParseFault),
    /// It is a program that is not valid on its core: its least fault, and the token at which that is.
    Check(CheckError),
    /// Its bound is more than [`cycle_bound::MOST_BOUND`] cycles.
    Long,
    /// Want of memory, or a text of 2^32 bytes or more.
    Memory,
}

impl From<LexFault> for CompileFault {
    ghost use Rattle.c_compile.specs.Answered.{of_lex};

    ghost from_gives = { λ f e. e ≡ of_lex f };

    fn from(fault: LexFault) -> CompileFault {
        match fault {
            LexFault::Memory => CompileFault::Memory,
            _ => CompileFault::Lex(fault),
        }
    }
}

impl From<ParseFault> for CompileFault {
    ghost use Rattle.c_compile.specs.Answered.{of_parse};

    ghost from_gives = { λ f e. e ≡ of_parse f };

    fn from(fault: ParseFault) -> CompileFault {
        match fault {
            ParseFault::Memory => CompileFault::Memory,
            ParseFault::Syntax { .. } => CompileFault::Parse(fault),
        }
    }
}

impl From<CheckError> for CompileFault {
    ghost use Rattle.c_compile.specs.Answered.{of_check};

    ghost from_gives = { λ f e. e ≡ of_check f };

    fn from(fault: CheckError) -> CompileFault {
        match fault {
            CheckError::Memory => CompileFault::Memory,
            CheckError::Fault { .. } => CompileFault::Check(fault),
        }
    }
}

impl From<PastBound> for CompileFault {
    ghost from_gives = { λ _ e. e ≡ fault.Long };

    fn from(_past: PastBound) -> CompileFault {
        CompileFault::Long
    }
}

impl From<OutOfMemory> for CompileFault {
    ghost from_gives = { λ _ e. e ≡ fault.Memory };

    fn from(_refused: OutOfMemory) -> CompileFault {
        CompileFault::Memory
    }
}
