//! The program of a C text.
ghost use Rattle.std.specs.Prelude.{◌≡◌, ◌<◌, ◌^◌, length, IfOk};
ghost use Rattle.c_lex.specs.Texts.{lexed};
ghost use Rattle.c_tree.specs.Plain.{plain};
ghost use Rattle.c_tree.specs.Valid.{fault_of};
ghost use Rattle.c_compile.specs.Answered.{Gives};
ghost use Rattle.c_compile.specs.Texts as specs;

use crate::faults::CompileFault;
use c_check::check;
use c_lex::lex;
use c_parse::parse;
use c_tree::{Checked, Token, Unit};
use slot_arbiter::Place;
use std::alloc::Global;
use tc_word::List;

/// The program of a C text that is valid on a core's place, or the first refusal: that it has no tokens, that these are
/// no program, or the least fault of the program. Want of memory is reported of a text of 2^32 bytes or more too.
pub fn program_of(alloc: Global, source: &str, place: &Place) -> Result<Checked, CompileFault>
    ensures reported { Gives (λ c. plain c.unit) result
        (specs.program_on place.now.cores place.now.core (lexed source.now)) }
    ensures place { IfOk result (λ c. c.place ≡ place.now) }
{
    if source.len() > u32::MAX as usize {
        return Err(CompileFault::Memory);
    }
    let tokens = lex(alloc, source)?;
    parsed(alloc, &tokens, place)
}

// tokens are refused where they are no program
fn parsed(alloc: Global, tokens: &List<Token>, place: &Place) -> Result<Checked, CompileFault>
    requires few { length tokens.now < 2 ^ 32 }
    ensures reported { Gives (λ c. plain c.unit) result (specs.parsed place.now.cores place.now.core tokens.now) }
    ensures place { IfOk result (λ c. c.place ≡ place.now) }
{
    let program = parse(alloc, tokens)?;
    checked(alloc, program, place)
}

// a program is refused for its least fault
fn checked(alloc: Global, program: Unit, place: &Place) -> Result<Checked, CompileFault>
    ensures reported { Gives (λ c. plain c.unit) result
        (specs.checked (plain program) (fault_of (plain program) place.now.cores place.now.core)) }
    ensures place { IfOk result (λ c. c.place ≡ place.now) }
{
    Ok(check(alloc, program, place)?)
}
