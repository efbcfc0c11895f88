ghost use Rattle.std.specs.Prelude.{◌≡◌, ◌<◌, ◌^◌, length, None, IfOk, IfErr};
ghost use Rattle.c_tree.specs.Tokens.{tokens_of};
ghost use Rattle.c_tree.specs.Fits.{Fits};
ghost use Rattle.c_parse.specs.Answers.{NoProgram, PlaceOf, PlaceRead, place_of};

use crate::faults::{ParseFault, Stop};
use crate::units::items;
use c_tree::{Token, Unit};
use std::alloc::Global;
use tc_word::List;

/// A tree that fits and is written as these tokens, or a refusal where there is none, with the place of the first token
/// that no program has there.
#[tactic(auto, using(crate::proofs::Whole::fitting, crate::proofs::Whole::no_program, crate::proofs::Came::place))]
pub fn parse(alloc: Global, tokens: &List<Token>) -> Result<Unit, ParseFault>
    requires { length tokens.now < 2 ^ 32 }
    ensures tree { IfOk result (λ unit. tokens_of unit ≡ tokens.now) }
    ensures fits { IfOk result Fits }
    ensures syntax { IfErr result (NoProgram tokens.now) }
    ensures place { IfErr result (PlaceOf tokens.now) }
    ensures read { IfOk result (λ unit. place_of tokens.now ≡ None) }
    ensures stopped { IfErr result (PlaceRead tokens.now) }
{
    let tokens = tokens.as_slice();
    match items(alloc, tokens) {
        Ok(items) => Ok(Unit { items }),
        Err(Stop::Memory) => Err(ParseFault::Memory),
        Err(Stop::Syntax { left }) => {
            let at = tokens.len() - left;
            Err(ParseFault::Syntax { at: at as u32 })
        }
    }
}
