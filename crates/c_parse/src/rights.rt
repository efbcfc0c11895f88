ghost use Rattle.std.specs.Prelude.{◌≡◌, ◌-◌, ◌<◌, [], ◌∷◌, ◌++◌, length, IfOk, IfErr};
ghost use Rattle.std.specs.List.{AllByRecursion as Each};
ghost use Rattle.c_tree.specs.Tokens.{args_tokens, right_tokens, one};
ghost use Rattle.c_tree.specs.Fits.{ExprFits, RightFits};
ghost use Rattle.c_tree.specs.declared.tokens.Sign.TheVariants as sign;
ghost use Rattle.c_parse.specs.Expected.{Operand, Tail, Right as right_side, Arguments};
ghost use Rattle.c_parse.specs.Readers.{Passes, Refuses, PassesTo};

use crate::ahead::{Read, after, copy, name_at, opened, sign};
use crate::expressions::expression;
use c_tree::{Expr, Right, Sign, Token};
use std::alloc::Global;
use tc_word::List;

/// The arguments of a call, after its parenthesis, and the closing one.
#[tactic(auto, using(crate::proofs::Starts::arguments_starts))]
pub fn arguments(alloc: Global, depth: u32, tokens: &[Token]) -> Read<'_, List<Expr>>
    ensures written { IfOk result (λ r. tokens.now ≡ args_tokens r.0 ++ one sign.CloseParenthesis ∷ r.1.now) }
    ensures fits { IfOk result (λ r. Each ExprFits r.0) }
    ensures passes { IfOk result (λ r. PassesTo depth (Arguments ∷ []) tokens.now (depth - 1) [] r.1.now) }
    ensures refuses { IfErr result (Refuses depth (Arguments ∷ []) tokens.now) }
    ensures shorter { IfOk result (λ r. length r.1.now < length tokens.now) }
{
    let mut args = Vec::new(alloc);
    if let Some(rest) = after(Sign::CloseParenthesis, tokens) {
        return Ok((List::of(args), rest));
    }
    let (first, mut rest) = expression(alloc, depth, tokens)?;
    args.push(first)?;
    while let Some(behind) = after(Sign::Comma, rest) {
        let (arg, next) = expression(alloc, depth, behind)?;
        args.push(arg)?;
        rest = next;
    }
    let rest = sign(Sign::CloseParenthesis, rest)?;
    Ok((List::of(args), rest))
}

/// What is assigned.
#[tactic(auto, using(crate::proofs::Starts::right_starts, crate::proofs::Steps::operand_name))]
pub fn right(alloc: Global, depth: u32, tokens: &[Token]) -> Read<'_, Right>
    ensures written { IfOk result (λ r. tokens.now ≡ right_tokens r.0 ++ r.1.now) }
    ensures fits { IfOk result (λ r. RightFits r.0) }
    ensures passes { IfOk result (λ r. Passes depth (right_side ∷ []) tokens.now [] r.1.now) }
    ensures refuses { IfErr result (Refuses depth (right_side ∷ []) tokens.now) }
    ensures shorter { IfOk result (λ r. length r.1.now < length tokens.now) }
{
    let Some((text, behind)) = name_at(tokens) else {
        return value(alloc, depth, tokens);
    };
    let Some(behind) = opened(Sign::OpenParenthesis, depth, behind) else {
        return value(alloc, depth, tokens);
    };
    let (args, rest) = arguments(alloc, depth + 1, behind)?;
    let name = copy(alloc, text)?;
    Ok((Right::Call { name, args }, rest))
}

// an expression as a right side
fn value(alloc: Global, depth: u32, tokens: &[Token]) -> Read<'_, Right>
    ensures written { IfOk result (λ r. tokens.now ≡ right_tokens r.0 ++ r.1.now) }
    ensures fits { IfOk result (λ r. RightFits r.0) }
    ensures passes { IfOk result (λ r. Passes depth (Operand ∷ Tail ∷ []) tokens.now [] r.1.now) }
    ensures refuses { IfErr result (Refuses depth (Operand ∷ Tail ∷ []) tokens.now) }
    ensures shorter { IfOk result (λ r. length r.1.now < length tokens.now) }
{
    let (of, rest) = expression(alloc, depth, tokens)?;
    Ok((Right::Value { of }, rest))
}
