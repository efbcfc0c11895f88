ghost use Rattle.std.specs.Prelude.{◌≡◌, ◌+◌, ◌<◌, ◌≤◌, [], ◌∷◌, ◌++◌, length, true, false, IfOk, IfErr};
ghost use Rattle.c_tree.specs.Tokens.{expr_tokens, one};
ghost use Rattle.c_tree.specs.Fits.{ExprFits, rank, open_after};
ghost use Rattle.c_tree.specs.declared.tokens.Sign.TheVariants as sign;
ghost use Rattle.c_tree.specs.declared.tokens.Token.TheVariants as token;
ghost use Rattle.c_parse.specs.Expected.{Operand, Tail, Index, Only};
ghost use Rattle.c_parse.specs.Readers.{Passes, PassesTo, Refuses, begins, level_ahead};
ghost use Rattle.c_parse.specs.Sorts.{is_prefix, opens_none};

use crate::ahead::{Read, after, copy, name_at, number_at, opened, sign, stop};
use crate::operators::{operator_at, prefix_at};
use c_tree::{Expr, Sign, Step, Token};
use std::alloc::Global;
use tc_word::{List, Text};

/// An expression, with so many brackets open.
#[cycle(expression)]
#[tactic(auto, using(crate::proofs::Steps::no_tail))]
pub fn expression(alloc: Global, depth: u32, tokens: &[Token]) -> Read<'_, Expr>
    ensures written { IfOk result (λ r. tokens.now ≡ expr_tokens r.0 ++ r.1.now) }
    ensures fits { IfOk result (λ r. ExprFits r.0) }
    ensures passes { IfOk result (λ r. Passes depth (Operand ∷ Tail ∷ []) tokens.now [] r.1.now) }
    ensures refuses { IfErr result (Refuses depth (Operand ∷ Tail ∷ []) tokens.now) }
    ensures shorter { IfOk result (λ r. length r.1.now < length tokens.now) }
{
    chain(alloc, depth, 1, tokens)
}

/// An expression, and this sign after it.
#[tactic(auto, using(crate::proofs::Steps::sign_read, crate::proofs::Steps::no_sign))]
pub fn up_to(alloc: Global, depth: u32, end: Sign, tokens: &[Token]) -> Read<'_, Expr>
    requires { opens_none end ≡ true }
    ensures written { IfOk result (λ r. tokens.now ≡ expr_tokens r.0 ++ one end ∷ r.1.now) }
    ensures fits { IfOk result (λ r. ExprFits r.0) }
    ensures passes { IfOk result (λ r. PassesTo depth (Operand ∷ Tail ∷ Only end
        ∷ []) tokens.now (open_after (one end) depth) [] r.1.now) }
    ensures refuses { IfErr result (Refuses depth (Operand ∷ Tail ∷ Only end ∷ []) tokens.now) }
    ensures shorter { IfOk result (λ r. length r.1.now < length tokens.now) }
{
    let (of, behind) = expression(alloc, depth, tokens)?;
    let rest = sign(end, behind)?;
    Ok((of, rest))
}

// operands with operators of this level between them, or one operand of a greater level
#[cycle(expression)]
#[tactic(auto, using(crate::proofs::Steps::tail_operator, crate::proofs::Steps::level_small, c_tree::proofs::Chains::tokens_of_steps_push, c_tree::proofs::Chains::steps_fit_push, c_tree::proofs::Chains::chain_tokens, c_tree::proofs::Chains::chain_fits))]
fn chain(alloc: Global, depth: u32, level: u8, tokens: &[Token]) -> Read<'_, Expr>
    requires low { 1 ≤ level }
    requires high { level ≤ 11 }
    ensures written { IfOk result (λ r. tokens.now ≡ expr_tokens r.0 ++ r.1.now) }
    ensures fits { IfOk result (λ r. ExprFits r.0) }
    ensures above { IfOk result (λ r. level ≤ rank r.0) }
    ensures ends { IfOk result (λ r. level_ahead r.1.now < level) }
    ensures passes { IfOk result (λ r. Passes depth (Operand ∷ Tail ∷ []) tokens.now (Tail ∷ []) r.1.now) }
    ensures refuses { IfErr result (Refuses depth (Operand ∷ Tail ∷ []) tokens.now) }
    ensures shorter { IfOk result (λ r. length r.1.now < length tokens.now) }
{
    if level > 10 {
        return operand(alloc, depth, tokens);
    }
    let (first, mut rest) = chain(alloc, depth, level + 1, tokens)?;
    let mut steps = Vec::new(alloc);
    while let Some((op, behind)) = operator_at(level, rest) {
        let (operand, next) = chain(alloc, depth, level + 1, behind)?;
        steps.push(Step { op, operand })?;
        rest = next;
    }
    if steps.is_empty() {
        return Ok((first, rest));
    }
    let first = Box::new(alloc, first)?;
    Ok((
        Expr::Chain {
            level,
            first,
            rest: List::of(steps),
        },
        rest,
    ))
}

// signs and a primary expression
#[cycle(expression)]
#[tactic(auto, using(crate::proofs::Steps::operand_prefix), unfolding(c_tree::specs::Tokens::expr_tokens, c_tree::specs::Fits::ExprFits))]
fn operand(alloc: Global, depth: u32, tokens: &[Token]) -> Read<'_, Expr>
    ensures written { IfOk result (λ r. tokens.now ≡ expr_tokens r.0 ++ r.1.now) }
    ensures fits { IfOk result (λ r. ExprFits r.0) }
    ensures above { IfOk result (λ r. 11 ≤ rank r.0) }
    ensures passes { IfOk result (λ r. Passes depth (Operand ∷ []) tokens.now [] r.1.now) }
    ensures refuses { IfErr result (Refuses depth (Operand ∷ []) tokens.now) }
    ensures shorter { IfOk result (λ r. length r.1.now < length tokens.now) }
{
    let mut ops = Vec::new(alloc);
    let mut rest = tokens;
    while let Some((op, behind)) = prefix_at(rest) {
        ops.push(op)?;
        rest = behind;
    }
    let (of, rest) = primary(alloc, depth, rest)?;
    if ops.is_empty() {
        return Ok((of, rest));
    }
    let of = Box::new(alloc, of)?;
    Ok((
        Expr::Unary {
            ops: List::of(ops),
            of,
        },
        rest,
    ))
}

// a number, a variable, an element of an array, or an expression in parentheses
#[cycle(expression)]
#[tactic(auto, using(crate::proofs::Steps::sign_steps, crate::proofs::Steps::primary_steps), unfolding(c_tree::specs::Tokens::expr_tokens, c_tree::specs::Fits::ExprFits))]
fn primary(alloc: Global, depth: u32, tokens: &[Token]) -> Read<'_, Expr>
    requires { begins is_prefix tokens.now ≡ false }
    ensures written { IfOk result (λ r. tokens.now ≡ expr_tokens r.0 ++ r.1.now) }
    ensures fits { IfOk result (λ r. ExprFits r.0) }
    ensures above { IfOk result (λ r. 12 ≤ rank r.0) }
    ensures passes { IfOk result (λ r. Passes depth (Operand ∷ []) tokens.now [] r.1.now) }
    ensures refuses { IfErr result (Refuses depth (Operand ∷ []) tokens.now) }
    ensures shorter { IfOk result (λ r. length r.1.now < length tokens.now) }
{
    if let Some((value, unsigned, rest)) = number_at(tokens) {
        return Ok((Expr::Number { value, unsigned }, rest));
    }
    if let Some((text, rest)) = name_at(tokens) {
        return variable(alloc, depth, text, rest);
    }
    let Some(behind) = opened(Sign::OpenParenthesis, depth, tokens) else {
        return Err(stop(tokens));
    };
    let (inner, behind) = expression(alloc, depth + 1, behind)?;
    let rest = sign(Sign::CloseParenthesis, behind)?;
    let inner = Box::new(alloc, inner)?;
    Ok((Expr::Paren { inner }, rest))
}

// a variable or an element of an array, after its name
#[cycle(expression)]
#[tactic(auto, using(crate::proofs::Steps::index_bracket, crate::proofs::Steps::no_index), unfolding(c_tree::specs::Tokens::expr_tokens, c_tree::specs::Fits::ExprFits))]
fn variable<'t>(alloc: Global, depth: u32, text: &Text, tokens: &'t [Token]) -> Read<'t, Expr>
    ensures written { IfOk result (λ r. token.Word text.now ∷ tokens.now ≡ expr_tokens r.0 ++ r.1.now) }
    ensures fits { IfOk result (λ r. ExprFits r.0) }
    ensures above { IfOk result (λ r. 12 ≤ rank r.0) }
    ensures passes { IfOk result (λ r. Passes depth (Index ∷ []) tokens.now [] r.1.now) }
    ensures refuses { IfErr result (Refuses depth (Index ∷ []) tokens.now) }
    ensures shorter { IfOk result (λ r. length r.1.now ≤ length tokens.now) }
{
    let Some(behind) = opened(Sign::OpenBracket, depth, tokens) else {
        let name = copy(alloc, text)?;
        return Ok((Expr::Name { name }, tokens));
    };
    let (index, rest) = index(alloc, depth, behind)?;
    let index = Box::new(alloc, index)?;
    let name = copy(alloc, text)?;
    Ok((Expr::Element { name, index }, rest))
}

/// The index of an element, after its bracket, and the closing one.
#[cycle(expression)]
#[tactic(auto, using(crate::proofs::Steps::sign_read, crate::proofs::Steps::no_sign))]
pub fn index(alloc: Global, depth: u32, tokens: &[Token]) -> Read<'_, Expr>
    requires { depth < 64 }
    ensures written { IfOk result (λ r. tokens.now ≡ expr_tokens r.0 ++ one sign.CloseBracket ∷ r.1.now) }
    ensures fits { IfOk result (λ r. ExprFits r.0) }
    ensures passes { IfOk result (λ r. PassesTo (depth + 1) (Operand ∷ Tail ∷ Only sign.CloseBracket
        ∷ []) tokens.now depth [] r.1.now) }
    ensures refuses { IfErr result (Refuses (depth + 1) (Operand ∷ Tail ∷ Only sign.CloseBracket ∷ []) tokens.now) }
    ensures shorter { IfOk result (λ r. length r.1.now < length tokens.now) }
{
    let (index, behind) = expression(alloc, depth + 1, tokens)?;
    let rest = sign(Sign::CloseBracket, behind)?;
    Ok((index, rest))
}
