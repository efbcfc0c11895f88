ghost use Rattle.std.specs.Prelude.{◌≡◌, ◌+◌, ◌-◌, ◌<◌, ◌≤◌, [], ◌∷◌, ◌++◌, length, Some, None, IfOk, IfErr};
ghost use Rattle.c_tree.specs.Tokens.{const_tokens, consts_tokens, initials_tokens, shape_tokens, ended, one};
ghost use Rattle.c_tree.specs.declared.tokens.Sign.TheVariants as sign;
ghost use Rattle.c_parse.specs.Expected.{Only, Number, Variable, Elements, Constant, MoreConstants};
ghost use Rattle.c_parse.specs.Readers.{Passes, PassesTo, Refuses};

use crate::ahead::{Read, after, bracket, number, number_at, opened, sign, stop};
use c_tree::{Const, Length, Sign, Token};
use std::alloc::Global;
use tc_word::List;

/// What is after the name of a global variable or array: its length, if it is an array, and its first values.
pub type Shape = (Option<Length>, List<Const>);

// a constant with its sign
#[tactic(auto, using(crate::proofs::Starts::constant_starts, crate::proofs::Steps::number_steps))]
fn constant(depth: u32, tokens: &[Token]) -> Read<'_, Const>
    ensures written { IfOk result (λ r. tokens.now ≡ const_tokens r.0 ++ r.1.now) }
    ensures passes { IfOk result (λ r. Passes depth (Constant ∷ []) tokens.now [] r.1.now) }
    ensures refuses { IfErr result (Refuses depth (Constant ∷ []) tokens.now) }
    ensures shorter { IfOk result (λ r. length r.1.now < length tokens.now) }
{
    if let Some((value, unsigned, rest)) = number_at(tokens) {
        let constant = Const {
            negative: false,
            value,
            unsigned,
        };
        return Ok((constant, rest));
    }
    let Some(behind) = after(Sign::Minus, tokens) else {
        return Err(stop(tokens));
    };
    let ((value, unsigned), rest) = number(behind)?;
    let constant = Const {
        negative: true,
        value,
        unsigned,
    };
    Ok((constant, rest))
}

// the first values of an array, after their brace, and the closing one
#[tactic(auto, using(crate::proofs::Starts::constants_starts))]
fn constants(alloc: Global, depth: u32, tokens: &[Token]) -> Read<'_, List<Const>>
    ensures some { IfOk result (λ r. 1 ≤ length r.0) }
    ensures written { IfOk result (λ r. tokens.now ≡ consts_tokens r.0 ++ one sign.CloseBrace ∷ r.1.now) }
    ensures passes { IfOk result (λ r. PassesTo depth (Constant ∷ MoreConstants
        ∷ []) tokens.now (depth - 1) [] r.1.now) }
    ensures refuses { IfErr result (Refuses depth (Constant ∷ MoreConstants ∷ []) tokens.now) }
    ensures shorter { IfOk result (λ r. length r.1.now < length tokens.now) }
{
    let mut constants = Vec::new(alloc);
    let (first, mut rest) = constant(depth, tokens)?;
    constants.push(first)?;
    while let Some(behind) = after(Sign::Comma, rest) {
        let (further, next) = constant(depth, behind)?;
        constants.push(further)?;
        rest = next;
    }
    let rest = sign(Sign::CloseBrace, rest)?;
    Ok((List::of(constants), rest))
}

/// What is after a global's name, up to its semicolon.
#[tactic(auto, using(crate::proofs::Starts::shape_starts))]
pub fn shape(alloc: Global, depth: u32, tokens: &[Token]) -> Read<'_, Shape>
    ensures written { IfOk result (λ r. tokens.now ≡ ended (shape_tokens r.0.0 r.0.1) ++ r.1.now) }
    ensures passes { IfOk result (λ r. Passes depth (Variable ∷ []) tokens.now [] r.1.now) }
    ensures refuses { IfErr result (Refuses depth (Variable ∷ []) tokens.now) }
    ensures shorter { IfOk result (λ r. length r.1.now < length tokens.now) }
    ensures one_value { IfOk result (λ r. r.0.0 ≡ None → length r.0.1 ≤ 1) }
{
    if let Some(behind) = opened(Sign::OpenBracket, depth, tokens) {
        return array(alloc, depth, behind);
    }
    if let Some(rest) = after(Sign::Semicolon, tokens) {
        return Ok(((None, List::of(Vec::new(alloc))), rest));
    }
    let Some(behind) = after(Sign::Assign, tokens) else {
        return Err(stop(tokens));
    };
    first_value(alloc, depth, behind)
}

// the length of an array, after its bracket, and its first values
#[tactic(auto, using(crate::proofs::Steps::sign_steps, crate::proofs::Steps::number_steps))]
fn array(alloc: Global, depth: u32, tokens: &[Token]) -> Read<'_, Shape>
    requires { depth < 64 }
    ensures written { IfOk result (λ r. one sign.OpenBracket ∷ tokens.now
        ≡ ended (shape_tokens r.0.0 r.0.1) ++ r.1.now) }
    ensures passes { IfOk result (λ r. PassesTo (depth + 1) (Number ∷ Only sign.CloseBracket ∷ Elements
        ∷ []) tokens.now depth [] r.1.now) }
    ensures refuses { IfErr result (Refuses (depth + 1) (Number ∷ Only sign.CloseBracket ∷ Elements ∷ []) tokens.now) }
    ensures shorter { IfOk result (λ r. length r.1.now < length tokens.now) }
    ensures one_value { IfOk result (λ r. r.0.0 ≡ None → length r.0.1 ≤ 1) }
{
    let ((value, unsigned), behind) = number(tokens)?;
    let behind = sign(Sign::CloseBracket, behind)?;
    let (initial, rest) = elements(alloc, depth, behind)?;
    Ok(((Some(Length { value, unsigned }), initial), rest))
}

// the first value of a variable, after its sign
#[tactic(auto, using(crate::proofs::Steps::sign_read, crate::proofs::Steps::no_sign))]
fn first_value(alloc: Global, depth: u32, tokens: &[Token]) -> Read<'_, Shape>
    ensures written { IfOk result (λ r. one sign.Assign ∷ tokens.now ≡ ended (shape_tokens r.0.0 r.0.1) ++ r.1.now) }
    ensures passes { IfOk result (λ r. Passes depth (Constant ∷ Only sign.Semicolon ∷ []) tokens.now [] r.1.now) }
    ensures refuses { IfErr result (Refuses depth (Constant ∷ Only sign.Semicolon ∷ []) tokens.now) }
    ensures shorter { IfOk result (λ r. length r.1.now < length tokens.now) }
    ensures one_value { IfOk result (λ r. length r.0.1 ≤ 1) }
{
    let (constant, behind) = constant(depth, tokens)?;
    let rest = sign(Sign::Semicolon, behind)?;
    let mut initial = Vec::new(alloc);
    initial.push(constant)?;
    Ok(((None, List::of(initial)), rest))
}

// the first values of an array, up to its semicolon
#[tactic(auto, using(crate::proofs::Starts::elements_starts))]
fn elements(alloc: Global, depth: u32, tokens: &[Token]) -> Read<'_, List<Const>>
    ensures written { IfOk result (λ r. tokens.now ≡ ended (initials_tokens r.0) ++ r.1.now) }
    ensures passes { IfOk result (λ r. Passes depth (Elements ∷ []) tokens.now [] r.1.now) }
    ensures refuses { IfErr result (Refuses depth (Elements ∷ []) tokens.now) }
    ensures shorter { IfOk result (λ r. length r.1.now < length tokens.now) }
{
    if let Some(rest) = after(Sign::Semicolon, tokens) {
        return Ok((List::of(Vec::new(alloc)), rest));
    }
    let Some(behind) = after(Sign::Assign, tokens) else {
        return Err(stop(tokens));
    };
    filled(alloc, depth, behind)
}

// the first values of an array in braces, and the semicolon after them
#[tactic(auto, using(crate::proofs::Steps::sign_steps, crate::proofs::Steps::bracket_steps, crate::proofs::Declared::initials_some))]
fn filled(alloc: Global, depth: u32, tokens: &[Token]) -> Read<'_, List<Const>>
    ensures written { IfOk result (λ r. one sign.Assign ∷ tokens.now ≡ ended (initials_tokens r.0) ++ r.1.now) }
    ensures passes { IfOk result (λ r. Passes depth (Only sign.OpenBrace ∷ Constant ∷ MoreConstants
        ∷ Only sign.Semicolon ∷ []) tokens.now [] r.1.now) }
    ensures refuses { IfErr result (Refuses depth (Only sign.OpenBrace ∷ Constant ∷ MoreConstants
        ∷ Only sign.Semicolon ∷ []) tokens.now) }
    ensures shorter { IfOk result (λ r. length r.1.now < length tokens.now) }
{
    let behind = bracket(Sign::OpenBrace, depth, tokens)?;
    let (initial, behind) = constants(alloc, depth + 1, behind)?;
    let rest = sign(Sign::Semicolon, behind)?;
    Ok((initial, rest))
}
