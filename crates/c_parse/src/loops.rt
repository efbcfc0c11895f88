ghost use Rattle.std.specs.Prelude.{◌≡◌, ◌+◌, ◌<◌, ℕ, [], ◌∷◌, ◌++◌, length, true, false, IfOk, IfErr};
ghost use Rattle.c_tree.specs.Tokens.{expr_tokens, assigned_tokens, head_tokens, one, word};
ghost use Rattle.c_tree.specs.Fits.{ExprFits, HeadFits};
ghost use Rattle.c_tree.specs.declared.tokens.Keyword.TheVariants as keyword;
ghost use Rattle.c_tree.specs.declared.tokens.Sign.TheVariants as sign;
ghost use Rattle.c_parse.specs.Expected.{Statement, Loop, Condition, Block, Assigned, Test, Only};
ghost use Rattle.c_parse.specs.Readers.{Passes, PassesTo, Refuses, begins};
ghost use Rattle.c_parse.specs.Sorts.{is_keyword};

use crate::ahead::{Read, after_word, bracket, copy, name, sign, stop};
use crate::expressions::{expression, up_to};
use c_tree::{Expr, Head, Keyword, Sign, Token};
use std::alloc::Global;
use tc_word::Text;

/// An expression in parentheses.
#[tactic(auto, using(crate::proofs::Starts::condition_open, crate::proofs::Starts::no_condition))]
pub fn condition(alloc: Global, depth: u32, tokens: &[Token]) -> Read<'_, Expr>
    ensures written { IfOk result (λ r. tokens.now
        ≡ one sign.OpenParenthesis ∷ (expr_tokens r.0 ++ one sign.CloseParenthesis ∷ r.1.now)) }
    ensures fits { IfOk result (λ r. ExprFits r.0) }
    ensures passes { IfOk result (λ r. Passes depth (Condition ∷ []) tokens.now [] r.1.now) }
    ensures refuses { IfErr result (Refuses depth (Condition ∷ []) tokens.now) }
    ensures shorter { IfOk result (λ r. length r.1.now < length tokens.now) }
{
    let behind = bracket(Sign::OpenParenthesis, depth, tokens)?;
    up_to(alloc, depth + 1, Sign::CloseParenthesis, behind)
}

/// An assignment in the head of a `for`.
#[tactic(auto, using(crate::proofs::Starts::assigned_starts, crate::proofs::Steps::sign_steps))]
fn assigned(alloc: Global, depth: u32, tokens: &[Token]) -> Read<'_, (Text, Expr)>
    ensures written { IfOk result (λ r. tokens.now ≡ assigned_tokens r.0.0 (expr_tokens r.0.1) ++ r.1.now) }
    ensures fits { IfOk result (λ r. ExprFits r.0.1) }
    ensures passes { IfOk result (λ r. Passes depth (Assigned ∷ []) tokens.now [] r.1.now) }
    ensures refuses { IfErr result (Refuses depth (Assigned ∷ []) tokens.now) }
    ensures shorter { IfOk result (λ r. length r.1.now < length tokens.now) }
{
    let (text, behind) = name(tokens)?;
    let behind = sign(Sign::Assign, behind)?;
    let (of, rest) = expression(alloc, depth, behind)?;
    Ok(((copy(alloc, text)?, of), rest))
}

// the head of a `while`, after that word
fn while_head(alloc: Global, depth: u32, tokens: &[Token]) -> Read<'_, Head>
    ensures written { IfOk result (λ r. word keyword.While ∷ tokens.now ≡ head_tokens r.0 ++ r.1.now) }
    ensures fits { IfOk result (λ r. HeadFits r.0) }
    ensures passes { IfOk result (λ r. Passes depth (Condition ∷ []) tokens.now [] r.1.now) }
    ensures refuses { IfErr result (Refuses depth (Condition ∷ []) tokens.now) }
    ensures shorter { IfOk result (λ r. length r.1.now < length tokens.now) }
{
    let (condition, rest) = condition(alloc, depth, tokens)?;
    Ok((Head::While { condition }, rest))
}

// the condition of a `for`, between its semicolons
#[tactic(auto, using(crate::proofs::Starts::test_semicolon, crate::proofs::Starts::no_test))]
fn middle(alloc: Global, depth: u32, tokens: &[Token]) -> Read<'_, Expr>
    ensures written { IfOk result (λ r. tokens.now
        ≡ one sign.Semicolon ∷ (expr_tokens r.0 ++ one sign.Semicolon ∷ r.1.now)) }
    ensures fits { IfOk result (λ r. ExprFits r.0) }
    ensures passes { IfOk result (λ r. Passes depth (Test ∷ []) tokens.now [] r.1.now) }
    ensures refuses { IfErr result (Refuses depth (Test ∷ []) tokens.now) }
    ensures shorter { IfOk result (λ r. length r.1.now < length tokens.now) }
{
    let behind = sign(Sign::Semicolon, tokens)?;
    up_to(alloc, depth, Sign::Semicolon, behind)
}

// the head of a `for`, after that word
#[tactic(auto, using(crate::proofs::Steps::bracket_read, crate::proofs::Steps::no_bracket))]
fn for_head(alloc: Global, depth: u32, tokens: &[Token]) -> Read<'_, Head>
    ensures written { IfOk result (λ r. word keyword.For ∷ tokens.now ≡ head_tokens r.0 ++ r.1.now) }
    ensures fits { IfOk result (λ r. HeadFits r.0) }
    ensures passes { IfOk result (λ r. Passes depth (Only sign.OpenParenthesis ∷ Assigned ∷ Test ∷ Assigned
        ∷ Only sign.CloseParenthesis ∷ []) tokens.now [] r.1.now) }
    ensures refuses { IfErr result
        (Refuses depth (Only sign.OpenParenthesis ∷ Assigned ∷ Test ∷ Assigned ∷ Only sign.CloseParenthesis
        ∷ []) tokens.now) }
    ensures shorter { IfOk result (λ r. length r.1.now < length tokens.now) }
{
    let behind = bracket(Sign::OpenParenthesis, depth, tokens)?;
    for_clauses(alloc, depth, behind)
}

// the three clauses of a `for`, after the parenthesis, and the closing one
fn for_clauses(alloc: Global, depth: u32, tokens: &[Token]) -> Read<'_, Head>
    requires { depth < 64 }
    ensures written { IfOk result (λ r. word keyword.For ∷ one sign.OpenParenthesis ∷ tokens.now
        ≡ head_tokens r.0 ++ r.1.now) }
    ensures fits { IfOk result (λ r. HeadFits r.0) }
    ensures passes { IfOk result (λ r. PassesTo (depth + 1) (Assigned ∷ Test ∷ Assigned ∷ Only sign.CloseParenthesis
        ∷ []) tokens.now depth [] r.1.now) }
    ensures refuses { IfErr result
        (Refuses (depth + 1) (Assigned ∷ Test ∷ Assigned ∷ Only sign.CloseParenthesis ∷ []) tokens.now) }
    ensures shorter { IfOk result (λ r. length r.1.now < length tokens.now) }
{
    let ((first, from), behind) = assigned(alloc, depth + 1, tokens)?;
    let (condition, behind) = middle(alloc, depth + 1, behind)?;
    let ((step, to), rest) = last(alloc, depth, behind)?;
    Ok((
        Head::For {
            first,
            from,
            condition,
            step,
            to,
        },
        rest,
    ))
}

// the last clause of a `for`, and the closing parenthesis
#[tactic(auto, using(crate::proofs::Steps::sign_read, crate::proofs::Steps::no_sign))]
fn last(alloc: Global, depth: u32, tokens: &[Token]) -> Read<'_, (Text, Expr)>
    requires { depth < 64 }
    ensures written { IfOk result (λ r. tokens.now
        ≡ assigned_tokens r.0.0 (expr_tokens r.0.1) ++ one sign.CloseParenthesis ∷ r.1.now) }
    ensures fits { IfOk result (λ r. ExprFits r.0.1) }
    ensures passes { IfOk result (λ r. PassesTo (depth + 1) (Assigned ∷ Only sign.CloseParenthesis
        ∷ []) tokens.now depth [] r.1.now) }
    ensures refuses { IfErr result (Refuses (depth + 1) (Assigned ∷ Only sign.CloseParenthesis ∷ []) tokens.now) }
    ensures shorter { IfOk result (λ r. length r.1.now < length tokens.now) }
{
    let (step, behind) = assigned(alloc, depth + 1, tokens)?;
    let rest = sign(Sign::CloseParenthesis, behind)?;
    Ok((step, rest))
}

/// The head of a loop.
#[tactic(auto, using(crate::proofs::Starts::head_starts))]
pub fn head(alloc: Global, depth: u32, tokens: &[Token]) -> Read<'_, Head>
    ensures written { IfOk result (λ r. tokens.now ≡ head_tokens r.0 ++ r.1.now) }
    ensures fits { IfOk result (λ r. HeadFits r.0) }
    ensures passes { IfOk result (λ r. Passes depth (Loop ∷ []) tokens.now (Block ∷ []) r.1.now) }
    ensures refuses { IfErr result (Refuses depth (Loop ∷ []) tokens.now) }
    ensures shorter { IfOk result (λ r. length r.1.now < length tokens.now) }
{
    if let Some(behind) = after_word(Keyword::While, tokens) {
        return while_head(alloc, depth, behind);
    }
    let Some(behind) = after_word(Keyword::For, tokens) else {
        return Err(stop(tokens));
    };
    for_head(alloc, depth, behind)
}

/// Whether a loop without a bound comes next: as a statement it goes on as a loop does.
#[tactic(auto, using(crate::proofs::Starts::at_loop_starts))]
pub fn at_loop(tokens: &[Token]) -> bool
    ensures same { result ≡ true → (n : ℕ) → Passes n (Statement ∷ []) tokens.now (Loop ∷ []) tokens.now }
    ensures no_while { result ≡ false → begins (is_keyword keyword.While) tokens.now ≡ false }
    ensures no_for { result ≡ false → begins (is_keyword keyword.For) tokens.now ≡ false }
{
    if after_word(Keyword::While, tokens).is_some() {
        return true;
    }
    after_word(Keyword::For, tokens).is_some()
}
