ghost use Rattle.std.specs.Prelude.{◌≡◌, ◌+◌, ◌-◌, ◌<◌, [], ◌∷◌, ◌++◌, length, IfOk, IfErr};
ghost use Rattle.std.specs.List.{AllByRecursion as Each};
ghost use Rattle.c_tree.specs.Tokens.{stmt_tokens, body_tokens, arm_tokens, bound_tokens, braced, one, word};
ghost use Rattle.c_tree.specs.Fits.{StmtFits, ExprFits};
ghost use Rattle.c_tree.specs.declared.tokens.Keyword.TheVariants as keyword;
ghost use Rattle.c_tree.specs.declared.tokens.Sign.TheVariants as sign;
ghost use Rattle.c_parse.specs.Expected.{Statement, Statements, Else, Condition, Block, Loop};
ghost use Rattle.c_parse.specs.Readers.{Passes, PassesTo, Refuses};

use crate::ahead::{Read, after, after_word, bound_at, bracket, opened};
use crate::loops::{at_loop, condition, head};
use crate::simple::simple;
use c_tree::{Arm, Bound, Keyword, Sign, Stmt, Token};
use std::alloc::Global;
use tc_word::List;

/// Statements up to the brace that closes their block, and that brace.
#[cycle(statement)]
#[tactic(auto, using(crate::proofs::Starts::statements_end, crate::proofs::Starts::statements_statement))]
pub fn statements(alloc: Global, depth: u32, tokens: &[Token]) -> Read<'_, List<Stmt>>
    ensures written { IfOk result (λ r. tokens.now ≡ body_tokens r.0 ++ one sign.CloseBrace ∷ r.1.now) }
    ensures fits { IfOk result (λ r. Each StmtFits r.0) }
    ensures passes { IfOk result (λ r. PassesTo depth (Statements ∷ []) tokens.now (depth - 1) [] r.1.now) }
    ensures refuses { IfErr result (Refuses depth (Statements ∷ []) tokens.now) }
    ensures shorter { IfOk result (λ r. length r.1.now < length tokens.now) }
{
    let mut body = Vec::new(alloc);
    let mut rest = tokens;
    loop {
        if let Some(behind) = after(Sign::CloseBrace, rest) {
            return Ok((List::of(body), behind));
        }
        let (statement, behind) = statement(alloc, depth, rest)?;
        body.push(statement)?;
        rest = behind;
    }
}

/// A block in braces.
#[cycle(statement)]
#[tactic(auto, using(crate::proofs::Starts::block_open, crate::proofs::Starts::no_block))]
pub fn block(alloc: Global, depth: u32, tokens: &[Token]) -> Read<'_, List<Stmt>>
    ensures written { IfOk result (λ r. tokens.now ≡ braced (body_tokens r.0) ++ r.1.now) }
    ensures fits { IfOk result (λ r. Each StmtFits r.0) }
    ensures passes { IfOk result (λ r. Passes depth (Block ∷ []) tokens.now [] r.1.now) }
    ensures refuses { IfErr result (Refuses depth (Block ∷ []) tokens.now) }
    ensures shorter { IfOk result (λ r. length r.1.now < length tokens.now) }
{
    let behind = bracket(Sign::OpenBrace, depth, tokens)?;
    let (body, rest) = statements(alloc, depth + 1, behind)?;
    Ok((body, rest))
}

// a condition and its block, after `if`
#[cycle(statement)]
fn arm(alloc: Global, depth: u32, tokens: &[Token]) -> Read<'_, Arm>
    ensures written { IfOk result (λ r. word keyword.If ∷ tokens.now
        ≡ arm_tokens r.0.condition (body_tokens r.0.body) ++ r.1.now) }
    ensures fits { IfOk result (λ r. ExprFits r.0.condition) }
    ensures passes { IfOk result (λ r. Passes depth (Condition ∷ Block ∷ []) tokens.now [] r.1.now) }
    ensures refuses { IfErr result (Refuses depth (Condition ∷ Block ∷ []) tokens.now) }
    ensures shorter { IfOk result (λ r. length r.1.now < length tokens.now) }
    ensures body_fits { IfOk result (λ r. Each StmtFits r.0.body) }
{
    let (condition, behind) = condition(alloc, depth, tokens)?;
    let (body, rest) = block(alloc, depth, behind)?;
    Ok((Arm { condition, body }, rest))
}

// an `if` with all that is after it
#[cycle(statement)]
#[tactic(auto, using(crate::proofs::Starts::conditional_starts, c_tree::proofs::Blocks::if_tokens))]
fn conditional(alloc: Global, depth: u32, tokens: &[Token]) -> Read<'_, Stmt>
    ensures written { IfOk result (λ r. word keyword.If ∷ tokens.now ≡ stmt_tokens r.0 ++ r.1.now) }
    ensures fits { IfOk result (λ r. StmtFits r.0) }
    ensures passes { IfOk result (λ r. Passes depth (Condition ∷ Block ∷ Else ∷ []) tokens.now [] r.1.now) }
    ensures refuses { IfErr result (Refuses depth (Condition ∷ Block ∷ Else ∷ []) tokens.now) }
    ensures shorter { IfOk result (λ r. length r.1.now < length tokens.now) }
{
    let (first, mut rest) = arm(alloc, depth, tokens)?;
    let mut arms = Vec::new(alloc);
    arms.push(first)?;
    while let Some(behind) = after_word(Keyword::Else, rest) {
        let Some(behind) = after_word(Keyword::If, behind) else {
            let (body, rest) = block(alloc, depth, behind)?;
            return Ok((
                Stmt::If {
                    arms: List::of(arms),
                    otherwise: Some(body),
                },
                rest,
            ));
        };
        let (further, next) = arm(alloc, depth, behind)?;
        arms.push(further)?;
        rest = next;
    }
    Ok((
        Stmt::If {
            arms: List::of(arms),
            otherwise: None,
        },
        rest,
    ))
}

// a loop, after its bound if it has one
#[cycle(statement)]
#[tactic(auto, using(c_tree::proofs::Blocks::loop_fits))]
fn looped(alloc: Global, depth: u32, bound: Option<Bound>, tokens: &[Token]) -> Read<'_, Stmt>
    ensures written { IfOk result (λ r. bound_tokens bound ++ tokens.now ≡ stmt_tokens r.0 ++ r.1.now) }
    ensures fits { IfOk result (λ r. StmtFits r.0) }
    ensures passes { IfOk result (λ r. Passes depth (Loop ∷ []) tokens.now [] r.1.now) }
    ensures refuses { IfErr result (Refuses depth (Loop ∷ []) tokens.now) }
    ensures shorter { IfOk result (λ r. length r.1.now < length tokens.now) }
{
    let (head, behind) = head(alloc, depth, tokens)?;
    let (body, rest) = block(alloc, depth, behind)?;
    Ok((Stmt::Loop { bound, head, body }, rest))
}

// a block as a statement, after its brace
#[cycle(statement)]
#[tactic(auto, using(c_tree::proofs::Blocks::inner_fits))]
fn inner(alloc: Global, depth: u32, tokens: &[Token]) -> Read<'_, Stmt>
    requires { depth < 64 }
    ensures written { IfOk result (λ r. one sign.OpenBrace ∷ tokens.now ≡ stmt_tokens r.0 ++ r.1.now) }
    ensures fits { IfOk result (λ r. StmtFits r.0) }
    ensures passes { IfOk result (λ r. PassesTo (depth + 1) (Statements ∷ []) tokens.now depth [] r.1.now) }
    ensures refuses { IfErr result (Refuses (depth + 1) (Statements ∷ []) tokens.now) }
    ensures shorter { IfOk result (λ r. length r.1.now < length tokens.now) }
{
    let (body, rest) = statements(alloc, depth + 1, tokens)?;
    Ok((Stmt::Inner { body }, rest))
}

#[cycle(statement)]
#[tactic(auto, using(crate::proofs::Starts::statement_starts))]
fn statement(alloc: Global, depth: u32, tokens: &[Token]) -> Read<'_, Stmt>
    ensures written { IfOk result (λ r. tokens.now ≡ stmt_tokens r.0 ++ r.1.now) }
    ensures fits { IfOk result (λ r. StmtFits r.0) }
    ensures passes { IfOk result (λ r. Passes depth (Statement ∷ []) tokens.now [] r.1.now) }
    ensures refuses { IfErr result (Refuses depth (Statement ∷ []) tokens.now) }
    ensures shorter { IfOk result (λ r. length r.1.now < length tokens.now) }
{
    if let Some(behind) = after_word(Keyword::If, tokens) {
        return conditional(alloc, depth, behind);
    }
    if let Some((bound, behind)) = bound_at(tokens) {
        return looped(alloc, depth, Some(bound), behind);
    }
    if let Some(behind) = opened(Sign::OpenBrace, depth, tokens) {
        return inner(alloc, depth, behind);
    }
    if at_loop(tokens) {
        return looped(alloc, depth, None, tokens);
    }
    simple(alloc, depth, tokens)
}
