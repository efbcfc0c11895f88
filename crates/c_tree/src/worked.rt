//! Worked examples: trees, and what they are written as.
ghost use Rattle.std.specs.Prelude.{◌≡◌, [], ◌∷◌, ◌++◌, codes, true, false, Some, None, IfOk};
ghost use Rattle.c_tree.specs.declared.tokens.Sign.TheVariants as sign;
ghost use Rattle.c_tree.specs.declared.tokens.Keyword.TheVariants as keyword;
ghost use Rattle.c_tree.specs.declared.tokens.Token.TheVariants as token;
ghost use Rattle.c_tree.specs.Tokens.{expr_tokens, stmt_tokens, const_tokens, global_tokens, function_tokens, one, word, binary_sign};
ghost use Rattle.c_tree.specs.Fits.{level_of, rank, most_open, GlobalFits, FunctionFits};

use crate::expressions::{BinaryOp, Expr, Step};
use crate::statements::{Head, Kind, Stmt};
use std::alloc::Global;
use tc_word::{List, OutOfMemory};

/// An expression in parentheses.
#[tactic(auto, unfolding(crate::specs::Tokens::expr_tokens))]
pub fn in_parentheses(alloc: Global, inner: Expr) -> Result<Expr, OutOfMemory>
    ensures { IfOk result (λ e. expr_tokens e
        ≡ one sign.OpenParenthesis ∷ (expr_tokens inner ++ one sign.CloseParenthesis ∷ [])) }
{
    Ok(Expr::Paren {
        inner: Box::new(alloc, inner)?,
    })
}

/// Two operands with an operator of a level between them.
#[tactic(auto, using(crate::proofs::Chains::chain_tokens))]
pub fn between(
    alloc: Global,
    level: u8,
    first: Expr,
    op: BinaryOp,
    operand: Expr,
) -> Result<Expr, OutOfMemory>
    ensures { IfOk result (λ e. expr_tokens e
        ≡ expr_tokens first ++ one (binary_sign op) ∷ (expr_tokens operand ++ [])) }
{
    Ok(Expr::Chain {
        level,
        first: Box::new(alloc, first)?,
        rest: List::of(vec![in alloc; Step { op, operand }]?),
    })
}

/// What small trees are written as: a constant, an array with its first values, a function, a call, a loop with its
/// bound, and an `else` that belongs to the outer `if`.
#[tactic(auto, unfolding(crate::specs::Tokens::expr_tokens, crate::specs::Tokens::stmt_tokens))]
pub fn worked_tokens()
    ensures constant { const_tokens (record { negative = true; value = 5; unsigned = false })
        ≡ one sign.Minus ∷ token.Number 5 false ∷ [] }
    ensures array { global_tokens (record {
      scratch = true;
      kind = Kind.UnsignedInt;
      name = codes "a";
      length = Some (record { value = 2; unsigned = false });
      initial = record { negative = false; value = 1; unsigned = false }
          ∷ record { negative = true; value = 7; unsigned = false } ∷ [];
    })
        ≡ word keyword.Scratchpad ∷ word keyword.Unsigned ∷ word keyword.Int ∷ token.Word (codes "a")
        ∷ one sign.OpenBracket ∷ token.Number 2 false
        ∷ one sign.CloseBracket ∷ one sign.Assign ∷ one sign.OpenBrace ∷ token.Number 1 false ∷ one sign.Comma
        ∷ one sign.Minus ∷ token.Number 7 false
        ∷ one sign.CloseBrace ∷ one sign.Semicolon ∷ [] }
    ensures function { function_tokens
        (record { kind = None; name = codes "f"; void_word = true; parameters = []; body = Stmt.Return None ∷ [] })
        ≡ word keyword.Void ∷ token.Word (codes "f") ∷ one sign.OpenParenthesis ∷ word keyword.Void
        ∷ one sign.CloseParenthesis ∷ one sign.OpenBrace
        ∷ word keyword.Return ∷ one sign.Semicolon ∷ one sign.CloseBrace ∷ [] }
    ensures call { stmt_tokens (Stmt.Call (codes "f") (Expr.Number 1 false ∷ Expr.Name (codes "x") ∷ []))
        ≡ token.Word (codes "f") ∷ one sign.OpenParenthesis ∷ token.Number 1 false ∷ one sign.Comma
        ∷ token.Word (codes "x") ∷ one sign.CloseParenthesis
        ∷ one sign.Semicolon ∷ [] }
    ensures bounded { stmt_tokens (Stmt.Loop (Some (record { min = 1; max = 2 })) (Head.While (Expr.Number 1 false))
        (Stmt.Break ∷ []))
        ≡ token.Bound 1 2 ∷ word keyword.While ∷ one sign.OpenParenthesis ∷ token.Number 1 false
        ∷ one sign.CloseParenthesis ∷ one sign.OpenBrace
        ∷ word keyword.Break ∷ one sign.Semicolon ∷ one sign.CloseBrace ∷ [] }
    ensures otherwise { stmt_tokens
        (Stmt.If (record { condition = Expr.Number 1 false; body = Stmt.Continue ∷ [] } ∷ []) (Some []))
        ≡ word keyword.If ∷ one sign.OpenParenthesis ∷ token.Number 1 false ∷ one sign.CloseParenthesis
        ∷ one sign.OpenBrace ∷ word keyword.Continue
        ∷ one sign.Semicolon ∷ one sign.CloseBrace ∷ word keyword.Else ∷ one sign.OpenBrace ∷ one sign.CloseBrace ∷ [] }
{}

/// Which small trees fit: levels, ranks, brackets, and what a variable and a list of parameters may not have.
pub fn worked_fits()
    ensures less { level_of BinaryOp.Less ≡ 7 }
    ensures equal { level_of BinaryOp.Equal ≡ 6 }
    ensures times { level_of BinaryOp.Times ≡ 10 }
    ensures number { rank (Expr.Number 1 false) ≡ 12 }
    ensures brackets { most_open 0 (one sign.OpenParenthesis ∷ one sign.OpenBracket ∷ one sign.CloseBracket
        ∷ one sign.OpenBrace ∷ []) ≡ 2 }
    ensures two_values { GlobalFits (record {
      scratch = false;
      kind = Kind.Int;
      name = codes "x";
      length = None;
      initial = record { negative = false; value = 1; unsigned = false }
          ∷ record { negative = false; value = 2; unsigned = false } ∷ [];
    }) → ⊥ }
    ensures void_and_more { FunctionFits (record {
      kind = None;
      name = codes "f";
      void_word = true;
      parameters = record { kind = Kind.Int; name = codes "a" } ∷ [];
      body = [];
    }) → ⊥ }
{}
