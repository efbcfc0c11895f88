//! Laws on the definitions, each a clause of a function that does nothing.
ghost use Rattle.std.specs.Prelude.{◌≡◌, length, sum_by};
ghost use Rattle.c_tree.specs.Tokens.{expr_tokens, stmt_tokens, tokens_of};
ghost use Rattle.c_tree.specs.Plain.{plain_expr, plain_stmt, plain};
ghost use Rattle.c_tree.specs.Sizes.{expr_size, stmt_size, item_size};
ghost use Rattle.c_tree.specs.declared.limits.TheConstants.{MOST_BRACKETS, MOST_DEPTH, MOST_FRAME_WORDS, MOST_FUNCTION_WEIGHT, MOST_LEVELS, MOST_PARAMETERS, MOST_PRIVATE_WORDS, MOST_SCRATCH_WORDS, MOST_TASK_WEIGHT, MOST_ITERATIONS, WORDS_BESIDES};

use crate::expressions::Expr;
use crate::statements::Stmt;
use crate::units::Unit;

/// A place is the number of a token: the size of a part is the number of tokens that it is written as.
pub fn sizes_are_tokens()
    ensures expression { (e : Expr) → length (expr_tokens e) ≡ expr_size (plain_expr e) }
    ensures statement { (s : Stmt) → length (stmt_tokens s) ≡ stmt_size (plain_stmt s) }
    ensures program { (u : Unit) → length (tokens_of u) ≡ sum_by item_size (plain u) }
{}

/// The limits of the subset, in numbers: words of a frame, those of it that are no variables, levels of variables,
/// weights of a function and of a task, words of private memory and of the scratchpad, depth of an expression,
/// parameters, iterations and open brackets. A law: it does nothing.
pub fn subset_limits()
    ensures frame { MOST_FRAME_WORDS ≡ 120 }
    ensures besides { WORDS_BESIDES ≡ 24 }
    ensures levels { MOST_LEVELS ≡ 96 }
    ensures function { MOST_FUNCTION_WEIGHT ≡ 4096 }
    ensures task { MOST_TASK_WEIGHT ≡ 32768 }
    ensures private { MOST_PRIVATE_WORDS ≡ 49148 }
    ensures scratchpad { MOST_SCRATCH_WORDS ≡ 2048 }
    ensures depth { MOST_DEPTH ≡ 12 }
    ensures parameters { MOST_PARAMETERS ≡ 6 }
    ensures iterations { MOST_ITERATIONS ≡ 65535 }
    ensures brackets { MOST_BRACKETS ≡ 64 }
{}
