//! How deep an expression is, where a depth above 2^32 - 1 is counted as that.
ghost use Rattle.std.specs.Prelude.{◌≡◌, nat_lt};
ghost use Rattle.c_tree.specs.declared.limits.TheConstants.{MOST_DEPTH};
ghost use Rattle.c_tree.specs.Depth.{expr_depth, steps_depth};
ghost use Rattle.c_tree.specs.Plain.{plain_expr};
ghost use Rattle.c_tree.specs.Plains.{steps_of};
ghost use Rattle.c_check.specs.Capped.{capped};

use c_tree::{Expr, MOST_DEPTH, Step};

#[cycle(expression)]
#[tactic(auto, unfolding(c_tree::specs::Depth::expr_depth, c_tree::specs::Plain::plain_expr))]
fn depth(e: &Expr) -> u32
    ensures { result ≡ capped (expr_depth (plain_expr e.now)) }
{
    match e {
        Expr::Chain { first, rest, .. } => depth(first).max(deepest(rest.as_slice())),
        Expr::Unary { of, .. } => depth(of),
        Expr::Number { .. } | Expr::Name { .. } => 1,
        Expr::Element { index, .. } => depth(index),
        Expr::Paren { inner } => depth(inner),
    }
}

// each operand but the first waits for one more
#[cycle(expression)]
#[tactic(auto, using(crate::proofs::Deep::deepest_next), unfolding(c_tree::specs::Depth::steps_depth))]
fn deepest(steps: &[Step]) -> u32
    ensures { result ≡ capped (steps_depth (steps_of steps.now)) }
{
    let mut most: u32 = 0;
    for step in steps {
        most = most.max(depth(&step.operand).saturating_add(1));
    }
    most
}

/// Whether an expression is too deep.
#[tactic(auto, using(crate::proofs::Limits::above))]
pub fn is_deep(e: &Expr) -> bool
    ensures { result ≡ nat_lt MOST_DEPTH (expr_depth (plain_expr e.now)) }
{
    depth(e) > MOST_DEPTH
}
