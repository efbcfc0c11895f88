//! How many words of a frame statements name.
ghost use Rattle.std.specs.Prelude.{◌≡◌, map};
ghost use Rattle.sp_tree.specs.Plain.{plain_sp};
ghost use Rattle.sp_tree.specs.Shown.{plain_sp_target, plain_stmt, stmts_of};
ghost use Rattle.sp_inline.specs.Reach as specs;

use sp_tree::{SpExpr, SpStmt, SpTarget};

#[tactic(auto, unfolding(sp_tree::specs::Plain::plain_sp))]
fn expression(e: &SpExpr) -> u64
    ensures { result ≡ specs.expr_reach (plain_sp e.now) }
{
    match e {
        SpExpr::Const { .. } => 0,
        SpExpr::Frame { slot } => u64::from(*slot) + 1,
        SpExpr::Scalar { .. } => 0,
        SpExpr::Element { index, .. } => expression(index),
        SpExpr::Unary { of, .. } => expression(of),
        SpExpr::Binary { a, b, .. } => {
            let first = expression(a);
            let second = expression(b);
            first.max(second)
        }
    }
}

fn arguments(args: &[SpExpr]) -> u64
    ensures { result ≡ specs.args_reach (map plain_sp args.now) }
{
    let mut most = 0;
    for e in args {
        let words = expression(e);
        most = words.max(most);
    }
    most
}

fn target_reach(target: &SpTarget) -> u64
    ensures { result ≡ specs.target_reach (plain_sp_target target.now) }
{
    match target {
        SpTarget::Frame { slot } => u64::from(*slot) + 1,
        SpTarget::Scalar { .. } => 0,
        SpTarget::Element { index, .. } => expression(index),
    }
}

fn result_reach(given: Option<u32>) -> u64
    ensures { result ≡ specs.result_reach given }
{
    match given {
        None => 0,
        Some(slot) => u64::from(slot) + 1,
    }
}

#[cycle(reach)]
#[tactic(auto, unfolding(sp_tree::specs::Shown::plain_stmt))]
fn statement(t: &SpStmt) -> u64
    ensures { result ≡ specs.stmt_reach (plain_stmt t.now) }
{
    match t {
        SpStmt::Mask { slot, value } => (u64::from(*slot) + 1).max(expression(value)),
        SpStmt::Write {
            mask,
            target,
            value,
        } => (u64::from(*mask) + 1).max(target_reach(target).max(expression(value))),
        SpStmt::Call {
            mask,
            args,
            result: given,
            ..
        } => (u64::from(*mask) + 1).max(arguments(args.as_slice()).max(result_reach(*given))),
        SpStmt::Send {
            mask,
            source,
            target,
            count,
            ..
        } => (u64::from(*mask) + 1).max(expression(source).max(expression(target).max(expression(
            count,
        )))),
        SpStmt::Overrun { mask, value } => (u64::from(*mask) + 1).max(expression(value)),
        SpStmt::Iterations { body, .. } => reach_of(body.as_slice()),
    }
}

/// One more than the greatest word of the frame that statements name.
#[cycle(reach)]
#[tactic(auto)]
pub fn reach_of(body: &[SpStmt]) -> u64
    ensures { result ≡ specs.stmts_reach (stmts_of body.now) }
{
    let mut most = 0;
    for t in body {
        let words = statement(t);
        most = words.max(most);
    }
    most
}
