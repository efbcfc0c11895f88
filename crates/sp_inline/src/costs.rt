//! How many words the code of statements takes at most. What passes 2^64 - 1 is counted as that.
ghost use Rattle.std.specs.Prelude.{◌≡◌, map};
ghost use Rattle.sp_tree.specs.Cost as specs;
ghost use Rattle.sp_tree.specs.Plain.{plain_sp};
ghost use Rattle.sp_tree.specs.Shown.{plain_sp_target, plain_stmt, stmts_of};
ghost use Rattle.sp_inline.specs.Capped.{capped};

use sp_tree::{SpBinary, SpExpr, SpStmt, SpTarget, SpUnary};

fn unary(op: SpUnary) -> u64
    ensures { result ≡ specs.unary_cost op }
{
    match op {
        SpUnary::Minus | SpUnary::Complement => 1,
        SpUnary::Not => 3,
    }
}

fn binary(op: SpBinary) -> u64
    ensures { result ≡ specs.binary_cost op }
{
    match op {
        SpBinary::Or | SpBinary::And => 5,
        SpBinary::Equal
        | SpBinary::NotEqual
        | SpBinary::Less
        | SpBinary::LessUnsigned
        | SpBinary::LessEqual
        | SpBinary::LessEqualUnsigned
        | SpBinary::Times => 3,
        SpBinary::Divide
        | SpBinary::DivideUnsigned
        | SpBinary::Remainder
        | SpBinary::RemainderUnsigned => 43,
        _ => 1,
    }
}

// the constants that an instruction holds as its second operand are those below this number
fn held_below(op: SpBinary) -> u32
    ensures { result ≡ specs.held_below op }
{
    match op {
        SpBinary::BitAnd => 4096,
        SpBinary::Equal
        | SpBinary::NotEqual
        | SpBinary::Less
        | SpBinary::LessUnsigned
        | SpBinary::LessEqual
        | SpBinary::LessEqualUnsigned => 32,
        _ => 0,
    }
}

fn constant(value: u32) -> u64
    ensures { result ≡ specs.constant_cost value }
{
    if value < 4096 { 1 } else { 2 }
}

#[tactic(auto, unfolding(sp_tree::specs::Plain::plain_sp))]
fn is_held(op: SpBinary, e: &SpExpr) -> bool
    ensures { result ≡ specs.is_held op (plain_sp e.now) }
{
    match e {
        SpExpr::Const { value } => *value < held_below(op),
        _ => false,
    }
}

#[tactic(auto, unfolding(sp_tree::specs::Plain::plain_sp))]
fn expression(e: &SpExpr) -> u64
    ensures { result ≡ capped (specs.expr_cost (plain_sp e.now)) }
{
    match e {
        SpExpr::Const { value } => constant(*value),
        SpExpr::Frame { .. } => 2,
        SpExpr::Scalar { .. } => 4,
        SpExpr::Element { index, .. } => expression(index).saturating_add(12),
        SpExpr::Unary { op, of } => expression(of).saturating_add(unary(*op)),
        SpExpr::Binary { op, a, b } => {
            let first = expression(a);
            let second = if is_held(*op, b) { 0 } else { expression(b) };
            first.saturating_add(second).saturating_add(binary(*op))
        }
    }
}

fn arguments(args: &[SpExpr]) -> u64
    ensures { result ≡ capped (specs.args_cost (map plain_sp args.now)) }
{
    let mut total: u64 = 0;
    for e in args {
        total = total.saturating_add(expression(e));
    }
    total
}

fn target_cost(target: &SpTarget) -> u64
    ensures { result ≡ capped (specs.target_cost (plain_sp_target target.now)) }
{
    match target {
        SpTarget::Frame { .. } => 4,
        SpTarget::Scalar { .. } => 7,
        SpTarget::Element { index, .. } => expression(index).saturating_add(16),
    }
}

#[cycle(cost)]
#[tactic(auto, unfolding(sp_tree::specs::Shown::plain_stmt))]
fn statement(t: &SpStmt) -> u64
    ensures { result ≡ capped (specs.stmt_cost (plain_stmt t.now)) }
{
    match t {
        SpStmt::Mask { value, .. } => expression(value).saturating_add(1),
        SpStmt::Write { target, value, .. } => target_cost(target).saturating_add(expression(
            value,
        )),
        SpStmt::Call { args, .. } => arguments(args.as_slice()).saturating_add(16),
        SpStmt::Send {
            source,
            target,
            count,
            ..
        } => expression(source)
            .saturating_add(expression(target))
            .saturating_add(expression(count))
            .saturating_add(20),
        SpStmt::Overrun { value, .. } => expression(value).saturating_add(6),
        SpStmt::Iterations { body, .. } => cost_of(body.as_slice()).saturating_add(11),
    }
}

/// How many words the code of statements takes at most.
#[cycle(cost)]
#[tactic(auto)]
pub fn cost_of(body: &[SpStmt]) -> u64
    ensures { result ≡ capped (specs.stmts_cost (stmts_of body.now)) }
{
    let mut total: u64 = 0;
    for t in body {
        total = total.saturating_add(statement(t));
    }
    total
}
