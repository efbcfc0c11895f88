//! Weights, where those above 2^32 - 1 are counted as that.
ghost use Rattle.std.specs.Prelude.{◌≡◌, ◌+◌, ◌*◌, nat_lt, map, sum_by};
ghost use Rattle.c_tree.specs.declared.limits.TheConstants.{MOST_FUNCTION_WEIGHT, MOST_TASK_WEIGHT};
ghost use Rattle.c_tree.specs.Weight as weight;
ghost use Rattle.c_tree.specs.Plain.{plain_expr, plain_right, plain_head, plain_stmt, plain_item};
ghost use Rattle.c_tree.specs.Plains.{steps_of, block_of, arms_of};
ghost use Rattle.c_check.specs.Capped.{capped};

use c_tree::{
    Arm, BinaryOp, Expr, Function, Head, Item, MOST_FUNCTION_WEIGHT, MOST_TASK_WEIGHT, Right, Step,
    Stmt,
};

fn operator(op: BinaryOp) -> u32
    ensures { result ≡ weight.operator_weight op }
{
    match op {
        BinaryOp::Times => 10,
        BinaryOp::Divide | BinaryOp::Remainder => 64,
        _ => 8,
    }
}

#[cycle(expression)]
#[tactic(auto, unfolding(c_tree::specs::Weight::expr_weight, c_tree::specs::Plain::plain_expr))]
fn expr(e: &Expr) -> u32
    ensures { result ≡ capped (weight.expr_weight (plain_expr e.now)) }
{
    match e {
        Expr::Chain { first, rest, .. } => expr(first).saturating_add(steps(rest.as_slice())),
        Expr::Unary { ops, of } => expr(of).saturating_add(signs(ops.as_slice().len())),
        Expr::Number { .. } | Expr::Name { .. } => 4,
        Expr::Element { index, .. } => expr(index).saturating_add(16),
        Expr::Paren { inner } => expr(inner),
    }
}

fn signs(count: usize) -> u32
    ensures { result ≡ capped (6 * count) }
{
    u32::try_from(count).unwrap_or(u32::MAX).saturating_mul(6)
}

#[cycle(expression)]
fn steps(steps: &[Step]) -> u32
    ensures { result ≡ capped (weight.steps_weight (steps_of steps.now)) }
{
    let mut total: u32 = 0;
    for step in steps {
        total = total
            .saturating_add(operator(step.op))
            .saturating_add(expr(&step.operand));
    }
    total
}

#[tactic(auto, using(crate::proofs::Sums::args_weighed))]
fn arguments(args: &[Expr]) -> u32
    ensures { result ≡ capped (sum_by (λ e. 6 + weight.expr_weight e) (map plain_expr args.now)) }
{
    let mut total: u32 = 0;
    for e in args {
        total = total.saturating_add(6).saturating_add(expr(e));
    }
    total
}

fn call(args: &[Expr]) -> u32
    ensures { result ≡ capped (weight.args_weight (map plain_expr args.now)) }
{
    arguments(args).saturating_add(48)
}

fn right(r: &Right) -> u32
    ensures { result ≡ capped (weight.right_weight (plain_right r.now)) }
{
    match r {
        Right::Value { of } => expr(of),
        Right::Call { args, .. } => call(args.as_slice()),
    }
}

fn head(h: &Head) -> u32
    ensures { result ≡ capped (weight.head_weight (plain_head h.now)) }
{
    match h {
        Head::While { condition } => expr(condition).saturating_mul(2).saturating_add(48),
        Head::For {
            from,
            condition,
            to,
            ..
        } => expr(condition)
            .saturating_mul(2)
            .saturating_add(72)
            .saturating_add(expr(from))
            .saturating_add(expr(to)),
    }
}

#[cycle(statement)]
#[tactic(auto, using(crate::proofs::Sums::inner_weighed), unfolding(c_tree::specs::Weight::stmt_weight, c_tree::specs::Plain::plain_stmt))]
fn stmt(s: &Stmt) -> u32
    ensures { result ≡ capped (weight.stmt_weight (plain_stmt s.now)) }
{
    match s {
        Stmt::Declare { right: None, .. } => 16,
        Stmt::Declare { right: Some(r), .. } | Stmt::Set { right: r, .. } => right(
            r,
        ).saturating_add(12),
        Stmt::SetElement {
            index,
            right: r,
            ..
        } => expr(index).saturating_add(right(r)).saturating_add(28),
        Stmt::Call { args, .. } => call(args.as_slice()),
        Stmt::Send {
            source,
            target,
            count,
            ..
        } => expr(source)
            .saturating_add(expr(target))
            .saturating_add(expr(count))
            .saturating_add(32),
        Stmt::If { arms, otherwise } => {
            let total = branches(arms.as_slice());
            match otherwise {
                None => total,
                Some(body) => total.saturating_add(block(body.as_slice())),
            }
        }
        Stmt::Loop { head: h, body, .. } => head(h).saturating_add(block(body.as_slice())),
        Stmt::Break | Stmt::Continue | Stmt::Return { value: None } => 16,
        Stmt::Return { value: Some(value) } => expr(value).saturating_add(16),
        Stmt::Inner { body } => block(body.as_slice()),
    }
}

#[cycle(statement)]
fn block(body: &[Stmt]) -> u32
    ensures { result ≡ capped (weight.block_weight (block_of body.now)) }
{
    let mut total: u32 = 0;
    for s in body {
        total = total.saturating_add(stmt(s));
    }
    total
}

#[cycle(statement)]
fn branches(arms: &[Arm]) -> u32
    ensures { result ≡ capped (weight.arms_weight (arms_of arms.now)) }
{
    let mut total: u32 = 0;
    for arm in arms {
        total = total
            .saturating_add(24)
            .saturating_add(expr(&arm.condition))
            .saturating_add(block(arm.body.as_slice()));
    }
    total
}

/// What a function weighs.
#[tactic(auto, using(crate::proofs::Sums::body_weighed))]
pub fn weight_of(f: &Function) -> u32
    ensures { result ≡ capped (weight.function_weight (map plain_stmt f.now.body)) }
{
    block(f.body.as_slice()).saturating_add(64)
}

// what the functions of a task weigh together
#[tactic(auto, using(crate::proofs::Sums::items_weighed))]
fn items(items: &[Item]) -> u32
    ensures { result ≡ capped (weight.items_weight (map plain_item items.now)) }
{
    let mut total: u32 = 0;
    for item in items {
        if let Item::Function { function: f } = item {
            total = total.saturating_add(weight_of(f));
        }
    }
    total
}

/// Whether a function is too heavy.
#[tactic(auto, using(crate::proofs::Limits::above))]
pub fn is_heavy(f: &Function) -> bool
    ensures { result ≡ nat_lt MOST_FUNCTION_WEIGHT (weight.function_weight (map plain_stmt f.now.body)) }
{
    weight_of(f) > MOST_FUNCTION_WEIGHT
}

/// Whether a task is too heavy.
#[tactic(auto, using(crate::proofs::Limits::above))]
pub fn is_heavy_task(list: &[Item]) -> bool
    ensures { result ≡ nat_lt MOST_TASK_WEIGHT (weight.items_weight (map plain_item list.now)) }
{
    items(list) > MOST_TASK_WEIGHT
}
