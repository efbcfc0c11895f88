//! How many words of a frame functions need. What passes 2^32 - 1 is counted as that; no number of a valid program does.
ghost use Rattle.std.specs.Prelude.{◌≡◌, ◌+◌, ◌<◌, ◌^◌, map, max, option_map};
ghost use Rattle.sp_tree.specs.Formed as formed;
ghost use Rattle.sp_tree.specs.Plain.{plain_sp};
ghost use Rattle.sp_tree.specs.Shown.{plain_stmt, stmts_of};
ghost use Rattle.c_meaning.specs.Shown.{plain_target, plain_assignment, plain_action, actions_of, branches_of};
ghost use Rattle.c_meaning.specs.Actions as plain;
ghost use Rattle.single_path.specs.Widths as specs;

use c_meaning::{Action, Assignment, Branch, Target};
use sp_tree::{SpExpr, SpStmt};

/// The words of the variables that actions name, and those of their masks.
#[derive(Clone, Copy, Debug, PartialEq, Eq)]
pub struct Width {
    pub variables: u32,
    pub masks: u32,
}

// ---- expressions and what is set: one more than the highest level that is named

#[tactic(auto, unfolding(sp_tree::specs::Plain::plain_sp))]
fn expression(e: &SpExpr) -> u32
    ensures { result ≡ specs.capped (specs.expr_words (plain_sp e.now)) }
{
    match e {
        SpExpr::Const { .. } => 0,
        SpExpr::Frame { slot } => slot.saturating_add(1),
        SpExpr::Scalar { .. } => 0,
        SpExpr::Element { index, .. } => expression(index),
        SpExpr::Unary { of, .. } => expression(of),
        SpExpr::Binary { a, b, .. } => {
            let first = expression(a);
            let second = expression(b);
            first.max(second)
        }
    }
}

fn arguments(args: &[SpExpr]) -> u32
    ensures { result ≡ specs.capped (specs.args_words (map plain_sp args.now)) }
{
    let mut most = 0;
    for e in args {
        let words = expression(e);
        most = words.max(most);
    }
    most
}

fn target(target: &Target) -> u32
    ensures { result ≡ specs.capped (specs.target_words (plain_target target.now)) }
{
    match target {
        Target::Variable { level } => level.number.saturating_add(1),
        Target::Scalar { .. } => 0,
        Target::Element { index, .. } => expression(index),
    }
}

fn assignment(assignment: &Assignment) -> u32
    ensures { result ≡ specs.capped (specs.assignment_words (plain_assignment assignment.now)) }
{
    let target = target(&assignment.target);
    let value = expression(&assignment.value);
    target.max(value)
}

fn step(step: &Option<Assignment>) -> u32
    ensures { result ≡ specs.capped (specs.step_words (option_map plain_assignment step.now)) }
{
    match step {
        None => 0,
        Some(next) => assignment(next),
    }
}

// ---- actions

fn call(args: &[SpExpr], given: &Option<Target>) -> Width
    ensures variables { result.variables
        ≡ specs.capped (max (specs.args_words (map plain_sp args.now))
        (specs.result_words (option_map plain_target given.now))) }
    ensures masks { result.masks ≡ specs.capped (specs.result_masks (option_map plain_target given.now)) }
{
    let before = arguments(args);
    let variables = match given {
        None => before,
        Some(result) => before.max(target(result)),
    };
    let masks = match given {
        None | Some(Target::Variable { .. }) => 0,
        Some(_) => 1,
    };
    Width { variables, masks }
}

fn send(source: &SpExpr, aim: &SpExpr, count: &SpExpr) -> Width
    ensures variables { result.variables
        ≡ specs.capped (max (specs.expr_words (plain_sp source.now))
        (max (specs.expr_words (plain_sp aim.now)) (specs.expr_words (plain_sp count.now)))) }
    ensures masks { result.masks ≡ 0 }
{
    let first = expression(source);
    let second = expression(aim);
    let third = expression(count);
    let variables = first.max(second.max(third));
    Width {
        variables,
        masks: 0,
    }
}

// the wider of both
fn wider(a: Width, b: Width) -> Width
    ensures variables { result.variables ≡ max a.variables b.variables }
    ensures masks { result.masks ≡ max a.masks b.masks }
{
    Width {
        variables: a.variables.max(b.variables),
        masks: a.masks.max(b.masks),
    }
}

// an arm, before what stands after it
fn arm(condition: &SpExpr, body: Width, rest: Width) -> Width
    ensures variables { result.variables
        ≡ specs.capped (max (specs.expr_words (plain_sp condition.now)) (max body.variables rest.variables)) }
    ensures masks { result.masks ≡ specs.capped (1 + max body.masks rest.masks) }
{
    let tested = expression(condition);
    let masks = body.masks.max(rest.masks).saturating_add(1);
    Width {
        variables: tested.max(body.variables.max(rest.variables)),
        masks,
    }
}

// a loop
#[tactic(auto, using(crate::proofs::Wide::no_masks, crate::proofs::Wide::some_masks))]
fn repeated(most: u32, condition: &SpExpr, body: Width, next: &Option<Assignment>) -> Width
    ensures variables { result.variables
        ≡ specs.capped (max (specs.expr_words (plain_sp condition.now))
        (max body.variables (specs.step_words (option_map plain_assignment next.now)))) }
    ensures masks { result.masks ≡ specs.capped (specs.loop_masks most body.masks) }
{
    let tested = expression(condition);
    let after_iterations = step(next);
    let variables = tested.max(body.variables.max(after_iterations));
    let masks = if most == 0 {
        0
    } else {
        body.masks.saturating_add(1)
    };
    Width { variables, masks }
}

const NOTHING: Width = Width {
    variables: 0,
    masks: 0,
};

fn set_width(set: &Assignment) -> Width
    ensures variables { result.variables ≡ specs.capped (specs.assignment_words (plain_assignment set.now)) }
    ensures masks { result.masks ≡ 0 }
{
    let variables = assignment(set);
    Width {
        variables,
        masks: 0,
    }
}

fn value_width(value: &SpExpr) -> Width
    ensures variables { result.variables ≡ specs.capped (specs.expr_words (plain_sp value.now)) }
    ensures masks { result.masks ≡ 0 }
{
    let variables = expression(value);
    Width {
        variables,
        masks: 0,
    }
}

#[cycle(width)]
#[tactic(auto, unfolding(c_meaning::specs::Shown::plain_action))]
fn one(action: &Action) -> Width
    ensures variables { result.variables ≡ specs.capped (specs.action_words (plain_action action.now)) }
    ensures masks { result.masks ≡ specs.capped (specs.action_masks (plain_action action.now)) }
{
    match action {
        Action::Set { assignment: set } => set_width(set),
        Action::Call { args, target, .. } => call(args.values.as_slice(), target),
        Action::Send {
            source,
            target,
            count,
            ..
        } => send(source, target, count),
        Action::Choose {
            branches,
            otherwise,
        } => choice(branches.as_slice(), otherwise.as_slice()),
        Action::Loop {
            max,
            condition,
            body,
            step,
        } => iterations(*max, condition, body.as_slice(), step),
        Action::Break => NOTHING,
        Action::Continue => NOTHING,
        Action::Return { value } => value_width(value),
    }
}

// the width of actions: the greatest word stands for each number that passes it
#[cycle(width)]
#[tactic(auto)]
fn width_of(actions: &[Action]) -> Width
    ensures variables { result.variables ≡ specs.capped (specs.words (actions_of actions.now)) }
    ensures masks { result.masks ≡ specs.capped (specs.masks (actions_of actions.now)) }
{
    let mut most = NOTHING;
    for action in actions {
        let width = one(action);
        most = wider(most, width);
    }
    most
}

#[cycle(width)]
#[tactic(auto, using(crate::proofs::Wide::capped_arms))]
fn choice(branches: &[Branch], otherwise: &[Action]) -> Width
    ensures variables { result.variables
        ≡ specs.capped (specs.action_words (plain.chooses (branches_of branches.now) (actions_of otherwise.now))) }
    ensures masks { result.masks ≡ specs.capped
        (specs.action_masks (plain.chooses (branches_of branches.now) (actions_of otherwise.now))) }
{
    let last = width_of(otherwise);
    arms(branches, last)
}

#[cycle(width)]
#[tactic(auto)]
fn arms(branches: &[Branch], last: Width) -> Width
    ensures variables { result.variables
        ≡ specs.capped (max (specs.branches_words (branches_of branches.now)) last.variables) }
    ensures masks { result.masks ≡ specs.capped (specs.branches_masks (branches_of branches.now) last.masks) }
{
    match branches {
        [] => last,
        [branch, rest @ ..] => {
            let body = width_of(branch.body.as_slice());
            let after_arm = arms(rest, last);
            arm(&branch.condition, body, after_arm)
        }
    }
}

#[cycle(width)]
#[tactic(auto, using(crate::proofs::Wide::capped_loop))]
fn iterations(most: u32, condition: &SpExpr, body: &[Action], next: &Option<Assignment>) -> Width
    ensures variables { result.variables
        ≡ specs.capped (specs.action_words
        (plain.iterations most (plain_sp condition.now) (actions_of body.now) (option_map plain_assignment next.now))) }
    ensures masks { result.masks
        ≡ specs.capped (specs.action_masks
        (plain.iterations most (plain_sp condition.now) (actions_of body.now) (option_map plain_assignment next.now))) }
{
    let inner = width_of(body);
    repeated(most, condition, inner, next)
}

/// The width of actions, where a word counts it.
pub fn exact_width(actions: &[Action]) -> Width
    requires variables { specs.words (actions_of actions.now) < 2 ^ 32 }
    requires masks { specs.masks (actions_of actions.now) < 2 ^ 32 }
    ensures variables { result.variables ≡ specs.words (actions_of actions.now) }
    ensures masks { result.masks ≡ specs.masks (actions_of actions.now) }
{
    width_of(actions)
}

// ---- statements: how many levels of iterations stand inside one another

#[cycle(levels)]
#[tactic(auto, unfolding(sp_tree::specs::Shown::plain_stmt))]
fn statement_levels(t: &SpStmt) -> u32
    ensures { result ≡ specs.capped (formed.stmt_levels (plain_stmt t.now)) }
{
    match t {
        SpStmt::Iterations { body, .. } => {
            let inner = levels_of(body.as_slice());
            inner.saturating_add(1)
        }
        _ => 0,
    }
}

// how many levels of iterations stand inside one another in statements
#[cycle(levels)]
#[tactic(auto)]
fn levels_of(stmts: &[SpStmt]) -> u32
    ensures { result ≡ specs.capped (formed.stmts_levels (stmts_of stmts.now)) }
{
    let mut most = 0;
    for t in stmts {
        let levels = statement_levels(t);
        most = levels.max(most);
    }
    most
}

/// How many levels of iterations stand inside one another in statements, where a word counts them.
pub fn exact_levels(stmts: &[SpStmt]) -> u32
    requires { formed.stmts_levels (stmts_of stmts.now) < 2 ^ 32 }
    ensures { result ≡ formed.stmts_levels (stmts_of stmts.now) }
{
    levels_of(stmts)
}
