//! Loops that count: how many iterations they make is known before they begin.
ghost use Rattle.std.specs.Prelude.{◌≡◌, ◌&&◌, ◌||◌, not, option_map};
ghost use Rattle.sp_tree.specs.Plain.{plain_sp};
ghost use Rattle.c_meaning.specs.Actions as plain;
ghost use Rattle.c_meaning.specs.Shown.{plain_target, plain_assignment, plain_action, actions_of, branches_of};
ghost use Rattle.single_path.specs.Counted as specs;
ghost use Rattle.single_path.specs.Made as made;

use crate::exits::{by_leaving, may_exit};
use c_meaning::{Action, Assignment, Branch, Target};
use sp_tree::{SpBinary, SpExpr};

/// A constant to which a variable was set right before.
#[derive(Clone, Copy, Debug, PartialEq, Eq)]
pub struct Start {
    /// The level of the variable.
    pub level: u32,
    /// What it was set to.
    pub value: u32,
}

// ---- forms of expressions

// whether an expression is a variable
#[tactic(auto, unfolding(sp_tree::specs::Plain::plain_sp))]
fn is_variable(level: u32, e: &SpExpr) -> bool
    ensures { result ≡ specs.is_variable level (plain_sp e.now) }
{
    match e {
        SpExpr::Frame { slot } => *slot == level,
        _ => false,
    }
}

#[tactic(auto, unfolding(sp_tree::specs::Plain::plain_sp))]
fn constant_of(e: &SpExpr) -> Option<u32>
    ensures { result ≡ specs.constant_of (plain_sp e.now) }
{
    match e {
        SpExpr::Const { value } => Some(*value),
        _ => None,
    }
}

// ---- what is known after an action

fn start_at(target: &Target, value: &SpExpr) -> Option<Start>
    ensures { result ≡ specs.start_at (plain_target target.now) (plain_sp value.now) }
{
    match target {
        Target::Variable { level } => {
            let value = constant_of(value)?;
            Some(Start {
                level: level.number,
                value,
            })
        }
        _ => None,
    }
}

/// The constant that an action sets a variable to.
#[tactic(auto, unfolding(c_meaning::specs::Shown::plain_action))]
pub fn start_of(action: &Action) -> Option<Start>
    ensures { result ≡ specs.start_of (plain_action action.now) }
{
    match action {
        Action::Set { assignment } => start_at(&assignment.target, &assignment.value),
        _ => None,
    }
}

// ---- whether actions set a variable

fn is_level(level: u32, target: &Target) -> bool
    ensures { result ≡ specs.is_level level (plain_target target.now) }
{
    match target {
        Target::Variable { level: at } => at.number == level,
        _ => false,
    }
}

fn result_sets(level: u32, given: &Option<Target>) -> bool
    ensures { result ≡ specs.result_sets level (option_map plain_target given.now) }
{
    match given {
        None => false,
        Some(target) => is_level(level, target),
    }
}

fn step_sets(level: u32, step: &Option<Assignment>) -> bool
    ensures { result ≡ specs.step_sets level (option_map plain_assignment step.now) }
{
    match step {
        None => false,
        Some(next) => is_level(level, &next.target),
    }
}

#[cycle(sets)]
#[tactic(auto, unfolding(c_meaning::specs::Shown::plain_action))]
fn one_sets(level: u32, action: &Action) -> bool
    ensures { result ≡ specs.action_sets level (plain_action action.now) }
{
    match action {
        Action::Set { assignment } => is_level(level, &assignment.target),
        Action::Call { target, .. } => result_sets(level, target),
        Action::Choose {
            branches,
            otherwise,
        } => choice_sets(level, branches.as_slice(), otherwise.as_slice()),
        Action::Loop { body, step, .. } => loop_sets(level, body.as_slice(), step),
        _ => false,
    }
}

#[cycle(sets)]
#[tactic(auto)]
fn all_set(level: u32, actions: &[Action]) -> bool
    ensures { result ≡ specs.actions_set level (actions_of actions.now) }
{
    for action in actions {
        if one_sets(level, action) {
            return true;
        }
    }
    false
}

#[cycle(sets)]
#[tactic(auto)]
fn loop_sets(level: u32, body: &[Action], step: &Option<Assignment>) -> bool
    ensures { result
        ≡ (specs.actions_set level (actions_of body.now)
        || specs.step_sets level (option_map plain_assignment step.now)) }
{
    all_set(level, body) || step_sets(level, step)
}

#[cycle(sets)]
#[tactic(auto)]
fn choice_sets(level: u32, branches: &[Branch], otherwise: &[Action]) -> bool
    ensures { result
        ≡ specs.action_sets level (plain.chooses (branches_of branches.now) (actions_of otherwise.now)) }
{
    arms_set(level, branches) || all_set(level, otherwise)
}

#[cycle(sets)]
#[tactic(auto)]
fn arms_set(level: u32, branches: &[Branch]) -> bool
    ensures { result ≡ specs.branches_set level (branches_of branches.now) }
{
    match branches {
        [] => false,
        [branch, rest @ ..] => all_set(level, branch.body.as_slice()) || arms_set(level, rest),
    }
}

// ---- the condition and the step

// the number that an operator keeps its left operand below; 0 where there is none
fn limit_by(constant: Option<u32>, op: SpBinary) -> u64
    ensures { result ≡ specs.limit_by constant op }
{
    match constant {
        None => 0,
        Some(n) => match op {
            SpBinary::Less | SpBinary::LessUnsigned => n as u64,
            SpBinary::LessEqual | SpBinary::LessEqualUnsigned => n as u64 + 1,
            _ => 0,
        },
    }
}

#[tactic(auto, unfolding(sp_tree::specs::Plain::plain_sp))]
fn limit_of(level: u32, condition: &SpExpr) -> u64
    ensures { result ≡ specs.limit_of level (plain_sp condition.now) }
{
    match condition {
        SpExpr::Binary { op, a, b } => {
            if is_variable(level, a) {
                limit_by(constant_of(b), *op)
            } else {
                0
            }
        }
        _ => 0,
    }
}

fn added(constant: Option<u32>) -> u32
    ensures { result ≡ specs.added constant }
{
    constant.unwrap_or(0)
}

#[tactic(auto, unfolding(sp_tree::specs::Plain::plain_sp))]
fn more_in(level: u32, value: &SpExpr) -> u32
    ensures { result ≡ specs.more_in level (plain_sp value.now) }
{
    match value {
        SpExpr::Binary {
            op: SpBinary::Plus,
            a,
            b,
        } => {
            if is_variable(level, a) {
                added(constant_of(b))
            } else {
                0
            }
        }
        _ => 0,
    }
}

fn more_by(level: u32, step: &Option<Assignment>) -> u32
    ensures { result ≡ specs.more_by level (option_map plain_assignment step.now) }
{
    match step {
        None => 0,
        Some(next) => {
            if is_level(level, &next.target) {
                more_in(level, &next.value)
            } else {
                0
            }
        }
    }
}

// whether the last of so many iterations is the last below the limit
#[tactic(auto, using(crate::proofs::Counting::counts_by))]
fn counts(first: u32, more: u32, limit: u64, iterations: u32) -> bool
    ensures { result ≡ specs.counts first more limit iterations }
{
    if iterations == 0 {
        return false;
    }
    let last = first as u64 + (iterations as u64 - 1) * more as u64;
    let end = last + more as u64;
    last < limit && (limit <= end && end < 1 << 31)
}

// nothing in a loop's body sets its variable or leaves the loop
fn stays(level: u32, body: &[Action]) -> bool
    ensures { result
        ≡ (not (specs.actions_set level (actions_of body.now))
        && not (made.actions_exit made.by_leaving (actions_of body.now))) }
{
    !all_set(level, body) && !may_exit(by_leaving(), body)
}

/// Whether a loop makes exactly the iterations of its bound, by what is known right before it.
pub fn is_counted(
    known: Option<Start>,
    max: u32,
    condition: &SpExpr,
    body: &[Action],
    step: &Option<Assignment>,
) -> bool
    ensures { result
        ≡ made.is_counted known max (plain_sp condition.now) (actions_of body.now)
        (option_map plain_assignment step.now) }
{
    match known {
        None => false,
        Some(start) => {
            let more = more_by(start.level, step);
            let limit = limit_of(start.level, condition);
            counts(start.value, more, limit, max) && stays(start.level, body)
        }
    }
}
