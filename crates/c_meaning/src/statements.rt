//! Names of statements, resolved.
ghost use Rattle.std.specs.Prelude.{◌≡◌, ◌<◌, ◌≤◌, ◌^◌, None, length, map, option_map, IfOk, IfSome, OnOk};
ghost use Rattle.c_tree.specs.declared.limits.TheConstants.{MOST_LEVELS, MOST_PARAMETERS};
ghost use Rattle.c_tree.specs.Layout as layout;
ghost use Rattle.c_tree.specs.Plain as tree;
ghost use Rattle.c_tree.specs.Plain.{plain_expr, plain_right, plain_head, plain_stmt};
ghost use Rattle.c_tree.specs.Plains.{block_of, arms_of};
ghost use Rattle.sp_tree.specs.Plain.{plain_sp};
ghost use Rattle.c_meaning.specs.Actions.{joined, one};
ghost use Rattle.c_meaning.specs.Actions as plain;
ghost use Rattle.c_meaning.specs.Fits.{RightFits, FirstFits, StmtFits, BlockFits, ArmsFit};
ghost use Rattle.c_meaning.specs.Meaning as meaning;
ghost use Rattle.c_meaning.specs.Meaning.{names_after, with_variable};
ghost use Rattle.c_meaning.specs.Open.{names_of, functions_of, closed};
ghost use Rattle.c_meaning.specs.Resolve as resolve;
ghost use Rattle.c_meaning.specs.Shown.{plain_target, plain_assignment, plain_action, actions_of, branches_of};

use crate::actions::{Action, Arguments, Assignment, Branch, Target};
use crate::expressions::{Operand, arguments, expression, value_of};
use crate::scopes::Scope;
use crate::targets::{assignment_to, element_target, level_target, variable_target};
use c_tree::{Arm, Bound, Expr, Head, Kind, Right, Stmt};
use sp_tree::SpExpr;
use std::alloc::Global;
use tc_word::{List, OutOfMemory, Text};

// one action more
#[tactic(auto, using(crate::proofs::Acted::actions_push))]
fn add(out: &mut Vec<Action>, action: Action) -> Result<(), OutOfMemory>
    ensures { OnOk result (actions_of out.new.items ≡ joined (actions_of out.old.items) (one (plain_action action))) }
{
    out.push(action)?;
    Ok(())
}

// what is set, if anything
#[tactic(auto, using(crate::proofs::Acted::joined_none), unfolding(crate::specs::Shown::plain_action))]
fn add_set(out: &mut Vec<Action>, assignment: Option<Assignment>) -> Result<(), OutOfMemory>
    ensures { OnOk result (actions_of out.new.items
        ≡ joined (actions_of out.old.items) (resolve.maybe_sets (option_map plain_assignment assignment))) }
{
    match assignment {
        None => Ok(()),
        Some(assignment) => add(out, Action::Set { assignment }),
    }
}

// a call of a function, with what is set to what it gives
#[tactic(auto, unfolding(crate::specs::Shown::plain_action, sp_tree::specs::Plain::plain_sp))]
fn add_call(
    out: &mut Vec<Action>,
    function: Option<usize>,
    args: List<SpExpr>,
    target: Option<Target>,
) -> Result<(), OutOfMemory>
    requires number { IfSome function (λ n. n < 2 ^ 32) }
    requires few { length args ≤ MOST_PARAMETERS }
    ensures { OnOk result (actions_of out.new.items
        ≡ joined (actions_of out.old.items)
        (resolve.numbered_call function (map plain_sp args) (option_map plain_target target))) }
{
    match function {
        None => add_set(out, assignment_to(target, SpExpr::Const { value: 0 })),
        Some(number) => {
            let args = Arguments { values: args };
            add(
                out,
                Action::Call {
                    function: number as u32,
                    args,
                    target,
                },
            )
        }
    }
}

// a right side, and what is set to it
fn add_right(
    alloc: Global,
    scope: &Scope<'_>,
    fresh: Option<usize>,
    out: &mut Vec<Action>,
    target: Option<Target>,
    right: &Right,
) -> Result<(), OutOfMemory>
    requires { RightFits (plain_right right.now) }
    ensures { OnOk result (actions_of out.new.items ≡ joined (actions_of out.old.items)
        (resolve.resolved_right (functions_of scope.now) (names_of scope.now) fresh (option_map plain_target target)
        (plain_right right.now))) }
{
    match right {
        Right::Value { of } => {
            let Operand { value, .. } = expression(alloc, scope, fresh, of)?;
            add_set(out, assignment_to(target, value))
        }
        Right::Call { name, args } => {
            let args = arguments(alloc, scope, fresh, args.as_slice())?;
            add_call(out, scope.function(name.as_str()), args, target)
        }
    }
}

/// Whether a type is unsigned.
pub fn is_unsigned(kind: Kind) -> bool
    ensures { result ≡ layout.is_unsigned kind }
{
    match kind {
        Kind::Int => false,
        Kind::Unsigned | Kind::UnsignedInt => true,
    }
}

// a declaration: its name stands in its own first value, where it is 0
#[tactic(auto, unfolding(sp_tree::specs::Plain::plain_sp))]
fn declare<'a>(
    alloc: Global,
    scope: &mut Scope<'a>,
    out: &mut Vec<Action>,
    kind: Kind,
    name: &'a Text,
    value: &Option<Right>,
) -> Result<(), OutOfMemory>
    requires room { length (names_of scope.old).variables < MOST_LEVELS }
    requires first { FirstFits (option_map plain_right value.now) }
    ensures actions { OnOk result (actions_of out.new.items ≡ joined (actions_of out.old.items)
        (resolve.resolved_declaration (functions_of scope.old) (with_variable (names_of scope.old) kind name.now)
        (length (names_of scope.old).variables)
        (option_map plain_right value.now))) }
    ensures names { OnOk result (names_of scope.new ≡ with_variable (names_of scope.old) kind name.now) }
    ensures functions { OnOk result (functions_of scope.new ≡ functions_of scope.old) }
{
    let at = scope.len();
    scope.declare(name.as_str(), is_unsigned(kind))?;
    let target = level_target(at);
    match value {
        None => add_set(out, assignment_to(Some(target), SpExpr::Const { value: 0 })),
        Some(right) => add_right(alloc, scope, Some(at), out, Some(target), right),
    }
}

// a variable that a `for` sets
fn assigned(
    alloc: Global,
    scope: &Scope<'_>,
    name: &Text,
    e: &Expr,
) -> Result<Option<Assignment>, OutOfMemory>
    ensures { IfOk result (λ a. option_map plain_assignment a
        ≡ resolve.resolved_assignment (names_of scope.now) name.now (plain_expr e.now)) }
{
    let target = variable_target(scope.find(name.as_str()));
    let value = value_of(alloc, scope, e)?;
    Ok(assignment_to(target, value))
}

fn begin(alloc: Global, scope: &Scope<'_>, head: &Head) -> Result<Option<Assignment>, OutOfMemory>
    ensures { IfOk result (λ a. option_map plain_assignment a
        ≡ resolve.resolved_begin (names_of scope.now) (plain_head head.now)) }
{
    match head {
        Head::While { .. } => Ok(None),
        Head::For { first, from, .. } => assigned(alloc, scope, first, from),
    }
}

fn next(alloc: Global, scope: &Scope<'_>, head: &Head) -> Result<Option<Assignment>, OutOfMemory>
    ensures { IfOk result (λ a. option_map plain_assignment a
        ≡ resolve.resolved_next (names_of scope.now) (plain_head head.now)) }
{
    match head {
        Head::While { .. } => Ok(None),
        Head::For { step, to, .. } => assigned(alloc, scope, step, to),
    }
}

fn condition_of(alloc: Global, scope: &Scope<'_>, head: &Head) -> Result<SpExpr, OutOfMemory>
    ensures { IfOk result (λ e. plain_sp e ≡ resolve.resolved_condition (names_of scope.now) (plain_head head.now)) }
{
    match head {
        Head::While { condition } | Head::For { condition, .. } => value_of(
            alloc, scope, condition,
        ),
    }
}

fn most_iterations(bound: Option<Bound>) -> u32
    ensures { result ≡ meaning.most_iterations bound }
{
    match bound {
        None => 0,
        Some(bound) => bound.max,
    }
}

#[tactic(auto, unfolding(sp_tree::specs::Plain::plain_sp))]
fn returned(alloc: Global, scope: &Scope<'_>, value: &Option<Expr>) -> Result<SpExpr, OutOfMemory>
    ensures { IfOk result (λ e. plain_sp e
        ≡ resolve.resolved_return (names_of scope.now) (option_map plain_expr value.now)) }
{
    match value {
        None => Ok(SpExpr::Const { value: 0 }),
        Some(e) => value_of(alloc, scope, e),
    }
}

fn set_element(
    alloc: Global,
    scope: &Scope<'_>,
    out: &mut Vec<Action>,
    name: &Text,
    index: &Expr,
    right: &Right,
) -> Result<(), OutOfMemory>
    requires { RightFits (plain_right right.now) }
    ensures { OnOk result (actions_of out.new.items ≡ joined (actions_of out.old.items)
        (resolve.resolved_stmt (functions_of scope.now) (names_of scope.now)
        (tree.set_element name.now (plain_expr index.now) (plain_right right.now)))) }
{
    let index = value_of(alloc, scope, index)?;
    let target = element_target(scope.find(name.as_str()), index);
    add_right(alloc, scope, None, out, target, right)
}

// a send of words to another core
#[tactic(auto, unfolding(crate::specs::Shown::plain_action))]
fn sent(
    alloc: Global,
    scope: &Scope<'_>,
    core: u32,
    source: &Expr,
    target: &Expr,
    count: &Expr,
) -> Result<Action, OutOfMemory>
    ensures { IfOk result (λ a. plain_action a
        ≡ plain.transfers core (resolve.resolved (names_of scope.now) None (plain_expr source.now))
        (resolve.resolved (names_of scope.now) None (plain_expr target.now))
        (resolve.resolved (names_of scope.now) None (plain_expr count.now))) }
{
    let source = value_of(alloc, scope, source)?;
    let target = value_of(alloc, scope, target)?;
    let count = value_of(alloc, scope, count)?;
    Ok(Action::Send {
        core,
        source,
        target,
        count,
    })
}

// actions after others
#[tactic(auto, using(crate::proofs::Acted::actions_append))]
fn add_all(out: &mut Vec<Action>, actions: List<Action>) -> Result<(), OutOfMemory>
    ensures { OnOk result (actions_of out.new.items ≡ joined (actions_of out.old.items) (actions_of actions)) }
{
    let mut actions = actions.into_vec();
    out.append(&mut actions)?;
    Ok(())
}

// a choice between branches, or else these; under no condition these alone
#[tactic(auto, using(crate::proofs::Acted::chosen_none, crate::proofs::Acted::chosen_some))]
fn add_choice(
    out: &mut Vec<Action>,
    branches: List<Branch>,
    otherwise: List<Action>,
) -> Result<(), OutOfMemory>
    ensures { OnOk result (actions_of out.new.items
        ≡ joined (actions_of out.old.items) (resolve.choice (branches_of branches) (actions_of otherwise))) }
{
    if branches.as_slice().is_empty() {
        return add_all(out, otherwise);
    }
    add(
        out,
        Action::Choose {
            branches,
            otherwise,
        },
    )
}

/// A statement.
#[cycle(statement)]
#[tactic(auto, using(crate::proofs::Fitting::set_fits, crate::proofs::Fitting::set_element_fits, crate::proofs::StmtParts::set_named, crate::proofs::StmtParts::set_element_named, crate::proofs::StmtParts::call_named, crate::proofs::StmtParts::send_named, crate::proofs::StmtParts::if_named, crate::proofs::StmtParts::loop_named, crate::proofs::StmtParts::break_named, crate::proofs::StmtParts::continue_named, crate::proofs::StmtParts::return_named))]
fn stmt<'a>(
    alloc: Global,
    scope: &mut Scope<'a>,
    out: &mut Vec<Action>,
    s: &'a Stmt,
) -> Result<(), OutOfMemory>
    requires { StmtFits (names_of scope.old) (plain_stmt s.now) }
    ensures actions { OnOk result (actions_of out.new.items ≡ joined (actions_of out.old.items)
        (resolve.resolved_stmt (functions_of scope.old) (names_of scope.old) (plain_stmt s.now))) }
    ensures names { OnOk result (names_of scope.new ≡ names_after (names_of scope.old) (plain_stmt s.now)) }
    ensures functions { OnOk result (functions_of scope.new ≡ functions_of scope.old) }
{
    match s {
        Stmt::Declare { kind, name, right } => declare(alloc, scope, out, *kind, name, right),
        Stmt::Set { name, right } => {
            let target = variable_target(scope.find(name.as_str()));
            add_right(alloc, scope, None, out, target, right)
        }
        Stmt::SetElement { name, index, right } => {
            set_element(alloc, scope, out, name, index, right)
        }
        Stmt::Call { name, args } => {
            let args = arguments(alloc, scope, None, args.as_slice())?;
            add_call(out, scope.function(name.as_str()), args, None)
        }
        Stmt::Send {
            core,
            source,
            target,
            count,
            ..
        } => {
            let action = sent(alloc, scope, *core, source, target, count)?;
            add(out, action)
        }
        Stmt::If { arms, otherwise } => {
            let branches = branches(alloc, scope, arms.as_slice())?;
            match otherwise {
                None => add_choice(out, branches, List::of(Vec::new(alloc))),
                Some(body) => {
                    let otherwise = block(alloc, scope, body.as_slice())?;
                    add_choice(out, branches, otherwise)
                }
            }
        }
        Stmt::Loop { bound, head, body } => {
            repeat(alloc, scope, out, *bound, head, body.as_slice())
        }
        Stmt::Break => add(out, Action::Break),
        Stmt::Continue => add(out, Action::Continue),
        Stmt::Return { value } => {
            let value = returned(alloc, scope, value)?;
            add(out, Action::Return { value })
        }
        Stmt::Inner { body } => {
            let outer = scope.len();
            statements(alloc, scope, out, body.as_slice())?;
            scope.close(outer);
            Ok(())
        }
    }
}

// a loop, and what is set before its first iteration
#[cycle(statement)]
#[tactic(auto)]
fn repeat<'a>(
    alloc: Global,
    scope: &mut Scope<'a>,
    out: &mut Vec<Action>,
    bound: Option<Bound>,
    head: &'a Head,
    body: &'a [Stmt],
) -> Result<(), OutOfMemory>
    requires { BlockFits (names_of scope.old) (block_of body.now) }
    ensures actions { OnOk result (actions_of out.new.items ≡ joined (actions_of out.old.items)
        (resolve.resolved_stmt (functions_of scope.old) (names_of scope.old)
        (tree.looped bound (plain_head head.now) (block_of body.now)))) }
    ensures names { OnOk result (names_of scope.new ≡ names_of scope.old) }
    ensures functions { OnOk result (functions_of scope.new ≡ functions_of scope.old) }
{
    let first = begin(alloc, scope, head)?;
    add_set(out, first)?;
    let condition = condition_of(alloc, scope, head)?;
    let step = next(alloc, scope, head)?;
    let body = block(alloc, scope, body)?;
    let max = most_iterations(bound);
    add(
        out,
        Action::Loop {
            max,
            condition,
            body,
            step,
        },
    )
}

/// Statements one after another. The names that they declare stay open.
#[cycle(statement)]
#[tactic(auto)]
pub fn statements<'a>(
    alloc: Global,
    scope: &mut Scope<'a>,
    out: &mut Vec<Action>,
    body: &'a [Stmt],
) -> Result<(), OutOfMemory>
    requires { BlockFits (names_of scope.old) (block_of body.now) }
    ensures actions { OnOk result (actions_of out.new.items ≡ joined (actions_of out.old.items)
        (resolve.resolved_block (functions_of scope.old) (names_of scope.old) (block_of body.now))) }
    ensures kept { OnOk result (closed (length (names_of scope.old).variables) (names_of scope.new)
        ≡ names_of scope.old) }
    ensures functions { OnOk result (functions_of scope.new ≡ functions_of scope.old) }
{
    for s in body {
        stmt(alloc, scope, out, s)?;
    }
    Ok(())
}

// a block by itself, whose names are closed at its end
#[cycle(statement)]
#[tactic(auto)]
fn block<'a>(
    alloc: Global,
    scope: &mut Scope<'a>,
    body: &'a [Stmt],
) -> Result<List<Action>, OutOfMemory>
    requires { BlockFits (names_of scope.old) (block_of body.now) }
    ensures actions { IfOk result (λ r. actions_of r
        ≡ resolve.resolved_block (functions_of scope.old) (names_of scope.old) (block_of body.now)) }
    ensures names { OnOk result (names_of scope.new ≡ names_of scope.old) }
    ensures functions { OnOk result (functions_of scope.new ≡ functions_of scope.old) }
{
    let outer = scope.len();
    let mut actions = Vec::new(alloc);
    statements(alloc, scope, &mut actions, body)?;
    scope.close(outer);
    Ok(List::of(actions))
}

#[cycle(statement)]
#[tactic(auto)]
fn branches<'a>(
    alloc: Global,
    scope: &mut Scope<'a>,
    arms: &'a [Arm],
) -> Result<List<Branch>, OutOfMemory>
    requires { ArmsFit (names_of scope.old) (arms_of arms.now) }
    ensures branches { IfOk result (λ r. branches_of r
        ≡ resolve.resolved_arms (functions_of scope.old) (names_of scope.old) (arms_of arms.now)) }
    ensures names { OnOk result (names_of scope.new ≡ names_of scope.old) }
    ensures functions { OnOk result (functions_of scope.new ≡ functions_of scope.old) }
{
    let mut branches = Vec::new(alloc);
    for arm in arms {
        let condition = value_of(alloc, scope, &arm.condition)?;
        let body = block(alloc, scope, arm.body.as_slice())?;
        branches.push(Branch { condition, body })?;
    }
    Ok(List::of(branches))
}
