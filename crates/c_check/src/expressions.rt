//! Faults of expressions.
ghost use Rattle.std.specs.Prelude.{◌≡◌, ◌+◌, map, sum_by, OnOk};
ghost use Rattle.c_tree.specs.Least.{least_with};
ghost use Rattle.c_tree.specs.Sizes.{expr_size, steps_size, argument_size, call_size, right_size};
ghost use Rattle.c_tree.specs.Plain.{plain_expr, plain_right};
ghost use Rattle.c_tree.specs.Plains.{steps_of};
ghost use Rattle.c_tree.specs.Checks as faults;
ghost use Rattle.c_tree.specs.Names.{found};
ghost use Rattle.c_check.specs.Open.{names_of};

use crate::depths::is_deep;
use crate::names::Names;
use crate::walk::Walk;
use c_tree::{CheckFault, Expr, Meaning, Right, Step};
use tc_word::{OutOfMemory, Text};

/// The name of a variable.
pub fn scalar(names: &Names<'_>, walk: &mut Walk, name: &Text)
    ensures at { walk.new.at ≡ walk.old.at }
    ensures least { walk.new.least
        ≡ least_with walk.old.least (faults.scalar_faults (names_of names.now) walk.old.at name.now) }
{
    match names.find(name.as_str()) {
        None => walk.note(CheckFault::Unknown),
        Some(Meaning::Scalar) => {}
        Some(_) => walk.note(CheckFault::WrongType),
    }
}

/// The name of an array.
pub fn array(names: &Names<'_>, walk: &mut Walk, name: &Text)
    ensures at { walk.new.at ≡ walk.old.at }
    ensures least { walk.new.least
        ≡ least_with walk.old.least (faults.array_faults (names_of names.now) walk.old.at name.now) }
{
    match names.find(name.as_str()) {
        None => walk.note(CheckFault::Unknown),
        Some(Meaning::Array) => {}
        Some(_) => walk.note(CheckFault::WrongType),
    }
}

// the name of a function that is called with so many arguments, where a right side wants a value
fn callee(names: &Names<'_>, walk: &mut Walk, is_right: bool, name: &Text, arguments: usize)
    ensures at { walk.new.at ≡ walk.old.at }
    ensures least { walk.new.least ≡ least_with walk.old.least
        (faults.callee_faults is_right walk.old.at arguments (found name.now (names_of names.now))) }
{
    match names.find(name.as_str()) {
        None => walk.note(CheckFault::Unknown),
        Some(
            Meaning::Function {
                parameters,
                gives,
                inside,
            },
        ) => {
            walk.note_if(is_right && !gives, CheckFault::WrongType);
            walk.note_if(inside, CheckFault::Recursion);
            walk.note_if(arguments != parameters, CheckFault::Params);
        }
        Some(_) => walk.note(CheckFault::WrongType),
    }
}

#[cycle(expression)]
#[tactic(auto, using(crate::proofs::ExprRows::expression_rows))]
fn expr(names: &Names<'_>, walk: &mut Walk, e: &Expr) -> Result<(), OutOfMemory>
    ensures at { OnOk result (walk.new.at ≡ walk.old.at + expr_size (plain_expr e.now)) }
    ensures least { OnOk result (walk.new.least
        ≡ least_with walk.old.least (faults.expr_faults (names_of names.now) walk.old.at (plain_expr e.now))) }
{
    match e {
        Expr::Chain { first, rest, .. } => {
            expr(names, walk, first)?;
            steps(names, walk, rest.as_slice())
        }
        Expr::Unary { ops, of } => {
            walk.pass(ops.as_slice().len())?;
            expr(names, walk, of)
        }
        Expr::Number { .. } => walk.pass(1),
        Expr::Name { name } => {
            scalar(names, walk, name);
            walk.pass(1)
        }
        Expr::Element { name, index } => {
            array(names, walk, name);
            walk.pass(2)?;
            expr(names, walk, index)?;
            walk.pass(1)
        }
        Expr::Paren { inner } => {
            walk.pass(1)?;
            expr(names, walk, inner)?;
            walk.pass(1)
        }
    }
}

#[cycle(expression)]
#[tactic(auto, using(crate::proofs::Next::chain_next), unfolding(c_tree::specs::Checks::steps_faults))]
fn steps(names: &Names<'_>, walk: &mut Walk, steps: &[Step]) -> Result<(), OutOfMemory>
    ensures at { OnOk result (walk.new.at ≡ walk.old.at + steps_size (steps_of steps.now)) }
    ensures least { OnOk result (walk.new.least
        ≡ least_with walk.old.least (faults.steps_faults (names_of names.now) walk.old.at (steps_of steps.now))) }
{
    for step in steps {
        walk.pass(1)?;
        expr(names, walk, &step.operand)?;
    }
    Ok(())
}

/// An expression by itself.
#[tactic(auto, using(c_tree::proofs::Leasts::least_of_both))]
pub fn whole(names: &Names<'_>, walk: &mut Walk, e: &Expr) -> Result<(), OutOfMemory>
    ensures at { OnOk result (walk.new.at ≡ walk.old.at + expr_size (plain_expr e.now)) }
    ensures least { OnOk result (walk.new.least
        ≡ least_with walk.old.least (faults.whole_faults (names_of names.now) walk.old.at (plain_expr e.now))) }
{
    walk.note_if(is_deep(e), CheckFault::Deep);
    expr(names, walk, e)
}

/// An argument, and the token after it.
pub fn argument(names: &Names<'_>, walk: &mut Walk, e: &Expr) -> Result<(), OutOfMemory>
    ensures at { OnOk result (walk.new.at ≡ walk.old.at + argument_size (plain_expr e.now)) }
    ensures least { OnOk result (walk.new.least
        ≡ least_with walk.old.least (faults.whole_faults (names_of names.now) walk.old.at (plain_expr e.now))) }
{
    whole(names, walk, e)?;
    walk.pass(1)
}

// arguments, and one token after each
#[tactic(auto, using(crate::proofs::Next::args_next, crate::proofs::Sums::args_sized))]
fn arguments(names: &Names<'_>, walk: &mut Walk, args: &[Expr]) -> Result<(), OutOfMemory>
    ensures at { OnOk result (walk.new.at ≡ walk.old.at + sum_by argument_size (map plain_expr args.now)) }
    ensures least { OnOk result (walk.new.least
        ≡ least_with walk.old.least (faults.args_faults (names_of names.now) walk.old.at (map plain_expr args.now))) }
{
    for e in args {
        argument(names, walk, e)?;
    }
    Ok(())
}

/// A call, where a right side wants a value.
#[tactic(auto, using(c_tree::proofs::Leasts::least_of_both))]
pub fn call(
    names: &Names<'_>,
    walk: &mut Walk,
    is_right: bool,
    name: &Text,
    args: &[Expr],
) -> Result<(), OutOfMemory>
    ensures at { OnOk result (walk.new.at ≡ walk.old.at + call_size (map plain_expr args.now)) }
    ensures least { OnOk result (walk.new.least
        ≡ least_with walk.old.least (faults.call_faults is_right (names_of names.now) walk.old.at name.now
        (map plain_expr args.now))) }
{
    callee(names, walk, is_right, name, args.len());
    walk.pass(2)?;
    if args.is_empty() {
        return walk.pass(1);
    }
    arguments(names, walk, args)?;
    Ok(())
}

/// What is assigned.
pub fn right(names: &Names<'_>, walk: &mut Walk, r: &Right) -> Result<(), OutOfMemory>
    ensures at { OnOk result (walk.new.at ≡ walk.old.at + right_size (plain_right r.now)) }
    ensures least { OnOk result (walk.new.least
        ≡ least_with walk.old.least (faults.right_faults (names_of names.now) walk.old.at (plain_right r.now))) }
{
    match r {
        Right::Value { of } => whole(names, walk, of),
        Right::Call { name, args } => call(names, walk, true, name, args.as_slice()),
    }
}
