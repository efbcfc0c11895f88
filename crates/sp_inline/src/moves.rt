//! Expressions and statements over the words of a frame from a place on.
ghost use Rattle.std.specs.Prelude.{◌≡◌, ◌+◌, ◌<◌, ◌^◌, map, IfOk, OnOk};
ghost use Rattle.sp_tree.specs.Plain.{plain_sp};
ghost use Rattle.sp_tree.specs.Shown.{plain_sp_target, plain_stmt, stmts_of};
ghost use Rattle.sp_tree.specs.Statements.{joined, iterations};
ghost use Rattle.sp_inline.specs.Moved as specs;
ghost use Rattle.sp_inline.specs.Reach.{expr_reach, args_reach, target_reach, result_reach, stmt_reach, stmts_reach};

use sp_tree::{SpExpr, SpStmt, SpTarget, before_operand, between_operands, indexed};
use std::alloc::Global;
use tc_word::{List, OutOfMemory};

/// An expression over the words from a place on.
#[tactic(auto, unfolding(sp_tree::specs::Plain::plain_sp))]
fn moved(alloc: Global, place: u32, e: &SpExpr) -> Result<SpExpr, OutOfMemory>
    requires { place + expr_reach (plain_sp e.now) < 2 ^ 32 }
    ensures { IfOk result (λ m. plain_sp m ≡ specs.moved place (plain_sp e.now)) }
{
    match e {
        SpExpr::Const { value } => Ok(SpExpr::Const { value: *value }),
        SpExpr::Frame { slot } => Ok(SpExpr::Frame {
            slot: place + *slot,
        }),
        SpExpr::Scalar { cell } => Ok(SpExpr::Scalar { cell: *cell }),
        SpExpr::Element { array, index } => {
            let index = moved(alloc, place, index)?;
            indexed(alloc, *array, index)
        }
        SpExpr::Unary { op, of } => {
            let of = moved(alloc, place, of)?;
            before_operand(alloc, *op, of)
        }
        SpExpr::Binary { op, a, b } => {
            let a = moved(alloc, place, a)?;
            let b = moved(alloc, place, b)?;
            between_operands(alloc, *op, a, b)
        }
    }
}

fn moved_target(alloc: Global, place: u32, target: &SpTarget) -> Result<SpTarget, OutOfMemory>
    requires { place + target_reach (plain_sp_target target.now) < 2 ^ 32 }
    ensures { IfOk result (λ t. plain_sp_target t ≡ specs.target_moved place (plain_sp_target target.now)) }
{
    match target {
        SpTarget::Frame { slot } => Ok(SpTarget::Frame {
            slot: place + *slot,
        }),
        SpTarget::Scalar { cell } => Ok(SpTarget::Scalar { cell: *cell }),
        SpTarget::Element { array, index } => {
            let index = moved(alloc, place, index)?;
            Ok(SpTarget::Element {
                array: *array,
                index,
            })
        }
    }
}

fn moved_arguments(alloc: Global, place: u32, args: &[SpExpr]) -> Result<List<SpExpr>, OutOfMemory>
    requires { place + args_reach (map plain_sp args.now) < 2 ^ 32 }
    ensures { IfOk result (λ r. map plain_sp r ≡ specs.args_moved place (map plain_sp args.now)) }
{
    let mut values = Vec::new(alloc);
    for e in args {
        let e = moved(alloc, place, e)?;
        values.push(e)?;
    }
    Ok(List::of(values))
}

// a word that may be set
fn moved_result(place: u32, given: Option<u32>) -> Option<u32>
    requires { place + result_reach given < 2 ^ 32 }
    ensures { result ≡ specs.result_moved place given }
{
    match given {
        None => None,
        Some(slot) => Some(place + slot),
    }
}

// ---- statements

/// A statement over the words from a place on.
#[cycle(moving)]
#[tactic(auto, unfolding(sp_tree::specs::Shown::plain_stmt))]
pub fn moved_statement(alloc: Global, place: u32, t: &SpStmt) -> Result<SpStmt, OutOfMemory>
    requires { place + stmt_reach (plain_stmt t.now) < 2 ^ 32 }
    ensures { IfOk result (λ m. plain_stmt m ≡ specs.stmt_moved place (plain_stmt t.now)) }
{
    match t {
        SpStmt::Mask { slot, value } => Ok(SpStmt::Mask {
            slot: place + *slot,
            value: moved(alloc, place, value)?,
        }),
        SpStmt::Write {
            mask,
            target,
            value,
        } => Ok(SpStmt::Write {
            mask: place + *mask,
            target: moved_target(alloc, place, target)?,
            value: moved(alloc, place, value)?,
        }),
        SpStmt::Call {
            mask,
            function,
            args,
            result: given,
        } => Ok(SpStmt::Call {
            mask: place + *mask,
            function: *function,
            args: moved_arguments(alloc, place, args.as_slice())?,
            result: moved_result(place, *given),
        }),
        SpStmt::Send {
            mask,
            core,
            source,
            target,
            count,
        } => Ok(SpStmt::Send {
            mask: place + *mask,
            core: *core,
            source: moved(alloc, place, source)?,
            target: moved(alloc, place, target)?,
            count: moved(alloc, place, count)?,
        }),
        SpStmt::Overrun { mask, value } => Ok(SpStmt::Overrun {
            mask: place + *mask,
            value: moved(alloc, place, value)?,
        }),
        SpStmt::Iterations { count, body } => moved_iterations(
            alloc,
            place,
            *count,
            body.as_slice(),
        ),
    }
}

#[cycle(moving)]
#[tactic(auto, using(sp_tree::proofs::Forms::plain_iterations))]
fn moved_iterations(
    alloc: Global,
    place: u32,
    count: u32,
    body: &[SpStmt],
) -> Result<SpStmt, OutOfMemory>
    requires { place + stmts_reach (stmts_of body.now) < 2 ^ 32 }
    ensures { IfOk result (λ m. plain_stmt m ≡ iterations count (specs.stmts_moved place (stmts_of body.now))) }
{
    let mut inner = Vec::new(alloc);
    add_moved(alloc, place, &mut inner, body)?;
    Ok(SpStmt::Iterations {
        count,
        body: List::of(inner),
    })
}

/// Statements over the words from a place on, after others.
#[cycle(moving)]
#[tactic(auto, using(crate::proofs::Parts::next_moved, crate::proofs::Parts::none_moved))]
pub fn add_moved(
    alloc: Global,
    place: u32,
    out: &mut Vec<SpStmt>,
    body: &[SpStmt],
) -> Result<(), OutOfMemory>
    requires { place + stmts_reach (stmts_of body.now) < 2 ^ 32 }
    ensures { OnOk result (stmts_of out.new.items
        ≡ joined (stmts_of out.old.items) (specs.stmts_moved place (stmts_of body.now))) }
{
    for t in body {
        let t = moved_statement(alloc, place, t)?;
        out.push(t)?;
    }
    Ok(())
}
