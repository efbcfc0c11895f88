//! Expressions, made of others.
ghost use Rattle.std.specs.Prelude.{◌≡◌, IfOk};
ghost use Rattle.sp_tree.specs.Plain.{plain_sp, array_word, before_one, between_two};

use crate::expressions::{SpArray, SpExpr};
use crate::operators::{SpBinary, SpUnary};
use std::alloc::Global;
use tc_word::OutOfMemory;

/// An element of an array. It is `Err` where memory runs out.
#[tactic(auto, using(crate::proofs::Boxes::plain_element))]
pub fn indexed(alloc: Global, array: SpArray, index: SpExpr) -> Result<SpExpr, OutOfMemory>
    ensures { IfOk result (λ e. plain_sp e ≡ array_word array (plain_sp index)) }
{
    let index = Box::new(alloc, index)?;
    Ok(SpExpr::Element { array, index })
}

/// An operator before an operand. It is `Err` where memory runs out.
#[tactic(auto, using(crate::proofs::Boxes::plain_unary))]
pub fn before_operand(alloc: Global, op: SpUnary, of: SpExpr) -> Result<SpExpr, OutOfMemory>
    ensures { IfOk result (λ e. plain_sp e ≡ before_one op (plain_sp of)) }
{
    let of = Box::new(alloc, of)?;
    Ok(SpExpr::Unary { op, of })
}

/// An operator between operands. It is `Err` where memory runs out.
#[tactic(auto, using(crate::proofs::Boxes::plain_binary))]
pub fn between_operands(
    alloc: Global,
    op: SpBinary,
    a: SpExpr,
    b: SpExpr,
) -> Result<SpExpr, OutOfMemory>
    ensures { IfOk result (λ e. plain_sp e ≡ between_two op (plain_sp a) (plain_sp b)) }
{
    let a = Box::new(alloc, a)?;
    let b = Box::new(alloc, b)?;
    Ok(SpExpr::Binary { op, a, b })
}

/// A copy of an expression. It is `Err` where memory runs out.
#[tactic(auto, unfolding(crate::specs::Plain::plain_sp))]
pub fn copied(alloc: Global, e: &SpExpr) -> Result<SpExpr, OutOfMemory>
    ensures { IfOk result (λ c. plain_sp c ≡ plain_sp e.now) }
{
    match e {
        SpExpr::Const { value } => Ok(SpExpr::Const { value: *value }),
        SpExpr::Frame { slot } => Ok(SpExpr::Frame { slot: *slot }),
        SpExpr::Scalar { cell } => Ok(SpExpr::Scalar { cell: *cell }),
        SpExpr::Element { array, index } => {
            let index = copied(alloc, index)?;
            indexed(alloc, *array, index)
        }
        SpExpr::Unary { op, of } => {
            let of = copied(alloc, of)?;
            before_operand(alloc, *op, of)
        }
        SpExpr::Binary { op, a, b } => {
            let a = copied(alloc, a)?;
            let b = copied(alloc, b)?;
            between_operands(alloc, *op, a, b)
        }
    }
}
