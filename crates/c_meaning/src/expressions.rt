//! Names of expressions, resolved.
ghost use Rattle.std.specs.Prelude.{◌≡◌, length, map, IfOk};
ghost use Rattle.c_tree.specs.Plain.{plain_expr};
ghost use Rattle.c_tree.specs.Plains.{steps_of};
ghost use Rattle.sp_tree.specs.Plain.{plain_sp};
ghost use Rattle.c_meaning.specs.Fits.{StandsFits};
ghost use Rattle.c_meaning.specs.Entries.{found_shown};
ghost use Rattle.c_meaning.specs.Open.{names_of};
ghost use Rattle.c_meaning.specs.Resolve as resolve;
ghost use Rattle.c_meaning.specs.Scope as scope_specs;
ghost use Rattle.c_meaning.specs.Values.{expr_unsigned, steps_unsigned};

use crate::operators::{between, gives_unsigned, signs, signs_unsigned, works_unsigned};
use crate::scopes::{Found, Scope};
use c_tree::{Expr, Slot, Step};
use c_world::Region;
use local_store::Cell;
use sp_tree::{SpArray, SpCell, SpExpr, indexed};
use std::alloc::Global;
use tc_word::{List, OutOfMemory};

/// A resolved expression, and whether it is unsigned.
#[derive(Debug, Drop)]
pub struct Operand {
    pub value: SpExpr,
    pub unsigned: bool,
}

/// Where the words of a slot begin.
pub fn cell_of(slot: &Slot) -> SpCell
    ensures { result ≡ resolve.slot_cell slot.now }
{
    match slot.cell {
        Cell::Scratch(word) => SpCell {
            region: Region::Scratch,
            word,
        },
        Cell::Comm(word) => SpCell {
            region: Region::Comm,
            word,
        },
        Cell::Port { .. } => SpCell {
            region: Region::Scratch,
            word: 0,
        },
        Cell::Private(word) => SpCell {
            region: Region::Private,
            word,
        },
        Cell::Shared(word) => SpCell {
            region: Region::Shared,
            word,
        },
    }
}

/// The words of a slot.
pub fn array_of(slot: &Slot) -> SpArray
    ensures { result ≡ resolve.slot_array slot.now }
{
    let cell = cell_of(slot);
    SpArray {
        region: cell.region,
        first: cell.word,
        length: slot.length,
    }
}

// whether the variable of a level is known to be 0
fn is_fresh(fresh: Option<usize>, at: usize) -> bool
    ensures { result ≡ resolve.is_fresh fresh at }
{
    match fresh {
        None => false,
        Some(level) => level == at,
    }
}

// the variable that a name stands for
#[tactic(auto, unfolding(sp_tree::specs::Plain::plain_sp))]
fn variable(fresh: Option<usize>, found: Found<'_>) -> Operand
    requires { StandsFits (found_shown found) }
    ensures value { plain_sp result.value ≡ resolve.resolved_variable fresh (found_shown found.entry) }
    ensures unsigned { result.unsigned ≡ scope_specs.stands_unsigned (found_shown found.entry) }
{
    match found {
        Found::Variable { at, unsigned } => {
            let value = if is_fresh(fresh, at) {
                SpExpr::Const { value: 0 }
            } else {
                SpExpr::Frame { slot: at as u32 }
            };
            Operand { value, unsigned }
        }
        Found::Outside { slot } => Operand {
            value: SpExpr::Scalar {
                cell: cell_of(slot),
            },
            unsigned: slot.unsigned,
        },
        Found::Nothing => Operand {
            value: SpExpr::Const { value: 0 },
            unsigned: false,
        },
    }
}

// the element of what a name stands for
#[tactic(auto, unfolding(sp_tree::specs::Plain::plain_sp))]
fn element(alloc: Global, found: Found<'_>, index: SpExpr) -> Result<Operand, OutOfMemory>
    ensures value { IfOk result (λ r. plain_sp r.value
        ≡ resolve.resolved_element (found_shown found.entry) (plain_sp index)) }
    ensures unsigned { IfOk result (λ r. r.unsigned ≡ scope_specs.stands_unsigned (found_shown found.entry)) }
{
    match found {
        Found::Outside { slot } => Ok(Operand {
            value: indexed(alloc, array_of(slot), index)?,
            unsigned: slot.unsigned,
        }),
        Found::Variable { unsigned, .. } => Ok(Operand {
            value: SpExpr::Const { value: 0 },
            unsigned,
        }),
        Found::Nothing => Ok(Operand {
            value: SpExpr::Const { value: 0 },
            unsigned: false,
        }),
    }
}

/// An expression, where the variable of a level may be known to be 0.
#[cycle(expression)]
#[tactic(auto, using(crate::proofs::Parts::chain_resolved, crate::proofs::Parts::chain_typed, crate::proofs::Parts::unary_resolved, crate::proofs::Parts::unary_typed, crate::proofs::Parts::number_resolved, crate::proofs::Parts::number_typed, crate::proofs::Parts::name_resolved, crate::proofs::Parts::name_typed, crate::proofs::Parts::element_resolved, crate::proofs::Parts::element_typed, crate::proofs::Parts::paren_resolved, crate::proofs::Parts::paren_typed), unfolding(sp_tree::specs::Plain::plain_sp))]
pub fn expression(
    alloc: Global,
    scope: &Scope<'_>,
    fresh: Option<usize>,
    e: &Expr,
) -> Result<Operand, OutOfMemory>
    ensures value { IfOk result (λ r. plain_sp r.value
        ≡ resolve.resolved (names_of scope.now) fresh (plain_expr e.now)) }
    ensures unsigned { IfOk result (λ r. r.unsigned ≡ expr_unsigned (names_of scope.now) (plain_expr e.now)) }
{
    match e {
        Expr::Chain { first, rest, .. } => {
            let first = expression(alloc, scope, fresh, first)?;
            steps(alloc, scope, fresh, first, rest.as_slice())
        }
        Expr::Unary { ops, of } => {
            let Operand { value, unsigned } = expression(alloc, scope, fresh, of)?;
            Ok(Operand {
                value: signs(alloc, ops.as_slice(), value)?,
                unsigned: signs_unsigned(ops.as_slice(), unsigned),
            })
        }
        Expr::Number { value, unsigned } => Ok(Operand {
            value: SpExpr::Const { value: *value },
            unsigned: *unsigned,
        }),
        Expr::Name { name } => { Ok(variable(fresh, scope.find(name.as_str()))) }
        Expr::Element { name, index } => {
            let Operand { value, .. } = expression(alloc, scope, fresh, index)?;
            let named = element(alloc, scope.find(name.as_str()), value)?;
            Ok(named)
        }
        Expr::Paren { inner } => expression(alloc, scope, fresh, inner),
    }
}

// operators of one level, from the left
#[cycle(expression)]
#[tactic(auto, using(crate::proofs::Parts::steps_resolved_next, crate::proofs::Parts::steps_typed_next))]
fn steps(
    alloc: Global,
    scope: &Scope<'_>,
    fresh: Option<usize>,
    first: Operand,
    steps: &[Step],
) -> Result<Operand, OutOfMemory>
    ensures value { IfOk result (λ r. plain_sp r.value
        ≡ resolve.resolved_steps (names_of scope.now) fresh first.unsigned (plain_sp first.value)
        (steps_of steps.now)) }
    ensures unsigned { IfOk result (λ r. r.unsigned
        ≡ steps_unsigned (names_of scope.now) first.unsigned (steps_of steps.now)) }
{
    let Operand {
        mut value,
        mut unsigned,
    } = first;
    for step in steps {
        let next = expression(alloc, scope, fresh, &step.operand)?;
        let works = works_unsigned(step.op, unsigned, next.unsigned);
        unsigned = gives_unsigned(step.op, unsigned, next.unsigned);
        value = between(alloc, step.op, works, value, next.value)?;
    }
    Ok(Operand { value, unsigned })
}

/// An expression by itself.
pub fn value_of(alloc: Global, scope: &Scope<'_>, e: &Expr) -> Result<SpExpr, OutOfMemory>
    ensures { IfOk result (λ r. plain_sp r ≡ resolve.resolved (names_of scope.now) None (plain_expr e.now)) }
{
    let Operand { value, .. } = expression(alloc, scope, None, e)?;
    Ok(value)
}

/// Arguments, in order.
pub fn arguments(
    alloc: Global,
    scope: &Scope<'_>,
    fresh: Option<usize>,
    args: &[Expr],
) -> Result<List<SpExpr>, OutOfMemory>
    ensures values { IfOk result (λ r. map plain_sp r
        ≡ resolve.resolved_args (names_of scope.now) fresh (map plain_expr args.now)) }
    ensures count { IfOk result (λ r. length r ≡ length args.now) }
{
    let mut values = Vec::new(alloc);
    for e in args {
        let Operand { value, .. } = expression(alloc, scope, fresh, e)?;
        values.push(value)?;
    }
    Ok(List::of(values))
}
