//! Bundles whose values come in time.
ghost use Rattle.std.specs.Prelude.{◌≡◌, ◌++◌, IfOk, OnOk};
ghost use Rattle.bundle_sched.specs.Placed as specs;
ghost use Rattle.sp_shape.specs.Small as small;
ghost use Rattle.sp_shape.specs.Words.{is_late};

use crate::operands::leaves_read;
use patmos_instr::{Bundle, Instr, Op, Special};
use std::alloc::Global;
use tc_word::{List, OutOfMemory};

/// Whether its value comes late.
pub fn is_late(op: &Op) -> bool
    ensures { result ≡ is_late op.now }
{
    matches!(op, Op::Load { .. } | Op::Mul { .. })
}

/// The bundle that does nothing.
pub fn idle() -> Bundle
    ensures { result ≡ small.idle }
{
    Bundle::single(Instr::nop())
}

// whether a half of a product is read
fn reads_product(op: &Op) -> bool
    ensures { result ≡ specs.reads_product op.now }
{
    matches!(
        *op,
        Op::FromSpecial {
            special: Special::Sl | Special::Sh,
            ..
        }
    )
}

// whether an operation does not read what comes late of another
fn ignores(late: &Op, op: &Op) -> bool
    ensures { result ≡ specs.ignores late.now op.now }
{
    match *late {
        Op::Load { .. } => leaves_read(late, op),
        Op::Mul { .. } => !reads_product(op),
        _ => true,
    }
}

// both slots of a bundle ignore the value that comes late
fn ignores_both(late: &Op, bundle: &Bundle) -> bool
    ensures { result ≡ specs.ignores_both late.now bundle.now }
{
    let first = ignores(late, &bundle.first().op);
    match bundle.second() {
        Some(second) => first && ignores(late, &second.op),
        None => first,
    }
}

/// Whether a bundle reads what comes late of the one before it.
pub fn waits_for(bundle: &Bundle, before: &Bundle) -> bool
    ensures { result ≡ specs.waits_for bundle.now before.now }
{
    let op = before.first().op;
    is_late(&op) && !ignores_both(&op, bundle)
}

// whether what comes late of a bundle is waited for: the next one reads it, or there is none
fn is_awaited(bundle: &Bundle, others: &[Bundle]) -> bool
    ensures { result ≡ specs.is_awaited bundle.now others.now }
{
    match others {
        [] => is_late(&bundle.first().op),
        [next, ..] => waits_for(next, bundle),
    }
}

// a bundle before others, and after it one that does nothing where what comes late of it is waited for
fn push_spaced(out: &mut Vec<Bundle>, bundle: &Bundle, others: &[Bundle]) -> Result<(), OutOfMemory>
    ensures { OnOk result (out.new.items ≡ out.old.items ++ specs.one_spaced bundle.now others.now) }
{
    out.push(*bundle)?;
    if is_awaited(bundle, others) {
        out.push(idle())?;
    }
    Ok(())
}

/// Bundles, each value of which comes before it is used.
#[tactic(auto, using(crate::proofs::Placing::bundle_added, crate::proofs::Placing::bundles_done))]
pub fn spaced(alloc: Global, bundles: &[Bundle]) -> Result<List<Bundle>, OutOfMemory>
    ensures { IfOk result (λ list. list ≡ specs.spaced bundles.now) }
{
    let mut list = Vec::new(alloc);
    let mut rest = bundles;
    while let [bundle, others @ ..] = rest {
        push_spaced(&mut list, bundle, others)?;
        rest = others;
    }
    Ok(List::of(list))
}
