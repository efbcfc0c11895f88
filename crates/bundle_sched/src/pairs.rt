//! Two bundles in one.
ghost use Rattle.std.specs.Prelude.{◌≡◌, not, ◌&&◌, ◌++◌, true, false, IfOk, IfSome, IsNone, List, ◌∷◌};
ghost use Rattle.bundle_sched.specs.Ordered as ordered;
ghost use Rattle.bundle_sched.specs.Packed as specs;
ghost use Rattle.bundle_sched.specs.Packing as packing;
ghost use Rattle.patmos_instr.specs.Bundles.{PlainBundle};
ghost use Rattle.patmos_instr.specs.Instructions.{is_second_kind};
ghost use Rattle.sp_shape.specs.Bundles.{is_idle, is_idle_op};
ghost use Rattle.sp_shape.specs.Formed.{is_always};
ghost use Rattle.sp_shape.specs.Words.{is_late};

use crate::bundles::is_late;
use crate::operands::is_free;
use patmos_instr::{Bundle, Guard, ImmFunc, Instr, Op};
use std::alloc::Global;
use tc_word::{List, OutOfMemory};

// whether it is the operation that does nothing
fn is_idle_op(op: &Op) -> bool
    ensures { result ≡ is_idle_op op.now }
{
    match *op {
        Op::AluImm {
            func: ImmFunc::Add,
            rd,
            ra,
            imm,
        } => rd.number() == 0 && (ra.number() == 0 && imm.number() == 0),
        _ => false,
    }
}

/// Whether it is the guard that is always true.
pub fn is_always(guard: &Guard) -> bool
    ensures { result ≡ is_always guard.now }
{
    guard.pred.number() == 0 && !guard.negated
}

// whether it is the instruction that does nothing
fn is_nop(instr: &Instr) -> bool
    ensures { result ≡ specs.is_nop instr.now }
{
    is_always(&instr.guard) && is_idle_op(&instr.op)
}

/// The bundle without a second instruction that does nothing.
pub fn without_nop(bundle: &Bundle) -> Bundle
    ensures { result ≡ ordered.without_nop bundle.now }
{
    match bundle.second() {
        Some(second) => {
            if is_nop(&second) {
                Bundle::single(bundle.first())
            } else {
                *bundle
            }
        }
        None => *bundle,
    }
}

/// Whether the bundle does nothing.
pub fn does_nothing(bundle: &Bundle) -> bool
    ensures { result ≡ is_idle bundle.now }
{
    let first = bundle.first();
    is_always(&first.guard) && (is_idle_op(&first.op) && bundle.second().is_none())
}

// whether the bundle is of one instruction and one word
fn is_small(bundle: &Bundle) -> bool
    ensures { result ≡ specs.is_small bundle.now }
{
    bundle.second().is_none() && !bundle.first().op.is_long()
}

// whether the second can stand beside the first, by their instructions
fn go_together(a: &Instr, b: &Instr) -> bool
    ensures { result ≡ (is_second_kind b.now.op && specs.is_free a.now b.now) }
{
    b.op.is_second_kind() && is_free(a, b)
}

// whether two bundles can be one
fn can_join(a: &Bundle, b: &Bundle) -> bool
    ensures { result ≡ specs.can_join a.now b.now }
{
    is_small(a) && (is_small(b) && go_together(&a.first(), &b.first()))
}

/// Two bundles in one, where they can be one.
pub fn joined(a: &Bundle, b: &Bundle) -> Option<Bundle>
    ensures some { IfSome result (λ both. (specs.can_join a.now b.now ≡ true) × (both ≡ specs.pair a.now b.now)) }
    ensures none { IsNone result → specs.can_join a.now b.now ≡ false }
{
    if can_join(a, b) {
        Bundle::pair(a.first(), b.first()).ok()
    } else {
        None
    }
}

// the pair of two bundles, where no value of the first comes late
fn paired(a: &Bundle, b: &Bundle) -> Option<Bundle>
    ensures some { IfSome result (λ both. (specs.can_pair a.now b.now ≡ true) × (both ≡ specs.pair a.now b.now)) }
    ensures none { IsNone result → specs.can_pair a.now b.now ≡ false }
{
    if is_late(&a.first().op) {
        None
    } else {
        joined(a, b)
    }
}

// one more bundle after the one that is held
fn held(
    out: &mut Vec<Bundle>,
    before: Option<Bundle>,
    bundle: &Bundle,
) -> Result<Option<Bundle>, OutOfMemory>
    ensures { IfOk result (λ next. (rest : List PlainBundle)
        → out.new.items ++ packing.behind next rest ≡ out.old.items ++ packing.behind before (bundle.now ∷ rest)) }
{
    if does_nothing(bundle) {
        return Ok(before);
    }
    let Some(before) = before else {
        return Ok(Some(*bundle));
    };
    if let Some(both) = paired(&before, bundle) {
        return Ok(Some(both));
    }
    out.push(before)?;
    Ok(Some(*bundle))
}

/// Bundles without those that do nothing, and with neighbours in one where they can be one, left to right.
#[tactic(auto, using(crate::proofs::Pairing::bundle_held, crate::proofs::Pairing::none_held, crate::proofs::Pairing::last_held))]
pub fn in_pairs(alloc: Global, bundles: &[Bundle]) -> Result<List<Bundle>, OutOfMemory>
    ensures { IfOk result (λ list. list ≡ packing.in_pairs bundles.now) }
{
    let mut list = Vec::new(alloc);
    let mut before = None;
    for bundle in bundles {
        before = held(&mut list, before, bundle)?;
    }
    if let Some(last) = before {
        list.push(last)?;
    }
    Ok(List::of(list))
}
