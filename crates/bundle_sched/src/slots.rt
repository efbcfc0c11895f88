//! The delay slots of a call, a return or a branch.
ghost use Rattle.std.specs.Prelude.{◌≡◌, true, ◌∷◌, IfOk, IfSome, IsNone, OnOk};
ghost use Rattle.bundle_sched.specs.Legal as legal;
ghost use Rattle.bundle_sched.specs.Packed as specs;
ghost use Rattle.bundle_sched.specs.Packing as packing;
ghost use Rattle.sp_shape.specs.Formed.{is_flow};

use crate::bundles::is_late;
use crate::operands::lacks_pred;
use crate::pairs::{does_nothing, is_always};
use patmos_instr::{Bundle, Guard, Instr, Op, Pred};
use std::alloc::Global;
use tc_word::{List, OutOfMemory};

/// The most delay slots of a flow.
pub const MOST_SLOTS: usize = 3;

// whether it asks for a flow
fn is_flow(op: &Op) -> bool
    ensures { result ≡ is_flow op.now }
{
    matches!(
        op,
        Op::Branch { .. } | Op::Call { .. } | Op::Return | Op::BranchFill { .. }
    )
}

// whether it writes a special register
fn is_special(op: &Op) -> bool
    ensures { result ≡ specs.is_special op.now }
{
    matches!(op, Op::ToSpecial { .. })
}

// whether an instruction of the bundle writes a special register
fn holds_special(bundle: &Bundle) -> bool
    ensures { result ≡ specs.holds_special bundle.now }
{
    let first = is_special(&bundle.first().op);
    match bundle.second() {
        Some(second) => first || is_special(&second.op),
        None => first,
    }
}

// whether it may be carried out after a flow
fn can_move(bundle: &Bundle) -> bool
    ensures { result ≡ packing.can_move bundle.now }
{
    let op = bundle.first().op;
    !is_late(&op) && (!is_flow(&op) && !holds_special(bundle))
}

// whether neither of its instructions writes a predicate
fn spares_pred(bundle: &Bundle, pred: Pred) -> bool
    ensures { result ≡ packing.spares_pred bundle.now pred }
{
    let first = lacks_pred(&bundle.first().op, pred);
    match bundle.second() {
        Some(second) => first && lacks_pred(&second.op, pred),
        None => first,
    }
}

// whether a guard holds after the bundle where it holds before it
fn spares_guard(bundle: &Bundle, guard: &Guard) -> bool
    ensures { result ≡ packing.spares_guard bundle.now guard.now }
{
    is_always(guard) || spares_pred(bundle, guard.pred)
}

// whether a flow is alone and asks for the same before another bundle and after it
fn lets_pass(flow: &Bundle, bundle: &Bundle) -> bool
    ensures { result ≡ packing.lets_pass flow.now bundle.now }
{
    let first = flow.first();
    is_flow(&first.op) && (flow.second().is_none() && spares_guard(bundle, &first.guard))
}

// whether the tail begins with such a flow, whose last delay slot does nothing
#[tactic(auto, using(crate::proofs::LastBundle::room_at, crate::proofs::LastBundle::room_none))]
fn has_room(bundle: &Bundle, tail: &[Bundle]) -> bool
    ensures { result ≡ packing.has_room bundle.now tail.now }
{
    let [flow, slots @ ..] = tail else {
        return false;
    };
    match slots.split_last() {
        Some((last, _)) => lets_pass(flow, bundle) && does_nothing(last),
        None => false,
    }
}

// whether a bundle can go into the first delay slot of the tail after it
fn fills(bundle: &Bundle, tail: &[Bundle]) -> bool
    ensures { result ≡ packing.fills bundle.now tail.now }
{
    can_move(bundle) && has_room(bundle, tail)
}

// whether the last of some bundles goes into the first delay slot of a tail
#[tactic(auto, using(crate::proofs::LastBundle::last_goes))]
fn goes_down(bundles: &[Bundle], tail: &[Bundle]) -> bool
    ensures { result ≡ packing.goes_down bundles.now tail.now }
{
    match bundles.split_last() {
        Some((last, _)) => fills(last, tail),
        None => false,
    }
}

// the last of some bundles goes into the first delay slot of a tail, where it can
#[tactic(auto, using(crate::proofs::LastBundle::room_below, crate::proofs::LastBundle::kept_down, crate::proofs::LastBundle::way_down, crate::proofs::LastBundle::kept_up, crate::proofs::LastBundle::way_up))]
fn move_last(bundles: &mut Vec<Bundle>, slots: &mut Vec<Bundle>) -> Result<(), OutOfMemory>
    ensures kept { OnOk result (bundles.new.items ≡ packing.kept_by_one bundles.old.items slots.old.items) }
    ensures way { OnOk result (slots.new.items ≡ packing.way_by_one bundles.old.items slots.old.items) }
{
    if goes_down(bundles.as_slice(), slots.as_slice()) {
        if let Some(last) = bundles.pop() {
            slots.pop();
            slots.insert(1, last)?;
        }
    }
    Ok(())
}

// whether the instruction beside a flow can stand in the first delay slot, since the last one does nothing
fn can_leave(flow: &Bundle, instr: &Instr, last: &Bundle) -> bool
    ensures { result ≡ packing.can_leave flow.now instr.now last.now }
{
    is_flow(&flow.first().op) && (instr.op.is_second_kind() && does_nothing(last))
}

// the flow of a tail, what stands beside it, each alone, and the delay slots but the last, where what stands beside it
// can stand in the first of them
#[tactic(auto, using(crate::proofs::LastBundle::no_flow, crate::proofs::LastBundle::no_slot, crate::proofs::LastBundle::flow_lone, crate::proofs::LastBundle::flow_stays, crate::proofs::LastBundle::flow_left, crate::proofs::LastBundle::flow_legal))]
fn flow_apart(tail: &[Bundle]) -> Option<(Bundle, Bundle, &[Bundle])>
    ensures some { IfSome result (λ x. packing.freed tail.now ≡ x.0 ∷ x.1 ∷ x.2.now) }
    ensures none { IsNone result → packing.freed tail.now ≡ tail.now }
    ensures legal { legal.has_legal_flow tail.now ≡ true }
{
    let [flow, slots @ ..] = tail else {
        return None;
    };
    let Some(beside) = flow.second() else {
        return None;
    };
    let Some((last, others)) = slots.split_last() else {
        return None;
    };
    if can_leave(flow, &beside, last) {
        Some((Bundle::single(flow.first()), Bundle::single(beside), others))
    } else {
        None
    }
}

// a tail whose flow stands alone
fn freed(alloc: Global, tail: &[Bundle]) -> Result<Vec<Bundle>, OutOfMemory>
    ensures tail { IfOk result (λ list. list.items ≡ packing.freed tail.now) }
    ensures legal { IfOk result (λ list. legal.has_legal_flow tail.now ≡ true) }
{
    let mut list = Vec::new(alloc);
    match flow_apart(tail) {
        Some((flow, beside, others)) => {
            list.push(flow)?;
            list.push(beside)?;
            list.extend_from_slice(others)?;
        }
        None => list.extend_from_slice(tail)?,
    }
    Ok(list)
}

/// The tail after some bundles: its flow stands alone, and the last of the bundles leave for its delay slots, as many
/// as go there.
pub fn way(
    alloc: Global,
    bundles: &mut Vec<Bundle>,
    tail: &[Bundle],
) -> Result<List<Bundle>, OutOfMemory>
    ensures kept { OnOk result (bundles.new.items ≡ packing.kept bundles.old.items tail.now) }
    ensures way { IfOk result (λ slots. slots ≡ packing.way bundles.old.items tail.now) }
    ensures legal { IfOk result (λ slots. legal.has_legal_flow tail.now ≡ true) }
{
    let mut slots = freed(alloc, tail)?;
    for filled in 0..MOST_SLOTS {
        move_last(bundles, &mut slots)?;
    }
    Ok(List::of(slots))
}
