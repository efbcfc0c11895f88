//! The tails of loops' iterations.
ghost use Rattle.std.specs.Prelude.{◌≡◌, ◌≤◌, ◌++◌, true, nat_lt, if◌then◌else◌, IfOk, length, take, drop};
ghost use Rattle.bundle_sched.specs.Legal as legal;
ghost use Rattle.bundle_sched.specs.Packing as packing;
ghost use Rattle.bundle_sched.specs.Placed.{spaced};
ghost use Rattle.sp_shape.specs.Formed.{is_branch};

use crate::bundles::spaced;
use crate::ordering::{all_go_back, packed};
use crate::slots::way;
use patmos_instr::{Bundle, Op};
use std::alloc::Global;
use tc_word::{List, OutOfMemory};

// whether it is a branch
fn is_branch(op: &Op) -> bool
    ensures { result ≡ is_branch op.now }
{
    matches!(op, Op::Branch { .. })
}

// how many bundles stand before the branch
#[tactic(auto, using(crate::proofs::LastBundle::before_next, crate::proofs::LastBundle::from_next, crate::proofs::LastBundle::before_here, crate::proofs::LastBundle::from_here, crate::proofs::LastBundle::before_all, crate::proofs::LastBundle::from_all))]
fn branch_at(tail: &[Bundle]) -> usize
    ensures within { result ≤ length tail.now }
    ensures before { take result tail.now ≡ packing.before_branch tail.now }
    ensures from { drop result tail.now ≡ packing.from_branch tail.now }
{
    let mut at = 0;
    for bundle in tail {
        if is_branch(&bundle.first().op) {
            return at;
        }
        at += 1;
    }
    at
}

// two pieces of straight code, packed as one, and the branch, with the last of it in its delay slots where it goes there
fn turned(
    alloc: Global,
    first: &[Bundle],
    second: &[Bundle],
    back: &[Bundle],
) -> Result<List<Bundle>, OutOfMemory>
    ensures turned { IfOk result (λ list. list ≡ packing.turned (packing.packed (first.now ++ second.now)) back.now) }
    ensures legal { IfOk result (λ list. legal.has_legal_flow back.now ≡ true) }
{
    let mut piece = Vec::new(alloc);
    piece.extend_from_slice(first)?;
    piece.extend_from_slice(second)?;
    let mut bundles = packed(alloc, piece.as_slice())?.into_vec();
    let slots = way(alloc, &mut bundles, back)?;
    bundles.extend_from_slice(slots.as_slice())?;
    Ok(List::of(bundles))
}

// how many bundles they are once their values come in time
fn length_in_time(alloc: Global, bundles: &[Bundle]) -> Result<usize, OutOfMemory>
    ensures { IfOk result (λ n. n ≡ length (spaced bundles.now)) }
{
    let list = spaced(alloc, bundles)?;
    Ok(list.as_slice().len())
}

// the first of two tails where it is shorter than the second once their values come in time
fn shorter(
    alloc: Global,
    first: List<Bundle>,
    second: List<Bundle>,
) -> Result<List<Bundle>, OutOfMemory>
    ensures { IfOk result (λ list.
        list ≡ (if nat_lt (length (spaced first)) (length (spaced second)) then first else second)) }
{
    let one = length_in_time(alloc, first.as_slice())?;
    let other = length_in_time(alloc, second.as_slice())?;
    Ok(if one < other { first } else { second })
}

/// The tail of a loop's iteration: straight code that is held, and what stands before the branch, packed as one piece, and
/// the last of it in the branch's delay slots where it goes there. What stands before the branch comes first where it goes
/// back over all that is held, and fewer bundles are enough so.
pub fn iteration(
    alloc: Global,
    held: &[Bundle],
    tail: &[Bundle],
) -> Result<List<Bundle>, OutOfMemory>
    ensures iteration { IfOk result (λ list. list ≡ packing.iteration_packed held.now tail.now) }
    ensures legal { IfOk result (λ list. legal.has_legal_flow (packing.from_branch tail.now) ≡ true) }
{
    let (front, back) = tail.split_at(branch_at(tail));
    let last = turned(alloc, held, front, back)?;
    if !all_go_back(held, front) {
        return Ok(last);
    }
    let first = turned(alloc, front, held, back)?;
    shorter(alloc, first, last)
}
