//! Parts that are packed, as if each value were there at once.
ghost use Rattle.std.specs.Prelude.{◌≡◌, true, [], IfOk, OnOk};
ghost use Rattle.bundle_sched.specs.Legal as legal;
ghost use Rattle.bundle_sched.specs.Packing as packing;
ghost use Rattle.sp_shape.specs.Parts as shown;
ghost use Rattle.sp_shape.specs.Parts.{PlainParts, joined};
ghost use Rattle.sp_shape.specs.Shown.{plain_part, parts_of};

use crate::ordering::packed;
use crate::slots::way;
use crate::tails::iteration;
use patmos_instr::Bundle;
use sp_shape::Part;
use std::alloc::Global;
use tc_word::{List, OutOfMemory};

// straight code, where there is some
#[tactic(auto, using(crate::proofs::PackingParts::straight_pushed, crate::proofs::PackingParts::none_pushed))]
fn push_straight(out: &mut Vec<Part>, bundles: Vec<Bundle>) -> Result<(), OutOfMemory>
    ensures { OnOk result ((rest : PlainParts)
        → joined (parts_of out.new.items) rest
        ≡ joined (parts_of out.old.items) (packing.straights bundles.items rest)) }
{
    if !bundles.is_empty() {
        out.push(Part::Straight {
            bundles: List::of(bundles),
        })?;
    }
    Ok(())
}

// the straight code that is held, packed
fn push_held(out: &mut Vec<Part>, held: &mut Vec<Bundle>) -> Result<(), OutOfMemory>
    ensures held { OnOk result (held.new.items ≡ []) }
    ensures out { OnOk result ((rest : PlainParts) → joined (parts_of out.new.items) rest
        ≡ joined (parts_of out.old.items) (packing.straights (packing.packed held.old.items) rest)) }
{
    let bundles = packed(*out.allocator(), held.as_slice())?;
    push_straight(out, bundles.into_vec())?;
    held.clear();
    Ok(())
}

// pushes what is held before a call's or a return's tail, whose first delay slot takes the last of it where it can
fn push_before(
    out: &mut Vec<Part>,
    held: &mut Vec<Bundle>,
    tail: &[Bundle],
) -> Result<List<Bundle>, OutOfMemory>
    ensures held { OnOk result (held.new.items ≡ []) }
    ensures out { OnOk result ((rest : PlainParts) → joined (parts_of out.new.items) rest
        ≡ joined (parts_of out.old.items)
        (packing.straights (packing.kept (packing.packed held.old.items) tail.now) rest)) }
    ensures tail { IfOk result (λ slots. slots ≡ packing.way (packing.packed held.old.items) tail.now) }
    ensures legal { IfOk result (λ slots. legal.has_legal_flow tail.now ≡ true) }
{
    let alloc = *out.allocator();
    let mut bundles = packed(alloc, held.as_slice())?.into_vec();
    let slots = way(alloc, &mut bundles, tail)?;
    push_straight(out, bundles)?;
    held.clear();
    Ok(slots)
}

// one part more: straight code is held, and goes out packed before each other part
#[cycle(packed)]
#[tactic(auto, using(crate::proofs::PackingParts::straight_held, crate::proofs::PackingParts::straight_left, crate::proofs::PackingParts::repeat_packed, crate::proofs::PackingParts::repeat_left, crate::proofs::PackingParts::call_packed, crate::proofs::PackingParts::call_left, crate::proofs::PackingParts::leave_packed, crate::proofs::PackingParts::leave_left, crate::proofs::PackingParts::straight_legal, crate::proofs::PackingParts::call_legal, crate::proofs::PackingParts::leave_legal))]
fn push_packed(out: &mut Vec<Part>, held: &mut Vec<Bundle>, part: &Part) -> Result<(), OutOfMemory>
    ensures out { OnOk result ((rest : PlainParts)
        → joined (parts_of out.new.items) (packing.parts_merged held.new.items rest)
        ≡ joined (parts_of out.old.items)
        (packing.parts_merged held.old.items (shown.part (plain_part part.now) rest))) }
    ensures left { OnOk result ((rest : PlainParts)
        → packing.left_over held.new.items rest
        ≡ packing.left_over held.old.items (shown.part (plain_part part.now) rest)) }
    ensures legal { OnOk result (legal.part_legal (plain_part part.now) ≡ true) }
{
    match part {
        Part::Straight { bundles } => held.extend_from_slice(bundles.as_slice())?,
        Part::Repeat { count, body, tail } => {
            let alloc = *out.allocator();
            let mut end = Vec::new(alloc);
            let body = parts_packed(alloc, body.as_slice(), &mut end)?;
            let tail = iteration(alloc, end.as_slice(), tail.as_slice())?;
            push_held(out, held)?;
            out.push(Part::Repeat {
                count: *count,
                body: List::of(body),
                tail,
            })?;
        }
        Part::CallTo { function, tail } => {
            let tail = push_before(out, held, tail.as_slice())?;
            out.push(Part::CallTo {
                function: *function,
                tail,
            })?;
        }
        Part::Leave { tail } => {
            let tail = push_before(out, held, tail.as_slice())?;
            out.push(Part::Leave { tail })?;
        }
    }
    Ok(())
}

// parts, packed one after another, after straight code that is held; the straight code at their end is held then
#[cycle(packed)]
#[tactic(auto, using(crate::proofs::PackingParts::part_packed, crate::proofs::PackingParts::part_left, crate::proofs::PackingParts::legal_next, crate::proofs::PackingParts::legal_done))]
fn parts_packed(
    alloc: Global,
    parts: &[Part],
    held: &mut Vec<Bundle>,
) -> Result<Vec<Part>, OutOfMemory>
    ensures parts { IfOk result (λ list.
        parts_of list.items ≡ packing.parts_merged held.old.items (parts_of parts.now)) }
    ensures left { OnOk result (held.new.items ≡ packing.left_over held.old.items (parts_of parts.now)) }
    ensures legal { IfOk result (λ list. legal.parts_legal (parts_of parts.now) ≡ true) }
{
    let mut list = Vec::new(alloc);
    for part in parts {
        push_packed(&mut list, held, part)?;
    }
    Ok(list)
}

/// The parts of a function, packed.
pub fn function_packed(alloc: Global, parts: &[Part]) -> Result<List<Part>, OutOfMemory>
    ensures parts { IfOk result (λ list. parts_of list ≡ packing.function_merged (parts_of parts.now)) }
    ensures legal { IfOk result (λ list. legal.parts_legal (parts_of parts.now) ≡ true) }
{
    let mut held = Vec::new(alloc);
    let mut list = parts_packed(alloc, parts, &mut held)?;
    push_held(&mut list, &mut held)?;
    Ok(List::of(list))
}
