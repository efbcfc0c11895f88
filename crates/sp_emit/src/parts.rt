//! Parts after others.
ghost use Rattle.std.specs.Prelude.{◌≡◌, IfOk, OnOk};
ghost use Rattle.sp_shape.specs.Parts.{straight, one, joined};
ghost use Rattle.sp_shape.specs.Shown.{plain_part, parts_of};

use patmos_instr::Bundle;
use sp_shape::Part;
use std::alloc::Global;
use tc_word::{List, OutOfMemory};

/// A list of the same bundles.
pub fn listed(alloc: Global, bundles: &[Bundle]) -> Result<List<Bundle>, OutOfMemory>
    ensures { IfOk result (λ list. list ≡ bundles.now) }
{
    let mut list = Vec::new(alloc);
    list.extend_from_slice(bundles)?;
    Ok(List::of(list))
}

/// Straight code of these bundles stands after the parts. It is `Err` where memory runs out.
#[tactic(auto, using(crate::proofs::Pushed::straight_push))]
pub fn push_straight(out: &mut Vec<Part>, bundles: &[Bundle]) -> Result<(), OutOfMemory>
    ensures { OnOk result (parts_of out.new.items ≡ joined (parts_of out.old.items) (one (straight bundles.now))) }
{
    let bundles = listed(*out.allocator(), bundles)?;
    out.push(Part::Straight { bundles })?;
    Ok(())
}

/// A part stands after the parts. It is `Err` where memory runs out.
#[tactic(auto, using(crate::proofs::Pushed::part_push))]
pub fn push(out: &mut Vec<Part>, part: Part) -> Result<(), OutOfMemory>
    ensures { OnOk result (parts_of out.new.items ≡ joined (parts_of out.old.items) (one (plain_part part))) }
{
    out.push(part)?;
    Ok(())
}
