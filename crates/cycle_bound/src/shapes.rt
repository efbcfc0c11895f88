//! The bound of a shape.
ghost use Rattle.std.specs.Prelude.{◌≡◌, ℕ, ◌+◌, ◌-◌, ◌*◌, ◌<◌, ◌≤◌, true};
ghost use Rattle.slot_arbiter.specs.Order.{IsGap};
ghost use Rattle.slot_arbiter.specs.Slot.{is_slot_start};
ghost use Rattle.sp_shape.specs.Formed.{is_formed};
ghost use Rattle.sp_shape.specs.Shown.{plain_shape};
ghost use Rattle.cycle_bound.specs.Answered.{Answers};
ghost use Rattle.cycle_bound.specs.Bound.{shape_bound};
ghost use Rattle.cycle_bound.specs.Gap.{gap, place_bound};
ghost use Rattle.cycle_bound.specs.Held.{held};
ghost use Rattle.cycle_bound.specs.Nodes.{nodes};

use crate::functions::{cycles_of_functions, fills_of_functions};
use crate::held::{MOST_BOUND, plus};
use crate::steps::Steps;
use slot_arbiter::{Place, gap_of};
use sp_shape::Shape;
use std::marker::Brand;
use std::sync::ledger::{Blank, Ledger};

/// A bound is more than [`MOST_BOUND`] cycles.
#[derive(Clone, Copy, Debug, PartialEq, Eq)]
pub struct Long;

/// The number of cycles, unless it is more than a bound may be.
pub fn within(cycles: u64) -> Result<u64, Long>
    ensures { (n : ℕ) → cycles ≡ held n → Answers result n }
{
    if cycles > MOST_BOUND {
        return Err(Long);
    }
    Ok(cycles)
}

/// How many cycles the shape takes at most at the place, where a transaction takes at most the place's gap and one slot
/// less a cycle; [`Long`] exactly where that is more than [`MOST_BOUND`].
#[tactic(auto, using(crate::proofs::Earlier::shape_parts, sp_shape::proofs::Plain::functions_count, crate::proofs::Gaps::gap_some))]
pub fn bound<L: Ledger>(shape: &Shape, place: &Place, steps: &mut Steps<L>) -> Result<u64, Long>
    requires formed { is_formed (plain_shape shape.now) ≡ true }
    ensures exact { (far : ℕ) → IsGap (is_slot_start place.now.table place.now.slot place.now.core) far
        → Answers result (shape_bound (far + place.now.slot - 1) (plain_shape shape.now)) }
    ensures number { Answers result
        (place_bound place.now.table place.now.slot place.now.core (plain_shape shape.now)) }
    ensures gap { IsGap (is_slot_start place.now.table place.now.slot place.now.core)
        (gap place.now.table place.now.slot place.now.core) }
    ensures steps { steps.new ≤ steps.old + 8 * nodes (plain_shape shape.now) }
    ensures forward { steps.old ≤ steps.new }
{
    let each = gap_of(place) + u64::from(place.slot) - 1;
    let functions = shape.functions.as_slice();
    let fills = fills_of_functions(functions, each, steps);
    let known = cycles_of_functions(functions, &fills, each, steps);
    let entry = shape.entry as usize;
    within(plus(known.fills[entry], known.bounds[entry]))
}

/// The bound of a task, where nobody reads the count of steps.
pub fn bound_uncounted(shape: &Shape, place: &Place) -> Result<u64, Long>
    requires formed { is_formed (plain_shape shape.now) ≡ true }
    ensures exact { (far : ℕ) → IsGap (is_slot_start place.now.table place.now.slot place.now.core) far
        → Answers result (shape_bound (far + place.now.slot - 1) (plain_shape shape.now)) }
    ensures number { Answers result
        (place_bound place.now.table place.now.slot place.now.core (plain_shape shape.now)) }
{
    bound_from::<Brand>(Blank::new(1), shape, place)
}

// the bound, with a count of its own
fn bound_from<L: Ledger>(blank: Blank, shape: &Shape, place: &Place) -> Result<u64, Long>
    requires name { blank.name ≡ L.name }
    requires parts { blank.parts ≡ L.parts }
    requires some { 0 < blank.parts }
    requires formed { is_formed (plain_shape shape.now) ≡ true }
    ensures exact { (far : ℕ) → IsGap (is_slot_start place.now.table place.now.slot place.now.core) far
        → Answers result (shape_bound (far + place.now.slot - 1) (plain_shape shape.now)) }
    ensures number { Answers result
        (place_bound place.now.table place.now.slot place.now.core (plain_shape shape.now)) }
{
    let mut steps = Steps::<L>::new(blank);
    bound(shape, place, &mut steps)
}
