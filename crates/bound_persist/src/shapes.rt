//! The persistent bound of a shape.
ghost use Rattle.std.specs.Prelude.{◌≡◌, ℕ, ◌+◌, ◌-◌, ◌*◌, ◌<◌, ◌≤◌, List, length, true};
ghost use Rattle.slot_arbiter.specs.Order.{IsGap};
ghost use Rattle.slot_arbiter.specs.Slot.{is_slot_start};
ghost use Rattle.sp_shape.specs.Formed.{is_formed, functions_formed};
ghost use Rattle.sp_shape.specs.Shown.{functions_of, plain_shape};
ghost use Rattle.sp_tree.specs.declared.limits.TheConstants.{MOST_FUNCTIONS};
ghost use Rattle.cycle_bound.specs.Answered.{Answers};
ghost use Rattle.cycle_bound.specs.Gap.{place_bound};
ghost use Rattle.cycle_bound.specs.Held.{held};
ghost use Rattle.cycle_bound.specs.Nodes.{nodes, functions_nodes};
ghost use Rattle.cycle_bound.specs.declared.bundles.TheConstants.{MOST_EACH};
ghost use Rattle.bound_persist.specs.Persist.{runs, persist, place_persist};

use crate::marks::mark_all;
use crate::sums::sums_of;
use cycle_bound::{Long, MOST_EACH, Steps, bound, cycles_of_functions, plus, within};
use slot_arbiter::{Place, gap_of};
use sp_shape::{Part, Shape};
use sp_tree::MOST_FUNCTIONS;
use std::marker::Brand;
use std::sync::ledger::{Blank, Ledger};
use tc_word::List;

// the cycles of one of these functions, where a transaction takes `each` at most, and no fetch is counted
fn run_of_function<L: Ledger>(
    functions: &[List<Part>],
    number: usize,
    each: u64,
    steps: &mut Steps<L>,
) -> u64
    requires most { length functions.now ≤ MOST_FUNCTIONS }
    requires formed { functions_formed (functions_of functions.now) (length functions.now) ≡ true }
    requires number { number < length functions.now }
    requires few { each ≤ MOST_EACH }
    ensures run { result ≡ held (runs (functions_of functions.now) each (length functions.now) number) }
    ensures steps { steps.new ≤ steps.old + functions_nodes (functions_of functions.now) }
    ensures forward { steps.old ≤ steps.new }
{
    let known = cycles_of_functions(functions, &[0; MOST_FUNCTIONS], each, steps);
    known.bounds[number]
}

/// How many cycles the shape takes at most at the place, where each function is fetched once if all that are
/// reached fit into the method cache together, and else as often as for [`bound`]; [`Long`] exactly where that is
/// more than [`MOST_BOUND`](cycle_bound::MOST_BOUND).
#[tactic(auto, using(cycle_bound::proofs::Earlier::shape_parts, sp_shape::proofs::Plain::functions_count, cycle_bound::proofs::Gaps::gap_some))]
pub fn persist_bound<L: Ledger>(
    shape: &Shape,
    place: &Place,
    steps: &mut Steps<L>,
) -> Result<u64, Long>
    requires formed { is_formed (plain_shape shape.now) ≡ true }
    ensures exact { (far : ℕ) → IsGap (is_slot_start place.now.table place.now.slot place.now.core) far
        → Answers result (persist (far + place.now.slot - 1) (plain_shape shape.now)) }
    ensures number { Answers result
        (place_persist place.now.table place.now.slot place.now.core (plain_shape shape.now)) }
    ensures tighter { place_persist place.now.table place.now.slot place.now.core (plain_shape shape.now)
        ≤ place_bound place.now.table place.now.slot place.now.core (plain_shape shape.now) }
    ensures steps { steps.new ≤ steps.old + 16 * nodes (plain_shape shape.now) }
    ensures forward { steps.old ≤ steps.new }
{
    let each = gap_of(place) + u64::from(place.slot) - 1;
    let functions = shape.functions.as_slice();
    let entry = shape.entry as usize;
    let marks = mark_all(functions, entry, steps);
    let sums = sums_of(functions, &marks, each, steps);
    if !sums.fit() {
        return bound(shape, place, steps);
    }
    within(plus(sums.fills, run_of_function(functions, entry, each, steps)))
}

/// The persistent bound of a task, where nobody reads the count of steps.
pub fn persist_bound_uncounted(shape: &Shape, place: &Place) -> Result<u64, Long>
    requires formed { is_formed (plain_shape shape.now) ≡ true }
    ensures exact { (far : ℕ) → IsGap (is_slot_start place.now.table place.now.slot place.now.core) far
        → Answers result (persist (far + place.now.slot - 1) (plain_shape shape.now)) }
    ensures number { Answers result
        (place_persist place.now.table place.now.slot place.now.core (plain_shape shape.now)) }
    ensures tighter { place_persist place.now.table place.now.slot place.now.core (plain_shape shape.now)
        ≤ place_bound place.now.table place.now.slot place.now.core (plain_shape shape.now) }
{
    bound_from::<Brand>(Blank::new(1), shape, place)
}

// the persistent bound, with a count of its own
fn bound_from<L: Ledger>(blank: Blank, shape: &Shape, place: &Place) -> Result<u64, Long>
    requires name { blank.name ≡ L.name }
    requires parts { blank.parts ≡ L.parts }
    requires some { 0 < blank.parts }
    requires formed { is_formed (plain_shape shape.now) ≡ true }
    ensures exact { (far : ℕ) → IsGap (is_slot_start place.now.table place.now.slot place.now.core) far
        → Answers result (persist (far + place.now.slot - 1) (plain_shape shape.now)) }
    ensures number { Answers result
        (place_persist place.now.table place.now.slot place.now.core (plain_shape shape.now)) }
    ensures tighter { place_persist place.now.table place.now.slot place.now.core (plain_shape shape.now)
        ≤ place_bound place.now.table place.now.slot place.now.core (plain_shape shape.now) }
{
    let mut steps = Steps::<L>::new(blank);
    persist_bound(shape, place, &mut steps)
}
