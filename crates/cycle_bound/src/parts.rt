//! The cycles that the parts of a function take at most.
ghost use Rattle.std.specs.Prelude.{◌≡◌, ℕ, ◌+◌, ◌*◌, ◌≤◌, ◌<◌, List};
ghost use Rattle.sp_shape.specs.Parts.{PlainParts};
ghost use Rattle.sp_shape.specs.Shown.{plain_part, parts_of};
ghost use Rattle.sp_tree.specs.declared.limits.TheConstants.{MOST_FUNCTIONS};
ghost use Rattle.cycle_bound.specs.Bound.{part_bound, parts_bound, bounds};
ghost use Rattle.cycle_bound.specs.Calls.{PartCallsBelow, CallsBelow};
ghost use Rattle.cycle_bound.specs.Held.{held};
ghost use Rattle.cycle_bound.specs.Known.{Knows};
ghost use Rattle.cycle_bound.specs.Nodes.{part_nodes, parts_nodes};
ghost use Rattle.cycle_bound.specs.declared.bundles.TheConstants.{MOST_EACH};

use crate::bundles::cycles_of_bundles;
use crate::held::{plus, times};
use crate::known::Known;
use crate::steps::Steps;
use sp_shape::Part;
use std::sync::ledger::Ledger;

// a call of a function from the one of a number: the method cache may have to fetch the function that is called, and
// after it the one that is returned to
#[tactic(auto, using(crate::proofs::Holding::held_call))]
fn cycles_of_call(function: usize, number: usize, known: &Known) -> u64
    requires earlier { function < number }
    requires number { number < MOST_FUNCTIONS }
    ensures { (fs : List PlainParts) (each : ℕ) (fill : ℕ → ℕ) → Knows fs each fill (number + 1) number known.now
        → result ≡ held (fill function + fill number + bounds fs each fill number function) }
{
    let fills = plus(known.fills[function], known.fills[number]);
    plus(fills, known.bounds[function])
}

// one part of the function of a number, where a transaction takes `each` cycles at most
#[cycle(cycles)]
#[tactic(auto, using(crate::proofs::Earlier::called_below))]
fn cycles_of_part<L: Ledger>(
    part: &Part,
    number: usize,
    known: &Known,
    each: u64,
    steps: &mut Steps<L>,
) -> u64
    requires earlier { PartCallsBelow number (plain_part part.now) }
    requires number { number < MOST_FUNCTIONS }
    requires few { each ≤ MOST_EACH }
    ensures cycles { (fs : List PlainParts) (fill : ℕ → ℕ) → Knows fs each fill (number + 1) number known.now
        → result ≡ held (part_bound each fill (bounds fs each fill number) number (plain_part part.now)) }
    ensures steps { steps.new ≡ steps.old + part_nodes (plain_part part.now) }
{
    steps.tick();
    match part {
        Part::Straight { bundles } => cycles_of_bundles(bundles.as_slice(), each, steps),
        Part::Repeat { count, body, tail } => {
            let once = cycles_of_parts(body.as_slice(), number, known, each, steps);
            let iteration = plus(once, cycles_of_bundles(tail.as_slice(), each, steps));
            times(u64::from(*count), iteration)
        }
        Part::CallTo { function, tail } => {
            let way = cycles_of_bundles(tail.as_slice(), each, steps);
            plus(way, cycles_of_call(*function as usize, number, known))
        }
        Part::Leave { tail } => cycles_of_bundles(tail.as_slice(), each, steps),
    }
}

/// Parts of the function of a number, one after another, where a transaction takes `each` cycles at most.
#[cycle(cycles)]
#[tactic(auto, using(crate::proofs::Sums::part_cycles_next, crate::proofs::Sums::parts_cycles_at_end, crate::proofs::Sums::nodes_next, crate::proofs::Sums::nodes_at_end))]
pub fn cycles_of_parts<L: Ledger>(
    parts: &[Part],
    number: usize,
    known: &Known,
    each: u64,
    steps: &mut Steps<L>,
) -> u64
    requires earlier { CallsBelow number (parts_of parts.now) }
    requires number { number < MOST_FUNCTIONS }
    requires few { each ≤ MOST_EACH }
    ensures cycles { (fs : List PlainParts) (fill : ℕ → ℕ) → Knows fs each fill (number + 1) number known.now
        → result ≡ held (parts_bound each fill (bounds fs each fill number) number (parts_of parts.now)) }
    ensures steps { steps.new ≡ steps.old + parts_nodes (parts_of parts.now) }
{
    let mut cycles = 0;
    for part in parts {
        cycles = plus(cycles, cycles_of_part(part, number, known, each, steps));
    }
    cycles
}
