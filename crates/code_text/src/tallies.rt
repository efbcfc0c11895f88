//! What runs of functions consist of.
ghost use Rattle.std.specs.Prelude.{◌≡◌, ℕ, ◌+◌, ◌*◌, ◌<◌, ◌≤◌, length, true};
ghost use Rattle.cycle_bound.specs.Held.{held};
ghost use Rattle.cycle_bound.specs.declared.bundles.TheConstants.{LEAST_EACH, MOST_EACH};
ghost use Rattle.sp_shape.specs.Formed.{is_formed};
ghost use Rattle.sp_shape.specs.Shown.{plain_shape};
ghost use Rattle.tc_link.specs.Fits.{FitsImage};
ghost use Rattle.code_text.specs.Runs.{AreRuns, count_of, shape_of};
ghost use Rattle.code_text.specs.Tally.{each_at};
ghost use Rattle.code_text.specs.Tally as specs;

use cycle_bound::{Known, MOST_BOUND, Steps, cycles_of_functions, fills_of_functions, plus};
use slot_arbiter::{Place, gap_of};
use sp_shape::Shape;
use sp_tree::MOST_FUNCTIONS;
use std::marker::Brand;
use std::sync::ledger::{Blank, Ledger};

/// What a run consists of: its bundles, and the transactions that it makes at most.
#[derive(Clone, Copy, Debug, PartialEq, Eq)]
pub struct Tally {
    pub bundles: u64,
    pub transactions: u64,
}

/// The runs of the functions of a shape, where a transaction takes `each` cycles at most: their bundles, and their
/// cycles and fetches.
#[derive(Drop)]
pub struct Runs<'a> {
    pub shape: &'a Shape,
    pub bundles: Known,
    pub cycles: Known,
    pub each: u64,
}

/// The most cycles that a transaction takes at a place.
pub fn each_of(place: &Place) -> u64
    ensures each { result ≡ each_at place.now }
    ensures least { LEAST_EACH ≤ result }
    ensures most { result ≤ MOST_EACH }
{
    gap_of(place) + u64::from(place.slot) - 1
}

/// The runs of the functions of a shape.
pub fn runs_of(shape: &Shape, each: u64) -> Runs<'_>
    requires formed { is_formed (plain_shape shape.now) ≡ true }
    requires fits { FitsImage (plain_shape shape.now) }
    requires least { LEAST_EACH ≤ each }
    requires most { each ≤ MOST_EACH }
    ensures runs { AreRuns result }
    ensures shape { shape_of result ≡ plain_shape shape.now }
    ensures each { result.each ≡ each }
{
    runs_from::<Brand>(Blank::new(1), shape, each)
}

// the runs of a task, with a count of steps of its own, which nobody reads
#[tactic(auto, using(cycle_bound::proofs::Earlier::shape_parts, sp_shape::proofs::Plain::functions_count))]
fn runs_from<L: Ledger>(blank: Blank, shape: &Shape, each: u64) -> Runs<'_>
    requires name { blank.name ≡ L.name }
    requires parts { blank.parts ≡ L.parts }
    requires some { 0 < blank.parts }
    requires formed { is_formed (plain_shape shape.now) ≡ true }
    requires fits { FitsImage (plain_shape shape.now) }
    requires least { LEAST_EACH ≤ each }
    requires most { each ≤ MOST_EACH }
    ensures runs { AreRuns result }
    ensures shape { shape_of result ≡ plain_shape shape.now }
    ensures each { result.each ≡ each }
{
    let mut steps = Steps::<L>::new(blank);
    let functions = shape.functions.as_slice();
    let fills = fills_of_functions(functions, each, &mut steps);
    Runs {
        shape,
        bundles: cycles_of_functions(functions, &[0; MOST_FUNCTIONS], 0, &mut steps),
        cycles: cycles_of_functions(functions, &fills, each, &mut steps),
        each,
    }
}

// the tally of so many bundles and cycles, held where they are more than a bound may be
fn tally_of(bundles: u64, cycles: u64, each: u64) -> Option<Tally>
    requires { 0 < each }
    ensures { (b m : ℕ) → bundles ≡ held b → cycles ≡ held (b + each * m) → result ≡ specs.counted each b m }
{
    if cycles > MOST_BOUND {
        return None;
    }
    Some(Tally {
        bundles,
        transactions: cycles.saturating_sub(bundles) / each,
    })
}

/// What a run of a function consists of, where that is not more than a bound may be.
#[tactic(auto, using(cycle_bound::proofs::Earlier::shape_parts))]
pub fn function_tally(runs: &Runs<'_>, function: usize) -> Option<Tally>
    requires runs { AreRuns runs.now }
    requires within { function < count_of runs.now }
    ensures { result ≡ specs.function_tally runs.now.each (shape_of runs.now) function }
{
    let bundles = runs.bundles.bounds[function];
    let cycles = runs.cycles.bounds[function];
    tally_of(bundles, cycles, runs.each)
}

/// What a task consists of: the fetch of its entry, and a run of it.
#[tactic(auto, using(cycle_bound::proofs::Earlier::shape_parts))]
pub fn task_tally(runs: &Runs<'_>) -> Option<Tally>
    requires runs { AreRuns runs.now }
    ensures { result ≡ specs.task_tally runs.now.each (shape_of runs.now) }
{
    let entry = runs.shape.entry as usize;
    let bundles = runs.bundles.bounds[entry];
    let cycles = plus(runs.cycles.fills[entry], runs.cycles.bounds[entry]);
    tally_of(bundles, cycles, runs.each)
}
