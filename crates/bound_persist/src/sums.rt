//! Sums over the functions that are reached.
ghost use Rattle.std.specs.Prelude.{◌≡◌, ℕ, ◌+◌, ◌≤◌, ◌<◌, ◌&&◌, nat_le, List, length, slice_index_or};
ghost use Rattle.method_cache.specs.declared.cache.TheConstants.{MOST_METHODS, METHOD_CACHE_WORDS};
ghost use Rattle.sp_shape.specs.Parts.{PlainParts, no_part};
ghost use Rattle.sp_shape.specs.Shown.{parts_of, functions_of};
ghost use Rattle.sp_tree.specs.declared.limits.TheConstants.{MOST_FUNCTIONS};
ghost use Rattle.cycle_bound.specs.Nodes.{parts_nodes, functions_nodes};
ghost use Rattle.cycle_bound.specs.declared.bundles.TheConstants.{LEAST_EACH};
ghost use Rattle.bound_persist.specs.Marks.{is_marked};
ghost use Rattle.bound_persist.specs.Reached.{picked};
ghost use Rattle.bound_persist.specs.Sums.{AreSums};

use crate::marks::Marks;
use cycle_bound::{LEAST_EACH, Steps, cycles_of_fill, plus, words_of_parts};
use method_cache::{METHOD_CACHE_WORDS, MOST_METHODS};
use sp_shape::Part;
use sp_tree::MOST_FUNCTIONS;
use std::sync::ledger::Ledger;
use tc_word::List;

/// Functions: how many they are, their words, and the cycles that a fetch of each takes at most.
#[derive(Drop)]
pub struct Sums {
    pub count: usize,
    pub words: u64,
    pub fills: u64,
}

impl Sums {
    /// Whether they fit into the method cache together.
    pub fn fit(&self) -> bool
        ensures { result ≡ (nat_le self.now.count MOST_METHODS && nat_le self.now.words METHOD_CACHE_WORDS) }
    {
        self.count <= MOST_METHODS as usize && self.words <= u64::from(METHOD_CACHE_WORDS)
    }
}

// the sums with the function of a number too, if it is marked
#[tactic(auto, using(crate::proofs::Summing::sums_pass))]
fn with_one<L: Ledger>(
    sums: Sums,
    parts: &[Part],
    number: usize,
    marks: &Marks,
    each: u64,
    steps: &mut Steps<L>,
) -> Sums
    requires number { number < MOST_FUNCTIONS }
    requires few { sums.count ≤ number }
    requires some { LEAST_EACH ≤ each }
    ensures few { result.count ≤ number + 1 }
    ensures sums { (fs : List PlainParts) → slice_index_or fs number no_part ≡ parts_of parts.now
        → AreSums fs each (picked (is_marked marks.now.set) number) sums
        → AreSums fs each (picked (is_marked marks.now.set) (number + 1)) result }
    ensures steps { steps.new ≤ steps.old + (1 + parts_nodes (parts_of parts.now)) }
    ensures forward { steps.old ≤ steps.new }
{
    steps.tick();
    if !marks.set[number] {
        return sums;
    }
    let own = words_of_parts(parts, steps);
    let words = plus(sums.words, own);
    let fills = plus(sums.fills, cycles_of_fill(own, each));
    Sums {
        count: sums.count + 1,
        words,
        fills,
    }
}

/// The sums over the functions that are marked, where a transaction takes `each` at most.
#[tactic(auto, using(sp_shape::proofs::Functions::function_at, crate::proofs::Summing::sums_none, crate::proofs::Summing::functions_passed))]
pub fn sums_of<L: Ledger>(
    functions: &[List<Part>],
    marks: &Marks,
    each: u64,
    steps: &mut Steps<L>,
) -> Sums
    requires most { length functions.now ≤ MOST_FUNCTIONS }
    requires some { LEAST_EACH ≤ each }
    ensures sums { AreSums (functions_of functions.now) each
        (picked (is_marked marks.now.set) (length functions.now)) result }
    ensures steps { steps.new ≤ steps.old + functions_nodes (functions_of functions.now) }
    ensures forward { steps.old ≤ steps.new }
{
    let mut sums = Sums {
        count: 0,
        words: 0,
        fills: 0,
    };
    for number in 0..functions.len() {
        let parts = functions[number].as_slice();
        sums = with_one(sums, parts, number, marks, each, steps);
    }
    sums
}
