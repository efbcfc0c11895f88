//! Functions in order, each over the earlier ones.
ghost use Rattle.std.specs.Prelude.{◌≡◌, ℕ, ◌+◌, ◌*◌, ◌^◌, ◌≤◌, ◌<◌, List, length, slice_index_or, true};
ghost use Rattle.sp_shape.specs.Formed.{functions_formed};
ghost use Rattle.sp_shape.specs.Parts.{PlainParts, no_part};
ghost use Rattle.sp_shape.specs.Shown.{parts_of, functions_of};
ghost use Rattle.sp_shape.specs.Words.{parts_words};
ghost use Rattle.sp_tree.specs.declared.limits.TheConstants.{MOST_FUNCTIONS};
ghost use Rattle.cycle_bound.specs.Bound.{transactions, fill_bound};
ghost use Rattle.cycle_bound.specs.Calls.{CallsBelow};
ghost use Rattle.cycle_bound.specs.Held.{held};
ghost use Rattle.cycle_bound.specs.Known.{AreHeld, Knows};
ghost use Rattle.cycle_bound.specs.Nodes.{parts_nodes, functions_nodes};
ghost use Rattle.cycle_bound.specs.declared.bundles.TheConstants.{LEAST_EACH, MOST_EACH};

use crate::bundles::{LEAST_EACH, MOST_EACH};
use crate::held::times;
use crate::known::Known;
use crate::parts::cycles_of_parts;
use crate::steps::Steps;
use crate::words::words_of_parts;
use sp_shape::Part;
use sp_tree::MOST_FUNCTIONS;
use std::sync::ledger::Ledger;
use tc_word::List;

/// The cycles that the fetch of a function of so many words takes at most: its size word comes with it.
pub fn cycles_of_fill(words: u64, each: u64) -> u64
    requires words { words ≤ 2 ^ 62 + 1 }
    requires some { LEAST_EACH ≤ each }
    ensures { (count : ℕ) → words ≡ held count → result ≡ held (each * transactions (1 + count)) }
{
    times(each, (1 + words).div_ceil(4))
}

// the fetch of one function
fn fill_of_function<L: Ledger>(parts: &[Part], each: u64, steps: &mut Steps<L>) -> u64
    requires some { LEAST_EACH ≤ each }
    ensures fill { result ≡ held (each * transactions (1 + parts_words (parts_of parts.now))) }
    ensures steps { steps.new ≡ steps.old + (1 + parts_nodes (parts_of parts.now)) }
{
    steps.tick();
    cycles_of_fill(words_of_parts(parts, steps), each)
}

/// The cycles that the fetch of each function takes at most, where a transaction takes `each` at most.
#[tactic(auto, using(sp_shape::proofs::Functions::function_at, crate::proofs::Learning::fill_next, crate::proofs::Learning::functions_next))]
pub fn fills_of_functions<L: Ledger>(
    functions: &[List<Part>],
    each: u64,
    steps: &mut Steps<L>,
) -> [u64; MOST_FUNCTIONS]
    requires most { length functions.now ≤ MOST_FUNCTIONS }
    requires some { LEAST_EACH ≤ each }
    ensures fills { AreHeld (fill_bound each (functions_of functions.now)) (length functions.now) result }
    ensures steps { steps.new ≤ steps.old + functions_nodes (functions_of functions.now) }
    ensures forward { steps.old ≤ steps.new }
{
    let mut fills = [0; MOST_FUNCTIONS];
    for number in 0..functions.len() {
        fills[number] = fill_of_function(functions[number].as_slice(), each, steps);
    }
    fills
}

/// What is known once the function of a number is, too.
fn learn<L: Ledger>(
    parts: &[Part],
    number: usize,
    each: u64,
    known: &mut Known,
    steps: &mut Steps<L>,
)
    requires earlier { CallsBelow number (parts_of parts.now) }
    requires number { number < MOST_FUNCTIONS }
    requires few { each ≤ MOST_EACH }
    ensures known { (fs : List PlainParts) (fill : ℕ → ℕ) (count : ℕ) → number < count
        → slice_index_or fs number no_part ≡ parts_of parts.now
        → Knows fs each fill count number known.old → Knows fs each fill count (number + 1) known.new }
    ensures steps { steps.new ≡ steps.old + (1 + parts_nodes (parts_of parts.now)) }
{
    steps.tick();
    known.bounds[number] = cycles_of_parts(parts, number, known, each, steps);
}

/// The cycles of all functions, where a transaction takes `each` at most, and `fills` is counted for a fetch at each
/// call and each return: nothing, where fetches are counted apart.
#[tactic(auto, using(crate::proofs::Earlier::known_below, sp_shape::proofs::Functions::function_at, crate::proofs::Learning::functions_next))]
pub fn cycles_of_functions<L: Ledger>(
    functions: &[List<Part>],
    fills: &[u64; MOST_FUNCTIONS],
    each: u64,
    steps: &mut Steps<L>,
) -> Known
    requires most { length functions.now ≤ MOST_FUNCTIONS }
    requires formed { functions_formed (functions_of functions.now) (length functions.now) ≡ true }
    requires few { each ≤ MOST_EACH }
    ensures known { (fill : ℕ → ℕ) → AreHeld fill (length functions.now) fills.now
        → Knows (functions_of functions.now) each fill (length functions.now) (length functions.now) result }
    ensures steps { steps.new ≤ steps.old + functions_nodes (functions_of functions.now) }
    ensures forward { steps.old ≤ steps.new }
{
    let mut known = Known {
        fills: *fills,
        bounds: [0; MOST_FUNCTIONS],
    };
    for number in 0..functions.len() {
        learn(
            functions[number].as_slice(),
            number,
            each,
            &mut known,
            steps,
        );
    }
    known
}
