//! How many words the parts of functions have.
ghost use Rattle.std.specs.Prelude.{◌≡◌, ◌+◌};
ghost use Rattle.sp_shape.specs.Shown.{plain_part, parts_of};
ghost use Rattle.sp_shape.specs.Words.{part_words, parts_words};
ghost use Rattle.cycle_bound.specs.Held.{held};
ghost use Rattle.cycle_bound.specs.Nodes.{part_nodes, parts_nodes};

use crate::bundles::words_of_bundles;
use crate::held::plus;
use crate::steps::Steps;
use sp_shape::Part;
use std::sync::ledger::Ledger;

// the words of one part
#[cycle(words)]
fn words_of_part<L: Ledger>(part: &Part, steps: &mut Steps<L>) -> u64
    ensures words { result ≡ held (part_words (plain_part part.now)) }
    ensures steps { steps.new ≡ steps.old + part_nodes (plain_part part.now) }
{
    steps.tick();
    match part {
        Part::Straight { bundles } => words_of_bundles(bundles.as_slice(), steps),
        Part::Repeat { body, tail, .. } => {
            let once = words_of_parts(body.as_slice(), steps);
            plus(once, words_of_bundles(tail.as_slice(), steps))
        }
        Part::CallTo { tail, .. } => words_of_bundles(tail.as_slice(), steps),
        Part::Leave { tail } => words_of_bundles(tail.as_slice(), steps),
    }
}

/// The words of parts one after another.
#[cycle(words)]
#[tactic(auto, using(crate::proofs::Sums::part_words_next, crate::proofs::Sums::parts_words_at_end, crate::proofs::Sums::nodes_next, crate::proofs::Sums::nodes_at_end))]
pub fn words_of_parts<L: Ledger>(parts: &[Part], steps: &mut Steps<L>) -> u64
    ensures words { result ≡ held (parts_words (parts_of parts.now)) }
    ensures steps { steps.new ≡ steps.old + parts_nodes (parts_of parts.now) }
{
    let mut words = 0;
    for part in parts {
        words = plus(words, words_of_part(part, steps));
    }
    words
}
