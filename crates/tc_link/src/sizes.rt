//! How many words each function has.
ghost use Rattle.std.specs.Prelude.{◌≡◌, ℕ, ◌<◌, ◌≤◌, IfOk, length, map, slice_index_or};
ghost use Rattle.patmos_code.specs.declared.images.TheConstants.{MOST_IN_FUNCTION};
ghost use Rattle.sp_shape.specs.Parts.{no_part};
ghost use Rattle.sp_shape.specs.Shown.{plain_part, parts_of, functions_of};
ghost use Rattle.sp_shape.specs.Words.{bundles_words, part_words, parts_words};

use patmos_instr::Bundle;
use sp_shape::{Part, words_of_bundle};
use std::alloc::Global;
use tc_word::{List, OutOfMemory};

// how many words bundles have together
fn words_of_bundles(bundles: &[Bundle]) -> u32
    requires { bundles_words bundles.now ≤ MOST_IN_FUNCTION }
    ensures { result ≡ bundles_words bundles.now }
{
    let mut words = 0;
    for bundle in bundles {
        words += words_of_bundle(bundle);
    }
    words
}

// how many words a part has
#[cycle(words)]
#[tactic(auto, using(crate::proofs::Counted::repeat_words), unfolding(sp_shape::specs::Shown::plain_part))]
fn words_of_part(part: &Part) -> u32
    requires { part_words (plain_part part.now) ≤ MOST_IN_FUNCTION }
    ensures { result ≡ part_words (plain_part part.now) }
{
    match part {
        Part::Straight { bundles } => words_of_bundles(bundles.as_slice()),
        Part::Repeat { body, tail, .. } => {
            words_of_parts(body.as_slice()) + words_of_bundles(tail.as_slice())
        }
        Part::CallTo { tail, .. } | Part::Leave { tail } => words_of_bundles(tail.as_slice()),
    }
}

// how many words parts have together
#[cycle(words)]
fn words_of_parts(parts: &[Part]) -> u32
    requires { parts_words (parts_of parts.now) ≤ MOST_IN_FUNCTION }
    ensures { result ≡ parts_words (parts_of parts.now) }
{
    let mut words = 0;
    for part in parts {
        words += words_of_part(part);
    }
    words
}

/// How many words each function has.
#[tactic(auto, using(sp_shape::proofs::Functions::function_at))]
pub fn sizes_of(alloc: Global, functions: &[List<Part>]) -> Result<Vec<u32>, OutOfMemory>
    requires small { (k : ℕ) → k < length functions.now
        → parts_words (slice_index_or (functions_of functions.now) k no_part) ≤ MOST_IN_FUNCTION }
    ensures { IfOk result (λ sizes. sizes.items ≡ map parts_words (functions_of functions.now)) }
{
    let mut sizes = Vec::new(alloc);
    for parts in functions {
        sizes.push(words_of_parts(parts.as_slice()))?;
    }
    Ok(sizes)
}
