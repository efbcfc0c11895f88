//! The words of functions.
ghost use Rattle.std.specs.Prelude.{◌≡◌, ℕ, ◌+◌, ◌<◌, ◌≤◌, ◌∷◌, ◌++◌, IfOk, OnOk, length, map, slice_index, slice_index_or};
ghost use Rattle.std.specs.List.{All, flat_map};
ghost use Rattle.patmos_code.specs.Codes.{code};
ghost use Rattle.patmos_instr.specs.Bundles.{FitsBundle};
ghost use Rattle.patmos_code.specs.declared.images.TheConstants.{MOST_IN_FUNCTION};
ghost use Rattle.sp_shape.specs.Parts.{no_part};
ghost use Rattle.sp_shape.specs.Shown.{plain_part, parts_of, functions_of};
ghost use Rattle.sp_shape.specs.Words.{bundles_words, part_words, parts_words};
ghost use Rattle.tc_link.specs.Flat as flat;
ghost use Rattle.tc_link.specs.Placed.{codes, others, function_words};

use crate::flows::{branch_back, call_to};
use patmos_code::encode;
use patmos_instr::{Addr22, Bundle};
use sp_shape::{Part, words_of_bundle};
use std::alloc::Global;
use tc_word::{List, OutOfMemory};

// adds the words of a bundle
fn push_bundle(words: &mut Vec<u32>, bundle: &Bundle) -> Result<(), OutOfMemory>
    ensures words { OnOk result (words.new.items ≡ words.old.items ++ code bundle.now) }
    ensures fit { FitsBundle bundle.now }
{
    let coded = encode(bundle);
    words.push(coded.first)?;
    if coded.two {
        words.push(coded.second)?;
    }
    Ok(())
}

// adds those of bundles as they are
fn push_bundles(words: &mut Vec<u32>, bundles: &[Bundle]) -> Result<(), OutOfMemory>
    ensures words { OnOk result (words.new.items ≡ words.old.items ++ codes bundles.now) }
    ensures fit { OnOk result (All FitsBundle bundles.now) }
{
    for bundle in bundles {
        push_bundle(words, bundle)?;
    }
    Ok(())
}

// adds those of the tail of a call, of the function that starts at a word
fn push_call(words: &mut Vec<u32>, start: Addr22, tail: &[Bundle]) -> Result<(), OutOfMemory>
    ensures words { OnOk result (words.new.items ≡ words.old.items ++ codes (flat.called start tail.now)) }
    ensures fit { OnOk result (All FitsBundle (flat.called start tail.now)) }
{
    let Some((first, slots)) = tail.split_first() else {
        return Ok(());
    };
    push_bundle(words, &call_to(start, first))?;
    push_bundles(words, slots)
}

// adds those of the tail of a loop, which begins so many words after the body's first
fn push_iteration(words: &mut Vec<u32>, body: u32, tail: &[Bundle]) -> Result<(), OutOfMemory>
    requires { body + bundles_words tail.now ≤ MOST_IN_FUNCTION }
    ensures words { OnOk result (words.new.items ≡ words.old.items ++ codes (flat.turned body tail.now)) }
    ensures fit { OnOk result (All FitsBundle (flat.turned body tail.now)) }
{
    let mut behind = body;
    for bundle in tail {
        push_bundle(words, &branch_back(behind, bundle))?;
        behind += words_of_bundle(bundle);
    }
    Ok(())
}

// where the function of a number starts: a well-formed shape calls none that is not there
fn start_of(places: &[Addr22], function: u32) -> Addr22
    ensures { result ≡ slice_index places.now function }
{
    match places.get(function as usize) {
        Some(place) => *place,
        None => Addr22::low(0),
    }
}

// adds those of a part, where functions start at these places
#[cycle(push)]
#[tactic(auto, unfolding(sp_shape::specs::Shown::plain_part))]
fn push_part(words: &mut Vec<u32>, part: &Part, places: &[Addr22]) -> Result<(), OutOfMemory>
    requires { part_words (plain_part part.now) ≤ MOST_IN_FUNCTION }
    ensures words { OnOk result (words.new.items
        ≡ words.old.items ++ codes (flat.flat_part (slice_index places.now) (plain_part part.now))) }
    ensures fit { OnOk result (All FitsBundle (flat.flat_part (slice_index places.now) (plain_part part.now))) }
{
    match part {
        Part::Straight { bundles } => push_bundles(words, bundles.as_slice()),
        Part::Repeat { body, tail, .. } => {
            let begin = words.len();
            push_parts(words, body.as_slice(), places)?;
            let body = words.len() - begin;
            push_iteration(words, body as u32, tail.as_slice())
        }
        Part::CallTo { function, tail } => {
            push_call(words, start_of(places, *function), tail.as_slice())
        }
        Part::Leave { tail } => push_bundles(words, tail.as_slice()),
    }
}

// adds those of parts
#[cycle(push)]
fn push_parts(words: &mut Vec<u32>, parts: &[Part], places: &[Addr22]) -> Result<(), OutOfMemory>
    requires { parts_words (parts_of parts.now) ≤ MOST_IN_FUNCTION }
    ensures words { OnOk result (words.new.items
        ≡ words.old.items ++ codes (flat.flat_parts (slice_index places.now) (parts_of parts.now))) }
    ensures fit { OnOk result (All FitsBundle (flat.flat_parts (slice_index places.now) (parts_of parts.now))) }
{
    for part in parts {
        push_part(words, part, places)?;
    }
    Ok(())
}

// adds the size of a function, and its words
fn push_function(
    words: &mut Vec<u32>,
    size: u32,
    parts: &[Part],
    places: &[Addr22],
) -> Result<(), OutOfMemory>
    requires size { size ≡ parts_words (parts_of parts.now) }
    requires small { size ≤ MOST_IN_FUNCTION }
    ensures words { OnOk result (words.new.items
        ≡ words.old.items ++ function_words (slice_index places.now) (parts_of parts.now)) }
    ensures fit { OnOk result (All FitsBundle (flat.flat_parts (slice_index places.now) (parts_of parts.now))) }
{
    words.push(size)?;
    push_parts(words, parts, places)
}

/// The words of functions that have these sizes and start at these places, the entry first.
pub fn words_of(
    alloc: Global,
    functions: &[List<Part>],
    entry: usize,
    sizes: &[u32],
    places: &[Addr22],
) -> Result<Vec<u32>, OutOfMemory>
    requires entry { entry < length functions.now }
    requires sizes { sizes.now ≡ map parts_words (functions_of functions.now) }
    requires small { (k : ℕ) → k < length functions.now → slice_index sizes.now k ≤ MOST_IN_FUNCTION }
    ensures words { IfOk result (λ words. words.items
        ≡ flat_map (λ k. function_words (slice_index places.now)
        (slice_index_or (functions_of functions.now) k no_part))
        (entry ∷ others entry (length functions.now))) }
    ensures fit { IfOk result (λ _. (k : ℕ) → k < length functions.now
        → All FitsBundle (flat.flat_parts (slice_index places.now)
        (slice_index_or (functions_of functions.now) k no_part))) }
{
    let mut words = Vec::new(alloc);
    push_function(
        &mut words,
        sizes[entry],
        functions[entry].as_slice(),
        places,
    )?;
    for (k, parts) in functions.iter().enumerate() {
        if k != entry {
            push_function(&mut words, sizes[k], parts.as_slice(), places)?;
        }
    }
    Ok(words)
}
