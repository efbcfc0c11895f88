//! The lines of functions.
ghost use Rattle.std.specs.Prelude.{◌≡◌, ◌<◌, ◌≤◌, ◌∷◌, ◌++◌, IfOk, OnOk, length, string_bytes, true};
ghost use Rattle.std.specs.List.{All};
ghost use Rattle.sp_shape.specs.Formed.{is_formed};
ghost use Rattle.sp_shape.specs.Shown.{parts_of, plain_part, plain_shape};
ghost use Rattle.patmos_code.specs.declared.images.TheConstants.{MOST_IN_FUNCTION};
ghost use Rattle.sp_shape.specs.Words.{parts_words};
ghost use Rattle.tc_link.specs.Placed as placed;
ghost use Rattle.tc_link.specs.Placed.{order};
ghost use Rattle.code_text.specs.Lines.{line_text, lines_text};
ghost use Rattle.code_text.specs.Listing as specs;
ghost use Rattle.code_text.specs.Runs.{AreRuns, count_of, shape_of};

use crate::bundles::name_of;
use crate::parts::{Spot, write_parts};
use crate::tallies::{Runs, Tally, function_tally};
use patmos_instr::{Bundle, Op, StackFunc};
use sp_shape::{Part, Shape};
use std::alloc::{AllocError, Global};
use std::fmt::Write;
use tc_word::Text;

/// Adds what a run consists of.
pub fn write_tally(text: &mut String, tally: Option<Tally>) -> Result<(), AllocError>
    ensures { OnOk result (string_bytes text.new ≡ string_bytes text.old ++ specs.tally_text tally) }
{
    match tally {
        None => text.push_str(" long"),
        Some(tally) => {
            let (bundles, transactions) = (tally.bundles, tally.transactions);
            write!(text, " bundles {bundles} transactions {transactions}")
        }
    }
}

// how many words of the stack an operation reserves, if it does
fn reserve_of(op: &Op) -> Option<u32>
    ensures { result ≡ specs.reserve_of op.now }
{
    match *op {
        Op::Stack {
            func: StackFunc::Sres,
            count,
        } => Some(count.number()),
        _ => None,
    }
}

// how many words of the stack bundles reserve
fn reserved_in(bundles: &[Bundle]) -> u32
    ensures { result ≡ specs.reserved_in bundles.now }
{
    for bundle in bundles {
        if let Some(count) = reserve_of(&bundle.first().op) {
            return count;
        }
    }
    0
}

// how many words of the stack the first part of a function reserves
#[tactic(auto, unfolding(sp_shape::specs::Shown::plain_part))]
fn reserved_by(part: &Part) -> u32
    ensures { result ≡ specs.reserved_by (plain_part part.now) }
{
    match part {
        Part::Straight { bundles } => reserved_in(bundles.as_slice()),
        Part::Repeat { .. } | Part::CallTo { .. } | Part::Leave { .. } => 0,
    }
}

// how many words of the stack a function reserves at its begin
fn reserved(parts: &[Part]) -> u32
    ensures { result ≡ specs.reserved (parts_of parts.now) }
{
    match parts {
        [first, ..] => reserved_by(first),
        [] => 0,
    }
}

// the parts of a function
fn parts_at<'a>(runs: &Runs<'a>, function: usize) -> &'a [Part]
    requires runs { AreRuns runs.now }
    requires within { function < count_of runs.now }
    ensures parts { parts_of result.now ≡ placed.function (shape_of runs.now) function }
    ensures small { parts_words (parts_of result.now) ≤ MOST_IN_FUNCTION }
    ensures few { specs.parts_loops (parts_of result.now) ≤ MOST_IN_FUNCTION }
{
    runs.shape.functions.as_slice()[function].as_slice()
}

// how many words of the stack it reserves
fn stack_at(runs: &Runs<'_>, function: usize) -> u32
    requires runs { AreRuns runs.now }
    requires within { function < count_of runs.now }
    ensures { result ≡ specs.reserved (placed.function (shape_of runs.now) function) }
{
    reserved(parts_at(runs, function))
}

// adds the lines of its parts, where its words are the first of these
fn write_body(
    text: &mut String,
    names: &[Text],
    runs: &Runs<'_>,
    words: &[u32],
    function: usize,
) -> Result<(), AllocError>
    requires runs { AreRuns runs.now }
    requires within { function < count_of runs.now }
    ensures { OnOk result (string_bytes text.new ≡ string_bytes text.old ++ lines_text
        (specs.parts_lines names.now words.now 0 0 (placed.function (shape_of runs.now) function))) }
{
    let first = Spot {
        at: 0,
        loop_number: 0,
    };
    write_parts(text, names, words, first, parts_at(runs, function))?;
    Ok(())
}

// adds the comment before a function of this name: its words, those of the stack, and what a run consists of
fn write_note(
    text: &mut String,
    name: &str,
    size: u32,
    stack: u32,
    tally: Option<Tally>,
) -> Result<(), AllocError>
    ensures { OnOk result (string_bytes text.new ≡ string_bytes text.old
        ++ line_text (specs.note_for name.now size stack tally)) }
{
    write!(text, "# function {name} words {size} stack {stack}")?;
    write_tally(text, tally)?;
    text.push_str("\n")
}

// adds the comment before a function of so many words
fn write_head(
    text: &mut String,
    names: &[Text],
    runs: &Runs<'_>,
    size: u32,
    function: usize,
) -> Result<(), AllocError>
    requires runs { AreRuns runs.now }
    requires within { function < count_of runs.now }
    ensures { OnOk result (string_bytes text.new ≡ string_bytes text.old
        ++ line_text (specs.function_note names.now runs.now.each (shape_of runs.now) size function)) }
{
    let name = name_of(names, function as u32);
    let stack = stack_at(runs, function);
    write_note(text, name, size, stack, function_tally(runs, function))
}

// adds the lines of a function of so many words, which are the first of these
fn write_function(
    text: &mut String,
    names: &[Text],
    runs: &Runs<'_>,
    size: u32,
    words: &[u32],
    function: usize,
) -> Result<(), AllocError>
    requires runs { AreRuns runs.now }
    requires within { function < count_of runs.now }
    ensures { OnOk result (string_bytes text.new ≡ string_bytes text.old ++ lines_text
        (specs.function_lines names.now runs.now.each (shape_of runs.now) size words.now function)) }
{
    write_head(text, names, runs, size, function)?;
    let name = name_of(names, function as u32);
    write!(text, ".func {name}\n")?;
    write_body(text, names, runs, words, function)
}

/// Adds the lines of functions in the order of the image's words, in which each function's size stands before its
/// words.
pub fn write_functions(
    text: &mut String,
    names: &[Text],
    runs: &Runs<'_>,
    words: &[u32],
    order: &[usize],
) -> Result<(), AllocError>
    requires runs { AreRuns runs.now }
    requires within { All (λ k. k < count_of runs.now) order.now }
    ensures { OnOk result (string_bytes text.new ≡ string_bytes text.old ++ lines_text
        (specs.functions_lines names.now runs.now.each (shape_of runs.now) words.now order.now)) }
{
    let mut words = words;
    for function in order {
        let Some((size, body)) = words.split_first() else {
            return Ok(());
        };
        write_function(text, names, runs, *size, body, *function)?;
        let (_, rest) = body.split_at(body.len().min(*size as usize));
        words = rest;
    }
    Ok(())
}

/// The functions of a shape in the order of its image: the entry, and the others by their numbers.
pub fn order_of(alloc: Global, shape: &Shape) -> Result<Vec<usize>, AllocError>
    requires { is_formed (plain_shape shape.now) ≡ true }
    ensures order { IfOk result (λ made. made.items ≡ order (plain_shape shape.now)) }
    ensures within { IfOk result (λ made. All (λ k. k < length (plain_shape shape.now).functions) made.items) }
{
    let entry = shape.entry as usize;
    let mut made = Vec::new(alloc);
    made.push(entry)?;
    for function in 0..shape.functions.as_slice().len() {
        if function != entry {
            made.push(function)?;
        }
    }
    Ok(made)
}
