ghost use Rattle.std.specs.Prelude.{◌≡◌, ◌≤◌, ◌<◌, ◌^◌, ◌++◌, ◌||◌, ◌+◌, ◌+ℤ◌, pos, ℕ, ◌==◌, List, [], ◌∷◌, map, length, take, drop, slice_index, if◌then◌else◌, string_bytes, unwrap_or, IfOk, OnOk, Ok, codes};
ghost use Rattle.std.specs.List.{zip};
ghost use Rattle.patmos_instr.specs.Bundles.{PlainBundle};
ghost use Rattle.patmos_asm.specs.Assembly.{code_of};
ghost use Rattle.patmos_asm.specs.Printed as specs;
ghost use Rattle.patmos_asm.specs.Written.{bundle_text, instr_text};
ghost use Rattle.patmos_asm.specs.Targets.{branched_in, name_in, name_or};

use crate::codes::Code;
use crate::writers::{write_guard, write_plain};
use indexmap::{IndexMap, IndexSet};
use patmos_code::decode;
use patmos_instr::{Bundle, Instr, Off22, Op};
use std::alloc::{AllocError, Global};
use std::fmt::Write;
use tc_word::{OutOfMemory, Text};

// the bundle at the front of a function's words, and how many words it takes
fn first_bundle(words: &[u32]) -> (Option<Bundle>, usize)
    requires { 0 < length words.now }
    ensures bundle { (at : ℕ) → specs.bundles_from at words.now
        ≡ specs.before_rest at result.0 (specs.bundles_from (at + result.1) (drop result.1 words.now)) }
    ensures size { (0 < result.1) × (result.1 ≤ length words.now) }
{
    match words {
        [first, second, ..] if *first < 1 << 31 => (decode(*first, *second), 1),
        [first, second, ..] => (decode(*first, *second), 2),
        [first] => (decode(*first, 0), 1),
        [] => (None, 0),
    }
}

// the offset that a branch goes to
fn target(at: usize, offset: Off22) -> usize
    requires { at < 2 ^ 62 }
    ensures { result ≡ specs.natural (pos at +ℤ offset) }
{
    let place = at as i64 + i64::from(offset.number());
    if place < 0 { 0 } else { place as usize }
}

// the offset that a branch goes to, where the bundle at this one is a branch
fn target_of(at: usize, op: &Op) -> Option<usize>
    requires { at < 2 ^ 62 }
    ensures { result ≡ specs.target_of at op.now }
{
    match *op {
        Op::Branch { offset } => Some(target(at, offset)),
        _ => None,
    }
}

// notes the offset that a bundle branches to, if it does
#[tactic(auto, using(crate::proofs::Targets::any_insert))]
fn note_target(
    targets: &mut IndexSet<usize>,
    at: usize,
    bundle: &Option<Bundle>,
) -> Result<(), AllocError>
    requires { at < 2 ^ 62 }
    ensures { OnOk result ((n : ℕ) → branched_in targets.new n
        ≡ (specs.is_target n (specs.targets_of (specs.before_rest at bundle.now [])) || branched_in targets.old n)) }
{
    if let Some(bundle) = bundle {
        if let Some(target) = target_of(at, &bundle.first().op) {
            targets.insert(target)?;
        }
    }
    Ok(())
}

// the offsets that are branched to in a function
fn targets_of(alloc: Global, body: &[u32]) -> Result<IndexSet<usize>, AllocError>
    requires { length body.now < 2 ^ 62 }
    ensures { IfOk result (λ targets. (n : ℕ)
        → branched_in targets n ≡ specs.is_target n (specs.targets_of (specs.bundles_from 0 body.now))) }
{
    let mut targets = IndexSet::new(alloc);
    let mut at = 0;
    'bundles: while at < body.len() {
        let (_, rest) = body.split_at(at);
        let (bundle, size) = first_bundle(rest);
        note_target(&mut targets, at, &bundle)?;
        at += size;
    }
    Ok(targets)
}

/// The names of functions by the places of their first words.
type Functions<'a> = IndexMap<u32, &'a str>;

// the name of the function that starts at a place
fn name_at<'a>(functions: &Functions<'a>, start: u32) -> &'a str
    ensures { result.now ≡ name_in functions.now start }
{
    match functions.get(&start) {
        Some(name) => *name,
        None => "",
    }
}

// adds the first instruction of the bundle at this offset
fn write_first(
    text: &mut String,
    functions: &Functions<'_>,
    at: usize,
    instr: &Instr,
) -> Result<(), AllocError>
    requires { at < 2 ^ 62 }
    ensures { OnOk result (string_bytes text.new ≡ string_bytes text.old
        ++ instr_text (record {
          guard = instr.now.guard;
          draft = specs.named_op
              (name_in functions.now) at instr.now.op;
        })) }
{
    match instr.op {
        Op::Branch { offset } => {
            write_guard(text, instr.guard)?;
            let target = target(at, offset);
            write!(text, "br L{target}")
        }
        Op::Call { target } => {
            write_guard(text, instr.guard)?;
            let name = name_at(functions, target.number());
            write!(text, "call {name}")
        }
        Op::BranchFill { target } => {
            write_guard(text, instr.guard)?;
            let name = name_at(functions, target.number());
            write!(text, "brcf {name}")
        }
        _ => write_plain(text, instr),
    }
}

// adds the bundle at this offset
#[tactic(auto, unfolding(crate::specs::Written::bundle_text))]
fn write_bundle(
    text: &mut String,
    functions: &Functions<'_>,
    at: usize,
    bundle: &Bundle,
) -> Result<(), AllocError>
    requires { at < 2 ^ 62 }
    ensures { OnOk result (string_bytes text.new
        ≡ string_bytes text.old ++ bundle_text (specs.named (name_in functions.now) at bundle.now)) }
{
    let first = bundle.first();
    let Some(second) = bundle.second() else {
        return write_first(text, functions, at, &first);
    };
    text.push_str("{ ")?;
    write_first(text, functions, at, &first)?;
    text.push_str(" ; ")?;
    write_plain(text, &second)?;
    text.push_str(" }")
}

// adds the line of a label, where its offset is branched to
fn write_label(text: &mut String, targets: &IndexSet<usize>, at: usize) -> Result<(), AllocError>
    ensures { OnOk result (string_bytes text.new
        ≡ string_bytes text.old ++ specs.label_line (branched_in targets.now) at) }
{
    if targets.contains(&at) {
        write!(text, "L{at}:\n")
    } else {
        Ok(())
    }
}

// adds the lines of the bundle at this offset, if there is one
fn write_entry(
    text: &mut String,
    functions: &Functions<'_>,
    targets: &IndexSet<usize>,
    at: usize,
    bundle: &Option<Bundle>,
) -> Result<(), AllocError>
    requires { at < 2 ^ 62 }
    ensures { OnOk result (string_bytes text.new ≡ string_bytes text.old
        ++ specs.lines_of (name_in functions.now) (branched_in targets.now) (specs.before_rest at bundle.now [])) }
{
    if let Some(bundle) = bundle {
        write_label(text, targets, at)?;
        text.push_str("  ")?;
        write_bundle(text, functions, at, bundle)?;
        text.push_str("\n")?;
    }
    Ok(())
}

// adds the lines of a function's bundles
fn write_body(
    text: &mut String,
    functions: &Functions<'_>,
    targets: &IndexSet<usize>,
    body: &[u32],
) -> Result<(), AllocError>
    requires { length body.now < 2 ^ 62 }
    ensures { OnOk result (string_bytes text.new ≡ string_bytes text.old
        ++ specs.lines_of (name_in functions.now) (branched_in targets.now) (specs.bundles_from 0 body.now)) }
{
    let mut at = 0;
    'bundles: while at < body.len() {
        let (_, rest) = body.split_at(at);
        let (bundle, size) = first_bundle(rest);
        write_entry(text, functions, targets, at, &bundle)?;
        at += size;
    }
    Ok(())
}

// adds a function
fn write_function(
    alloc: Global,
    text: &mut String,
    functions: &Functions<'_>,
    name: &str,
    body: &[u32],
) -> Result<(), AllocError>
    requires { length body.now < 2 ^ 62 }
    ensures { OnOk result (string_bytes text.new
        ≡ string_bytes text.old ++ specs.function_text (name_in functions.now) name.now body.now) }
{
    let targets = targets_of(alloc, body)?;
    write_head(text, name)?;
    write_body(text, functions, &targets, body)?;
    write_label(text, &targets, body.len())?;
    Ok(())
}

// adds the line that begins a function
fn write_head(text: &mut String, name: &str) -> Result<(), AllocError>
    ensures { OnOk result (string_bytes text.new ≡ string_bytes text.old ++ specs.head_line name.now) }
{
    write!(text, ".func {name}\n")
}

// the words of the function that starts at a place
fn body_at(words: &[u32], start: u32) -> &[u32]
    ensures body { result.now ≡ specs.body_at words.now start }
    ensures small { length result.now < 2 ^ 62 }
{
    let size = match words.get((start as usize).saturating_sub(1)) {
        Some(size) => *size as usize,
        None => 0,
    };
    let (_, rest) = words.split_at(words.len().min(start as usize));
    let (body, _) = rest.split_at(rest.len().min(size));
    body
}

// sets the name of a place, unless it has one
fn set_first<'a>(functions: &mut Functions<'a>, start: u32, name: &'a str) -> Result<(), AllocError>
    ensures { OnOk result ((q : ℕ) (other : List ℕ) → name_or functions.new q other
        ≡ name_or functions.old q (if q == start then name.now else other)) }
{
    if functions.get(&start).is_none() {
        functions.insert(start, name)?;
    }
    Ok(())
}

// the names of functions by the places of their first words
fn functions_of<'a>(
    alloc: Global,
    starts: &[u32],
    names: &'a [Text],
) -> Result<Functions<'a>, AllocError>
    ensures { IfOk result (λ functions. (q : ℕ) → name_in functions q ≡ specs.name_at (zip starts.now names.now) q) }
{
    let mut functions = IndexMap::new(alloc);
    let mut starts = starts;
    let mut names = names;
    'functions: while let [start, more_starts @ ..] = starts {
        let [name, more_names @ ..] = names else {
            return Ok(functions);
        };
        set_first(&mut functions, *start, name.as_str())?;
        starts = more_starts;
        names = more_names;
    }
    Ok(functions)
}

// the text of functions
fn write_functions(
    alloc: Global,
    functions: &Functions<'_>,
    words: &[u32],
    starts: &[u32],
    names: &[Text],
) -> Result<String, AllocError>
    ensures { IfOk result (λ text. string_bytes text
        ≡ specs.functions_text (name_in functions.now) words.now (zip starts.now names.now)) }
{
    let mut text = String::new(alloc);
    let mut starts = starts;
    let mut names = names;
    'functions: while let [start, more_starts @ ..] = starts {
        let [name, more_names @ ..] = names else {
            return Ok(text);
        };
        let body = body_at(words, *start);
        write_function(alloc, &mut text, functions, name.as_str(), body)?;
        starts = more_starts;
        names = more_names;
    }
    Ok(text)
}

/// A text whose code is this one, with a label at each place that is branched to and each bundle on a line
/// of its own: the code of that text is this code.
#[tactic(auto, unfolding(crate::specs::Printed::printed), using(crate::proofs::RoundTrip::text_comes_back))]
pub fn print(alloc: Global, code: &Code) -> Result<Vec<u8>, OutOfMemory>
    ensures layout { IfOk result (λ text. text.items ≡ specs.printed code.now) }
    ensures comes_back { IfOk result (λ text. code_of text.items ≡ Ok code.now) }
{
    let functions = functions_of(alloc, code.starts(), code.names())?;
    let text = write_functions(alloc, &functions, code.words(), code.starts(), code.names())?;
    Ok(text.into_bytes())
}
