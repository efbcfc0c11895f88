//! Functions and tasks.
ghost use Rattle.std.specs.Prelude.{◌≡◌, ◌+◌, ◌++◌, ◌<◌, ◌≤◌, ℕ, List, [], true, IfOk, OnOk, length, slice_index_or, is_none};
ghost use Rattle.sp_emit.specs.Functions as specs;
ghost use Rattle.sp_emit.specs.Chains.{takes_at_most};
ghost use Rattle.sp_emit.specs.Fits.{FunctionFits};
ghost use Rattle.sp_emit.specs.Means.{HasConstants, HoldsWords};
ghost use Rattle.sp_emit.specs.Places as places;
ghost use Rattle.sp_emit.specs.Ran.{begun_memory};
ghost use Rattle.sp_emit.specs.Serving.{Answers};
ghost use Rattle.sp_shape.specs.Formed as shape;
ghost use Rattle.sp_shape.specs.Bundles.{is_steady, parts_all, parts_idle};
ghost use Rattle.sp_shape.specs.Parts.{no_part, straight, one, joined};
ghost use Rattle.sp_shape.specs.Run.{Back, at_begin, by_words, run};
ghost use Rattle.sp_shape.specs.Shown.{parts_of, functions_of, plain_shape};
ghost use Rattle.sp_shape.specs.Trail.{trail};
ghost use Rattle.sp_shape.specs.Words.{parts_room};
ghost use Rattle.sp_tree.specs.Begun.{begun, straight as task_straight};
ghost use Rattle.sp_tree.specs.Cost.{cost};
ghost use Rattle.sp_tree.specs.Formed as tree;
ghost use Rattle.sp_tree.specs.Statements.{no_function};
ghost use Rattle.sp_tree.specs.Shown.{plain_function, plain_unit};
ghost use Rattle.sp_tree.specs.Shown as trees;

use crate::flags::{begun_body, flags_end, flags_from, statements_spared};
use crate::instructions::{
    always, combine, compare_short, copy, from_special, idle, load_slot, returning, set_short,
    stack_op, store_slot, to_special, with_short,
};
use crate::parts::{listed, push, push_straight};
use crate::places::{
    base_slot, flag_of, frame_words, have_calls, homes_over, is_in_register, read_word, set_word,
    top_from, words_of,
};
use crate::registers::{FIRST, MASK, OVERRUN, RESULT, SPARE, pred, reg};
use crate::stands::Homes;
use crate::statements::statements;
use patmos_instr::{Bundle, CmpFunc, ImmFunc, PredFunc, Special, StackFunc, WritableSpecial};
use sp_shape::{Part, Shape};
use sp_tree::{SpFunction, SpUnit};
use std::alloc::Global;
use tc_word::{List, OutOfMemory};

// the arguments go to the first words
fn keep_arguments(bundles: &mut Vec<Bundle>, homes: u32, parameters: u32) -> Result<(), OutOfMemory>
    requires { parameters ≤ 6 }
    ensures { OnOk result (bundles.new.items ≡ bundles.old.items ++ specs.arguments_kept homes parameters) }
{
    for n in 0..parameters {
        bundles.push(set_word(homes, always(), n, reg(FIRST + n)))?;
    }
    Ok(())
}

// the words that stand in predicates and in registers are set to 0
fn clear_words(bundles: &mut Vec<Bundle>, homes: Homes, words: u32) -> Result<(), OutOfMemory>
    ensures { OnOk result (bundles.new.items ≡ bundles.old.items ++ places.words_cleared homes words) }
{
    for n in 0..words {
        clear_word(bundles, homes, n)?;
    }
    Ok(())
}

// one of them
#[tactic(auto, unfolding(crate::specs::Places::cleared_in))]
fn clear_word(bundles: &mut Vec<Bundle>, homes: Homes, slot: u32) -> Result<(), OutOfMemory>
    ensures { OnOk result (bundles.new.items ≡ bundles.old.items ++ places.word_cleared homes slot) }
{
    if let Some(p) = flag_of(homes.flags, slot) {
        bundles.push(combine(PredFunc::Pxor, p, pred(0), pred(0)))?;
    } else if is_in_register(homes.first, slot) {
        bundles.push(set_short(always(), reg(homes.first + slot), 0))?;
    }
    Ok(())
}

// the place to which a function returns is kept, where it calls others
#[tactic(auto, using(crate::proofs::Fitting::frame_most, crate::proofs::Fitting::frame_least))]
fn keep_place(bundles: &mut Vec<Bundle>, homes: u32, f: &SpFunction) -> Result<(), OutOfMemory>
    requires fits { FunctionFits (plain_function f.now) }
    ensures { OnOk result (bundles.new.items ≡ bundles.old.items ++ specs.place_kept homes (plain_function f.now)) }
{
    let spare = reg(SPARE);
    if have_calls(f.body.as_slice()) {
        let base = base_slot(homes, f);
        bundles.extend_from_slice(&[
            from_special(spare, Special::Srb),
            store_slot(always(), base, spare),
            from_special(spare, Special::Sro),
            store_slot(always(), base + 1, spare),
        ])?;
    }
    Ok(())
}

// and is brought back
#[tactic(auto, using(crate::proofs::Fitting::frame_most, crate::proofs::Fitting::frame_least))]
fn bring_place(bundles: &mut Vec<Bundle>, homes: u32, f: &SpFunction) -> Result<(), OutOfMemory>
    requires fits { FunctionFits (plain_function f.now) }
    ensures { OnOk result (bundles.new.items ≡ bundles.old.items ++ specs.place_brought homes (plain_function f.now)) }
{
    let spare = reg(SPARE);
    if have_calls(f.body.as_slice()) {
        let base = base_slot(homes, f);
        bundles.extend_from_slice(&[
            load_slot(spare, base),
            to_special(WritableSpecial::Srb, spare),
            load_slot(spare, base + 1),
            to_special(WritableSpecial::Sro, spare),
        ])?;
    }
    Ok(())
}

// words of the stack are taken, where there are any
#[tactic(auto)]
fn take_frame(bundles: &mut Vec<Bundle>, words: u32) -> Result<(), OutOfMemory>
    requires few { words ≤ 128 }
    ensures { OnOk result (bundles.new.items ≡ bundles.old.items ++ specs.words_taken words) }
{
    if words > 0 {
        bundles.push(stack_op(StackFunc::Sres, words))?;
    }
    Ok(())
}

// and are freed
#[tactic(auto)]
fn free_frame(bundles: &mut Vec<Bundle>, words: u32) -> Result<(), OutOfMemory>
    requires few { words ≤ 128 }
    ensures { OnOk result (bundles.new.items ≡ bundles.old.items ++ specs.words_freed words) }
{
    if words > 0 {
        bundles.push(stack_op(StackFunc::Sfree, words))?;
    }
    Ok(())
}

// the mask of a function goes to its word: in a predicate it is tested at once
fn keep_mask(bundles: &mut Vec<Bundle>, homes: Homes, f: &SpFunction) -> Result<(), OutOfMemory>
    requires { f.now.mask < 128 }
    ensures { OnOk result (bundles.new.items ≡ bundles.old.items ++ specs.mask_kept homes (plain_function f.now)) }
{
    let mask = reg(MASK);
    match flag_of(homes.flags, f.mask) {
        Some(p) => bundles.push(compare_short(CmpFunc::Eq, p, mask, 0))?,
        None => bundles.extend_from_slice(&[
            with_short(always(), ImmFunc::Xor, mask, mask, 1),
            set_word(homes.first, always(), f.mask, mask),
        ])?,
    }
    Ok(())
}

// a function takes its frame, and keeps its arguments, its mask and the place to which it returns
#[tactic(auto, using(crate::proofs::Fitting::few_parameters, crate::proofs::Fitting::mask_fits))]
fn begin(out: &mut Vec<Part>, homes: Homes, f: &SpFunction) -> Result<(), OutOfMemory>
    requires fits { FunctionFits (plain_function f.now) }
    ensures { OnOk result (parts_of out.new.items
        ≡ joined (parts_of out.old.items) (one (straight (specs.function_begin homes (plain_function f.now))))) }
{
    let mut bundles = Vec::new(*out.allocator());
    take_frame(&mut bundles, frame_words(homes.first, f))?;
    clear_words(&mut bundles, homes, words_of(f))?;
    keep_arguments(&mut bundles, homes.first, f.parameters)?;
    keep_mask(&mut bundles, homes, f)?;
    keep_place(&mut bundles, homes.first, f)?;
    push_straight(out, &bundles)
}

// a function brings back the place to which it returns, gives its result and the flag, and frees its frame
#[tactic(auto, using(crate::proofs::Fitting::result_fits))]
fn end(out: &mut Vec<Part>, homes: u32, f: &SpFunction) -> Result<(), OutOfMemory>
    requires fits { FunctionFits (plain_function f.now) }
    ensures { OnOk result (parts_of out.new.items
        ≡ joined (parts_of out.old.items) (one (straight (specs.function_end homes (plain_function f.now))))) }
{
    let mut bundles = Vec::new(*out.allocator());
    bring_place(&mut bundles, homes, f)?;
    bundles.extend_from_slice(&[
        read_word(homes, reg(RESULT), f.result),
        copy(reg(MASK), reg(OVERRUN)),
    ])?;
    free_frame(&mut bundles, frame_words(homes, f))?;
    push_straight(out, &bundles)
}

// the return
#[tactic(auto, unfolding(sp_shape::specs::Shown::plain_part))]
fn leave(out: &mut Vec<Part>) -> Result<(), OutOfMemory>
    ensures { OnOk result (parts_of out.new.items ≡ joined (parts_of out.old.items) (one specs.leaving)) }
{
    let tail = listed(*out.allocator(), &[returning(), idle(), idle(), idle()])?;
    push(out, Part::Leave { tail })
}

// the code of a function
#[tactic(auto, using(crate::proofs::Pushed::function_pushed, crate::proofs::Fitting::frame_least))]
fn function(alloc: Global, homes: Homes, f: &SpFunction) -> Result<List<Part>, OutOfMemory>
    requires fits { FunctionFits (plain_function f.now) }
    ensures { IfOk result (λ parts. parts_of parts ≡ specs.function_code homes (plain_function f.now)) }
{
    let mut parts = Vec::new(alloc);
    begin(&mut parts, homes, f)?;
    let body = begun_body(homes.flags, f);
    let frame = frame_words(homes.first, f);
    statements(&mut parts, homes, body, frame, f.frame - 3)?;
    end(&mut parts, homes.first, f)?;
    leave(&mut parts)?;
    Ok(List::of(parts))
}

// the code of functions
#[tactic(auto, using(crate::proofs::Fitting::function_fits))]
fn functions(alloc: Global, fs: &[SpFunction]) -> Result<List<List<Part>>, OutOfMemory>
    requires formed { tree.functions_formed (trees.functions_of fs.now) (length fs.now) ≡ true }
    ensures { IfOk result (λ made. functions_of made ≡ specs.codes (trees.functions_of fs.now)) }
{
    let mut made = Vec::new(alloc);
    let mut tops = Vec::new(alloc);
    let mut spared = Vec::new(alloc);
    for f in fs {
        let first = homes_over(tops.as_slice(), f);
        tops.push(top_from(first, f))?;
        let base = statements_spared(spared.as_slice(), f.body.as_slice());
        let flags = flags_from(base, f);
        spared.push(base.max(flags_end(flags)))?;
        let parts = function(alloc, Homes { first, flags }, f)?;
        made.push(parts)?;
    }
    Ok(List::of(made))
}

// a copy of these words
fn words(alloc: Global, words: &[u32]) -> Result<List<u32>, OutOfMemory>
    ensures { IfOk result (λ list. list ≡ words.now) }
{
    let mut list = Vec::new(alloc);
    list.extend_from_slice(words)?;
    Ok(List::of(list))
}

// the shape of the definition
fn shape_of(alloc: Global, unit: &SpUnit) -> Result<Shape, OutOfMemory>
    requires { tree.is_formed (plain_unit unit.now) ≡ true }
    ensures { IfOk result (λ s. plain_shape s ≡ specs.emitted (plain_unit unit.now)) }
{
    let functions = functions(alloc, unit.functions.as_slice())?;
    let initial = words(alloc, unit.initial.as_slice())?;
    Ok(Shape {
        functions,
        entry: unit.entry,
        initial,
        input_at: unit.input_at,
        input_room: unit.input_room,
    })
}

/// The code of a task's single-path trees, in the parts of a shape. It takes memory for all of it, and is `Err` where
/// memory runs out.
pub fn emit(alloc: Global, unit: &SpUnit) -> Result<Shape, OutOfMemory>
    requires formed { tree.is_formed (plain_unit unit.now) ≡ true }
    ensures is { IfOk result (λ s. plain_shape s ≡ specs.emitted (plain_unit unit.now)) }
    ensures formed { IfOk result (λ s. shape.is_formed (plain_shape s) ≡ true) }

    // For every input, all words that shared and communication memory begin with, and whatever places its calls are
    // said to return to.
    ensures preserves { IfOk result (λ s. (input : List ℕ) (shared comm : ℕ → ℕ) (backs : List Back)
        → HasConstants (plain_unit unit.now).functions → HoldsWords (begun (plain_unit unit.now) input shared comm)
        → Answers (task_straight (plain_unit unit.now) input shared comm)
        (at_begin (begun_memory (plain_unit unit.now) input shared comm) [] backs)
        (run by_words (trail (plain_shape s))
        (at_begin (begun_memory (plain_unit unit.now) input shared comm) [] backs))) }

    ensures slots { IfOk result (λ s. (k : ℕ) → k < length (plain_unit unit.now).functions
        → parts_idle (slice_index_or (plain_shape s).functions k no_part) ≡ true) }
    ensures alone { IfOk result (λ s. (k : ℕ) → k < length (plain_unit unit.now).functions
        → parts_all (λ b. is_none b.second) (slice_index_or (plain_shape s).functions k no_part) ≡ true) }
    ensures steady { IfOk result (λ s. (k : ℕ) → k < length (plain_unit unit.now).functions
        → parts_all is_steady (slice_index_or (plain_shape s).functions k no_part) ≡ true) }
    ensures room { IfOk result (λ s. (k : ℕ) → k < length (plain_unit unit.now).functions
        → 1 + parts_room (slice_index_or (plain_shape s).functions k no_part)
        ≤ cost (slice_index_or (plain_unit unit.now).functions k no_function)) }
    ensures frames { IfOk result (λ s. (k : ℕ) → k < length (plain_unit unit.now).functions
        → parts_all (takes_at_most (slice_index_or (plain_unit unit.now).functions k no_function).frame)
        (slice_index_or (plain_shape s).functions k no_part) ≡ true) }
{
    let shape = shape_of(alloc, unit)?;
    Ok(shape)
}
