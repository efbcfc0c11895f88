//! Functions and units, made of programs whose names are resolved.
ghost use Rattle.std.specs.Prelude.{◌≡◌, ◌+◌, ◌<◌, ◌≤◌, ◌^◌, ℕ, List, length, map, slice_index, slice_index_or, IfOk, true};
ghost use Rattle.std.specs.List.{list_any};
ghost use Rattle.c_check.specs.Capped.{capped};
ghost use Rattle.c_tree.specs.Layout as layout;
ghost use Rattle.c_tree.specs.Plain.{plain, plain_item};
ghost use Rattle.sp_tree.specs.Begun.{straight};
ghost use Rattle.sp_tree.specs.Cost.{cost};
ghost use Rattle.sp_tree.specs.Formed.{is_formed};
ghost use Rattle.sp_tree.specs.Shown.{plain_function, functions_of, plain_unit};
ghost use Rattle.sp_tree.specs.Statements.{no_function};
ghost use Rattle.sp_tree.specs.Uses.{uses_of};
ghost use Rattle.c_meaning.specs.Actions.{no_action};
ghost use Rattle.c_meaning.specs.Begun.{meaning};
ghost use Rattle.c_meaning.specs.Shown.{actions_of, counts_of, bodies_of};
ghost use Rattle.c_mentions.specs.Mentions.{Array, mentions, assigns, sends_to};
ghost use Rattle.single_path.specs.Meant.{IsMeant};
ghost use Rattle.single_path.specs.Single as specs;
ghost use Rattle.single_path.specs.Used.{reads_region, writes_region, is_send_to, memory_of};

use crate::masks::begun_mask;
use crate::part_words::PartWords;
use crate::statements::{add_all, add_mask};
use crate::widths::{exact_levels, exact_width};
use c_check::{frame_of, weight_of};
use c_meaning::{InputPlace, Resolved, Routine, add_initial, input_place, resolve};
use c_tree::{Checked, Item};
use sp_inline::take_in;
use sp_tree::{SpFunction, SpUnit};
use std::alloc::Global;
use tc_word::{List, OutOfMemory};

// a function with so many parameters
fn function(alloc: Global, routine: Routine) -> Result<SpFunction, OutOfMemory>
    requires { (specs.made_function routine.parameters (actions_of routine.body)).frame < 2 ^ 32 }
    ensures { IfOk result (λ f. plain_function f ≡ specs.made_function routine.parameters (actions_of routine.body)) }
{
    let Routine { parameters, body } = routine;
    let parameters = parameters as u32;
    let width = exact_width(body.as_slice());
    let part = PartWords::outermost(parameters.max(width.variables));
    let mut made = Vec::new(alloc);
    let mask = begun_mask(alloc, part)?;
    add_mask(&mut made, part.function, mask)?;
    add_all(alloc, part, &mut made, body)?;
    let levels = exact_levels(made.as_slice());
    Ok(SpFunction {
        // after the words that are named stand those that code keeps for iterations and the return
        frame: part.free + width.masks + (levels + 2),
        parameters,
        mask: part.function,
        result: part.result,
        body: List::of(made),
    })
}

// functions, each of the actions of a routine
#[tactic(auto)]
fn functions(alloc: Global, routines: List<Routine>) -> Result<List<SpFunction>, OutOfMemory>
    requires { (k : ℕ) → k < length (bodies_of routines)
        → (specs.made_function (slice_index (counts_of routines) k)
        (slice_index_or (bodies_of routines) k no_action)).frame < 2 ^ 32 }
    ensures { IfOk result (λ fs. functions_of fs ≡ specs.made_functions (counts_of routines) (bodies_of routines)) }
{
    let mut made = Vec::new(alloc);
    for routine in routines.into_vec() {
        made.push(function(alloc, routine)?)?;
    }
    Ok(List::of(made))
}

// the number of `main`, which a valid program has
fn entry_of(main: Option<usize>) -> u32
    requires { specs.entry_of main < 2 ^ 32 }
    ensures { result ≡ specs.entry_of main }
{
    match main {
        None => 0,
        Some(number) => number as u32,
    }
}

// the words that private memory begins with, from word 4 on
fn initial_words(alloc: Global, items: &[Item]) -> Result<List<u32>, OutOfMemory>
    ensures { IfOk result (λ ws. ws ≡ layout.initial_of (map plain_item items.now)) }
{
    let mut words = Vec::new(alloc);
    add_initial(&mut words, items)?;
    Ok(List::of(words))
}

// the tree with all its calls, part by part
fn tree_of(alloc: Global, program: &Checked) -> Result<SpUnit, OutOfMemory>
    ensures { IfOk result (λ u. plain_unit u ≡ specs.with_calls (plain program.now.unit)) }
{
    let items = program.unit.items.as_slice();
    let resolved = resolve(alloc, program)?;
    let Resolved { routines, main } = resolved;
    let functions = functions(alloc, routines)?;
    let entry = entry_of(main);
    let initial = initial_words(alloc, items)?;
    let InputPlace { at, room } = input_place(items);
    Ok(SpUnit {
        functions,
        entry,
        initial,
        input_at: at as u32,
        input_room: room as u32,
    })
}

// what the functions weigh, in order
#[tactic(auto, using(crate::proofs::Limited::next_weight, crate::proofs::Limited::same_weights, crate::proofs::Limited::all_weights))]
fn weights(alloc: Global, items: &[Item]) -> Result<Vec<u32>, OutOfMemory>
    ensures { IfOk result (λ ws. ws.items ≡ map capped (specs.weights_in (map plain_item items.now))) }
{
    let mut weights = Vec::new(alloc);
    for item in items {
        match item {
            Item::Function { function } => weights.push(weight_of(function))?,
            Item::Global { .. } => {}
        }
    }
    Ok(weights)
}

// how many words the frames of the functions may have, in order
#[tactic(auto, using(crate::proofs::Limited::next_frame, crate::proofs::Limited::same_frames, crate::proofs::Limited::all_frames))]
fn frames(alloc: Global, items: &[Item]) -> Result<Vec<u32>, OutOfMemory>
    ensures { IfOk result (λ ws. ws.items ≡ map capped (specs.frames_in (map plain_item items.now))) }
{
    let mut frames = Vec::new(alloc);
    for item in items {
        match item {
            Item::Function { function } => frames.push(frame_of(function))?,
            Item::Global { .. } => {}
        }
    }
    Ok(frames)
}

// the tree, with the calls in loops that its functions take in
fn taken_tree(alloc: Global, program: &Checked) -> Result<SpUnit, OutOfMemory>
    ensures { IfOk result (λ u. plain_unit u ≡ specs.single (plain program.now.unit)) }
{
    let items = program.unit.items.as_slice();
    let tree = tree_of(alloc, program)?;
    let weights = weights(alloc, items)?;
    let frames = frames(alloc, items)?;
    take_in(alloc, weights.as_slice(), frames.as_slice(), tree)
}

/// The single-path tree of a valid program. It is `Err` where memory runs out.
pub fn convert(alloc: Global, program: &Checked) -> Result<SpUnit, OutOfMemory>
    ensures is { IfOk result (λ u. plain_unit u ≡ specs.single (plain program.now.unit)) }
    ensures formed { IfOk result (λ u. is_formed (plain_unit u) ≡ true) }

    // For every input, and all words that shared and communication memory begin with.
    ensures preserves { IfOk result (λ u. (input : List ℕ) (shared comm : ℕ → ℕ)
        → IsMeant (straight (plain_unit u) input shared comm) (meaning (plain program.now.unit) input shared comm)) }

    // Each function costs at most what it weighs, and has at most the frame that is counted.
    ensures cost { IfOk result (λ u. (k : ℕ) → k < length (plain_unit u).functions
        → cost (slice_index_or (plain_unit u).functions k no_function)
        ≤ slice_index (specs.weights_in (plain program.now.unit)) k) }
    ensures frame { IfOk result (λ u. (k : ℕ) → k < length (plain_unit u).functions
        → (slice_index_or (plain_unit u).functions k no_function).frame
        ≤ slice_index (specs.frames_in (plain program.now.unit)) k) }

    // What others see is used only where the text uses it.
    ensures reads { IfOk result (λ u. (a : Array)
        → list_any (reads_region (memory_of a)) (uses_of (plain_unit u)) ≡ true
        → mentions a (plain program.now.unit) ≡ true) }
    ensures writes { IfOk result (λ u. (a : Array)
        → list_any (writes_region (memory_of a)) (uses_of (plain_unit u)) ≡ true
        → assigns a (plain program.now.unit) ≡ true) }
    ensures sends { IfOk result (λ u. (core : ℕ) → list_any (is_send_to core) (uses_of (plain_unit u)) ≡ true
        → sends_to core (plain program.now.unit) ≡ true) }
{
    taken_tree(alloc, program)
}
