//! Functions one after another, and units.
ghost use Rattle.std.specs.Prelude.{◌≡◌, ◌+◌, ◌-◌, ◌<◌, ◌^◌, length, slice_index, IfOk, true};
ghost use Rattle.sp_tree.specs.Cost.{cost};
ghost use Rattle.sp_tree.specs.Formed.{slots_of, stmts_levels};
ghost use Rattle.sp_tree.specs.Shown.{plain_function, functions_of, plain_unit, stmts_of};
ghost use Rattle.sp_inline.specs.Shown.{measured_functions};
ghost use Rattle.sp_inline.specs.Taken as specs;

use crate::callers::Caller;
use crate::levels::levels_of;
use crate::measured::Measured;
use crate::room::Room;
use crate::walk::take_statements;
use sp_tree::{SpFunction, SpStmt, SpUnit};
use std::alloc::Global;
use tc_word::{List, OutOfMemory};

// a word of a list; 0 where there is none
fn word_at(words: &[u32], at: usize) -> u32
    ensures { result ≡ slice_index words.now at }
{
    words.get(at).copied().unwrap_or(0)
}

// the room that a function begins with, which may have so many words of code
fn first_room(most: u32, own: &Measured) -> Room
    requires { 0 < own.now.words }
    ensures { result ≡ specs.room_of (most - cost (plain_function own.now.function))
        (slots_of (plain_function own.now.function)) (stmts_levels (stmts_of own.now.function.body)) }
{
    Room {
        left: u64::from(most).saturating_sub(own.cost.saturating_add(56)) as u32,
        words: own.words,
        levels: own.levels as u32,
    }
}

// a function of other statements, which name so many words
fn grown(function: SpFunction, words: u32, body: Vec<SpStmt>) -> SpFunction
    requires { words + (stmts_levels (stmts_of body.items) + 2) < 2 ^ 32 }
    ensures { plain_function result ≡ record (plain_function function) {
      frame = words + (stmts_levels (stmts_of body.items) + 2);
      body = stmts_of body.items;
    } }
{
    let levels = levels_of(body.as_slice()) as u32;
    SpFunction {
        frame: words + (levels + 2),
        parameters: function.parameters,
        mask: function.mask,
        result: function.result,
        body: List::of(body),
    }
}

// the statements of a function that names no words but its own, with the calls that it takes in of those before it in a
// frame of so many words, and the room that is left
fn take_body(
    alloc: Global,
    earlier: &[Measured],
    most: u32,
    frame: u32,
    own: &Measured,
) -> Result<(Vec<SpStmt>, Room), OutOfMemory>
    requires { specs.is_whole (length earlier.now) (plain_function own.now.function) ≡ true }
    ensures { IfOk result (λ taken. specs.with_room (stmts_of taken.0.items) taken.1
        ≡ specs.body_taken (measured_functions earlier.now) most frame (plain_function own.now.function)) }
{
    let caller = Caller {
        functions: earlier,
        words: own.words,
        frame,
    };
    let room = first_room(most, own);
    let mut body = Vec::new(alloc);
    let statements = own.function.body.as_slice();
    let left = take_statements(alloc, &caller, 0, room, &mut body, statements)?;
    Ok((body, left))
}

// the function with these statements
fn take_whole(
    alloc: Global,
    earlier: &[Measured],
    most: u32,
    frame: u32,
    own: Measured,
) -> Result<Measured, OutOfMemory>
    requires { specs.is_whole (length earlier.now) (plain_function own.function) ≡ true }
    ensures { let fs = measured_functions earlier.now in
        let f = plain_function own.function in
        IfOk result (λ m. plain_function m.function
        ≡ specs.grown f (specs.body_taken fs most frame f)) }
{
    let (body, left) = take_body(alloc, earlier, most, frame, &own)?;
    let Measured { function, .. } = own;
    Ok(Measured::of(grown(function, left.words, body)))
}

// a function with the calls that it takes in of those before it
#[tactic(auto, using(crate::proofs::InOrder::whole_taken, crate::proofs::InOrder::other_taken))]
fn take_function(
    alloc: Global,
    earlier: &[Measured],
    most: u32,
    frame: u32,
    own: Measured,
) -> Result<Measured, OutOfMemory>
    ensures { IfOk result (λ m. plain_function m.function
        ≡ specs.function_taken (measured_functions earlier.now) most frame (plain_function own.function)) }
{
    if own.is_whole(earlier.len()) {
        let taken = take_whole(alloc, earlier, most, frame, own)?;
        Ok(taken)
    } else {
        Ok(own)
    }
}

// the functions alone
#[tactic(auto, using(crate::proofs::InOrder::next_shown))]
fn functions_in(alloc: Global, measured: Vec<Measured>) -> Result<List<SpFunction>, OutOfMemory>
    ensures { IfOk result (λ fs. functions_of fs ≡ measured_functions measured.items) }
{
    let mut functions = Vec::new(alloc);
    for one in measured {
        let Measured { function, .. } = one;
        functions.push(function)?;
    }
    Ok(List::of(functions))
}

// functions in order, each with the calls that it takes in
#[tactic(auto, using(crate::proofs::InOrder::next_function))]
fn take_functions(
    alloc: Global,
    most: &[u32],
    frames: &[u32],
    functions: Vec<SpFunction>,
) -> Result<List<SpFunction>, OutOfMemory>
    ensures { IfOk result (λ fs. functions_of fs ≡ specs.first_taken most.now frames.now
        (functions_of functions.items) (length functions.items)) }
{
    let mut made = Vec::new(alloc);
    for function in functions {
        let most = word_at(most, made.len());
        let frame = word_at(frames, made.len());
        let own = Measured::of(function);
        let taken = take_function(alloc, made.as_slice(), most, frame, own)?;
        made.push(taken)?;
    }
    functions_in(alloc, made)
}

/// A unit, of which each function has at most so many words of code and of its frame, with the calls in loops that its
/// functions take in. It is `Err` where memory runs out.
pub fn take_in(
    alloc: Global,
    most: &[u32],
    frames: &[u32],
    unit: SpUnit,
) -> Result<SpUnit, OutOfMemory>
    ensures { IfOk result (λ u. plain_unit u ≡ specs.unit_taken most.now frames.now (plain_unit unit)) }
{
    let SpUnit {
        functions,
        entry,
        initial,
        input_at,
        input_room,
    } = unit;
    let functions = take_functions(alloc, most, frames, functions.into_vec())?;
    Ok(SpUnit {
        functions,
        entry,
        initial,
        input_at,
        input_room,
    })
}
