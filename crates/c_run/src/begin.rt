//! What a task begins with.
ghost use Rattle.std.specs.Prelude.{◌≡◌, ◌+◌, ◌≤◌, ◌++◌, [], IfOk, length, map, replicate, take, drop, slice_index, vec_len};
ghost use Rattle.c_tree.specs.Layout as layout;
ghost use Rattle.c_tree.specs.Plain.{plain, plain_item};
ghost use Rattle.c_world.specs.Shown.{shown, rooms};
ghost use Rattle.c_meaning.specs.Begun.{begun, begun_private};
ghost use Rattle.c_meaning.specs.Rooms.{all_rooms};

use c_meaning::{add_initial, input_place};
use c_tree::{Checked, Item};
use c_world::Memory;
use local_store::{FIRST_DATA_WORD, PRIVATE_WORDS};
use std::alloc;
use tc_word::OutOfMemory;

/// The memories that a program begins with on its input, where `shared` and `comm` begin with 0.
pub fn begun_memory(
    alloc: alloc::Global,
    program: &Checked,
    input: &[u32],
) -> Result<Memory, OutOfMemory>
    ensures world { IfOk result (λ m. shown m [] ≡ begun (plain program.now.unit) input.now (λ _. 0) (λ _. 0)) }
    ensures rooms { IfOk result (λ m. rooms m ≡ all_rooms) }
{
    let private = private_words(alloc, program, input)?;
    let mut memory = Memory::new(alloc, 0)?;
    memory.private = private;
    Ok(memory)
}

// the words of private memory
fn private_words(
    alloc: alloc::Global,
    program: &Checked,
    input: &[u32],
) -> Result<Vec<u32>, OutOfMemory>
    ensures words { IfOk result (λ v. slice_index v.items ≡ begun_private (plain program.now.unit) input.now) }
    ensures room { IfOk result (λ v. vec_len v ≡ PRIVATE_WORDS) }
{
    let items = program.unit.items.as_slice();
    let mut words = first_words(alloc, items)?;
    words.resize(PRIVATE_WORDS, 0)?;
    let place = input_place(items);
    let reach = place.room.min(input.len());
    lay(&mut words, place.at, &input[..reach]);
    Ok(words)
}

// lays words over others, from one on
fn lay(words: &mut Vec<u32>, at: usize, over: &[u32])
    requires { at + length over.now ≤ vec_len words.old }
    ensures words { words.new.items
        ≡ take at words.old.items ++ (over.now ++ drop (at + length over.now) words.old.items) }
    ensures room { vec_len words.new ≡ vec_len words.old }
{
    words[at..at + over.len()].copy_from_slice(over);
}

// the words up to the last first value
fn first_words(alloc: alloc::Global, items: &[Item]) -> Result<Vec<u32>, OutOfMemory>
    ensures { IfOk result (λ v. v.items ≡ replicate FIRST_DATA_WORD 0 ++ layout.initial_of (map plain_item items.now)) }
{
    let mut words = vec![in alloc; 0; FIRST_DATA_WORD as usize]?;
    add_initial(&mut words, items)?;
    Ok(words)
}
