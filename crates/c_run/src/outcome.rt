//! What a program means on its input.
ghost use Rattle.std.specs.Prelude.{◌≡◌, ◌<◌, ◌^◌, [], List, IfOk, length, map};
ghost use Rattle.c_tree.specs.Plain.{plain, plain_item};
ghost use Rattle.c_world.specs.Shown.{shown, rooms};
ghost use Rattle.c_world.specs.World.{Sending};
ghost use Rattle.c_meaning.specs.Begun.{meaning};
ghost use Rattle.c_meaning.specs.Resolve.{numbered};
ghost use Rattle.c_meaning.specs.Resolved.{serves};
ghost use Rattle.c_meaning.specs.Rooms.{all_rooms};
ghost use Rattle.c_meaning.specs.Shown.{bodies_of};
ghost use Rattle.c_run.specs.Ran.{HasOutcome};
ghost use Rattle.c_run.specs.Reported as reported;

use crate::begin::begun_memory;
use crate::run::called;
use c_meaning::{Arguments, Resolved, Routine, array_of, names_resolved_once, resolve};
use c_tree::{Checked, Global, Item, MOST_LEVELS, Slot};
use c_world::Memory;
use std::alloc;
use tc_word::{List, OutOfMemory};

/// What a program means on its input.
#[derive(Debug, Drop)]
pub struct Outcome {
    /// What `main` gives.
    pub value: u32,
    /// Whether a loop's condition still held after its last iteration.
    pub overrun: bool,
    /// The words of each variable and array at the end, by the slots of the layout.
    pub stores: List<List<u32>>,
}

/// What a program means on its input, where `shared` and `comm` begin with 0. It is
/// `Err` only where an allocation fails.
pub fn mean(alloc: alloc::Global, program: &Checked, input: &[u32]) -> Result<Outcome, OutOfMemory>
    ensures value { IfOk result (λ o. o.value ≡ (meaning (plain program.now.unit) input.now (λ _. 0) (λ _. 0)).value) }
    ensures overrun { IfOk result (λ o. o.overrun
        ≡ (meaning (plain program.now.unit) input.now (λ _. 0) (λ _. 0)).world.overrun) }
    ensures stores { IfOk result (λ o. o.stores
        ≡ map (reported.slot_words (meaning (plain program.now.unit) input.now (λ _. 0)
        (λ _. 0)).world) program.now.layout) }
{
    names_resolved_once();
    let resolved = resolve(alloc, program)?;
    let mut memory = begun_memory(alloc, program, input)?;
    let value = main_outcome(alloc, &resolved, &mut memory)?;
    let stores = stores_of(alloc, program.layout.as_slice(), &memory)?;
    Ok(Outcome {
        value,
        overrun: memory.overrun,
        stores,
    })
}

// what `main` gives
fn main_outcome(
    alloc: alloc::Global,
    resolved: &Resolved,
    memory: &mut Memory,
) -> Result<u32, OutOfMemory>
    requires rooms { rooms memory.old ≡ all_rooms }
    requires number { length resolved.now.routines < 2 ^ 32 }
    ensures { IfOk result (λ value. HasOutcome
        (numbered (serves (bodies_of resolved.now.routines) (length resolved.now.routines)) resolved.now.main []
        (shown memory.old [])) value memory.new) }
{
    match resolved.main {
        None => Ok(0),
        Some(main) => first_called(alloc, main, resolved.routines.as_slice(), memory),
    }
}

// what a function gives that nothing is passed to
fn first_called(
    alloc: alloc::Global,
    function: usize,
    routines: &[Routine],
    memory: &mut Memory,
) -> Result<u32, OutOfMemory>
    requires rooms { rooms memory.old ≡ all_rooms }
    requires number { length routines.now < 2 ^ 32 }
    ensures { IfOk result (λ value. HasOutcome
        (serves (bodies_of routines.now) (length routines.now) function [] (shown memory.old [])) value memory.new) }
{
    let mut frames = vec![in alloc; 0; routines.len() * MOST_LEVELS]?;
    let args = Arguments {
        values: List::of(Vec::new(alloc)),
    };
    Ok(called(function, &args, routines, &[], &mut frames, memory))
}

// the words of all variables and arrays
fn stores_of(
    alloc: alloc::Global,
    slots: &[Slot],
    memory: &Memory,
) -> Result<List<List<u32>>, OutOfMemory>
    ensures { IfOk result (λ stores. (sends : List Sending)
        → stores ≡ map (reported.slot_words (shown memory.now sends)) slots.now) }
{
    let mut stores = Vec::with_capacity(alloc, slots.len())?;
    for slot in slots {
        stores.push(store_of(alloc, slot, memory)?)?;
    }
    Ok(List::of(stores))
}

// the words of one of them
fn store_of(alloc: alloc::Global, slot: &Slot, memory: &Memory) -> Result<List<u32>, OutOfMemory>
    ensures { IfOk result (λ words. (sends : List Sending)
        → words ≡ reported.slot_words (shown memory.now sends) slot.now) }
{
    let array = array_of(slot);
    let mut words = Vec::new(alloc);
    for at in 0..array.length {
        words.push(memory.word(array.region, array.first as usize + at as usize))?;
    }
    Ok(List::of(words))
}

/// The number of the slot of the array `out`, if the program has one.
pub fn output_of(program: &Checked) -> Option<usize>
    ensures { result ≡ reported.output_number (plain program.now.unit) }
{
    output_among(program.unit.items.as_slice())
}

#[tactic(auto, using(crate::proofs::Declarations::output_next))]
fn output_among(items: &[Item]) -> Option<usize>
    ensures { result ≡ reported.output_number (map plain_item items.now) }
{
    let mut number = 0;
    for item in items {
        if let Item::Global { global } = item {
            if is_output(global) {
                return Some(number);
            }
            number += 1;
        }
    }
    None
}

// an array `out`
fn is_output(global: &Global) -> bool
    ensures { result ≡ reported.is_output global.now }
{
    global.name.as_str() == "out" && global.length.is_some()
}
