//! Tasks, run.
ghost use Rattle.std.specs.Prelude.{◌≡◌, ◌+◌, ◌≤◌, ℕ, [], List, length, slice_index, true, IfOk, vec_len};
ghost use Rattle.c_world.specs.Shown.{shown, rooms};
ghost use Rattle.sp_tree.specs.Begun.{laid, begun, straight_alone};
ghost use Rattle.sp_tree.specs.Formed.{all_rooms, is_formed};
ghost use Rattle.sp_tree.specs.Shown.{plain_unit};

use crate::limits::MOST_FRAME;
use crate::run::called;
use crate::statements::SpUnit;
use c_world::Memory;
use local_store::{DATA_WORDS, FIRST_DATA_WORD};
use std::alloc::Global;
use tc_word::{List, OutOfMemory};

/// What a task comes to: what its entry gives, whether a loop went past its bound, and the words of its memories: 2,048
/// of the scratchpad, 512 of communication memory, 49,152 of private memory, which are all below the stack, and 4,096
/// that all cores share.
#[derive(Debug, Drop)]
pub struct SpOutcome {
    pub value: u32,
    pub overrun: bool,
    pub scratch: List<u32>,
    pub comm: List<u32>,
    pub private: List<u32>,
    pub shared: List<u32>,
}

/// What a unit comes to on its input, where the words that all cores share and those of communication memory begin
/// with 0. Its sends are not kept. It is `Err` where memory runs out.
pub fn plain_straight(alloc: Global, unit: &SpUnit, input: &[u32]) -> Result<SpOutcome, OutOfMemory>
    requires formed { is_formed (plain_unit unit.now) ≡ true }
    ensures value { IfOk result (λ o. o.value ≡ (straight_alone (plain_unit unit.now) input.now).value) }
    ensures overrun { IfOk result (λ o. o.overrun ≡ (straight_alone (plain_unit unit.now) input.now).world.overrun) }
    ensures scratch { IfOk result (λ o. slice_index o.scratch
        ≡ (straight_alone (plain_unit unit.now) input.now).world.scratch) }
    ensures comm { IfOk result (λ o. slice_index o.comm ≡ (straight_alone (plain_unit unit.now) input.now).world.comm) }
    ensures private { IfOk result (λ o. slice_index o.private
        ≡ (straight_alone (plain_unit unit.now) input.now).world.private) }
    ensures shared { IfOk result (λ o. slice_index o.shared
        ≡ (straight_alone (plain_unit unit.now) input.now).world.shared) }
    ensures lengths { IfOk result (λ o. record {
      scratch = length o.scratch;
      comm = length o.comm;
      private = length o.private;
      shared = length o.shared;
    } ≡ all_rooms) }
{
    let functions = unit.functions.as_slice();
    let mut memory = begin(alloc, unit, input)?;
    let mut frames = vec![in alloc; 0; MOST_FRAME * functions.len()]?;
    let value = called(
        unit.entry as usize,
        1,
        &[],
        functions,
        functions.len(),
        &[],
        &mut frames,
        &mut memory,
    );
    Ok(outcome(value, memory))
}

// the memories that a task begins with
fn begin(alloc: Global, unit: &SpUnit, input: &[u32]) -> Result<Memory, OutOfMemory>
    requires formed { is_formed (plain_unit unit.now) ≡ true }
    ensures world { IfOk result (λ m. shown m [] ≡ begun (plain_unit unit.now) input.now (λ _. 0) (λ _. 0)) }
    ensures rooms { IfOk result (λ m. rooms m ≡ all_rooms) }
{
    let mut memory = Memory::new(alloc, DATA_WORDS)?;
    let initial = unit.initial.as_slice();
    lay(
        initial,
        FIRST_DATA_WORD as usize,
        initial.len(),
        &mut memory.private,
    );
    lay(
        input,
        unit.input_at as usize,
        unit.input_room as usize,
        &mut memory.private,
    );
    Ok(memory)
}

// lays words over others, from a place on and as far as their room reaches
fn lay(words: &[u32], at: usize, room: usize, into: &mut Vec<u32>)
    requires { at + room ≤ vec_len into.old }
    ensures words { (k : ℕ) → slice_index into.new.items k ≡ laid at room words.now (slice_index into.old.items) k }
    ensures len { vec_len into.new ≡ vec_len into.old }
{
    for number in 0..room {
        if number < words.len() {
            into[at + number] = words[number];
        }
    }
}

// what memories are at the end
fn outcome(value: u32, memory: Memory) -> SpOutcome
    ensures { result ≡ record {
      value = value;
      overrun = memory.overrun;
      scratch = memory.scratch.items;
      comm = memory.comm.items;
      private = memory.private.items;
      shared = memory.shared.items;
    } }
{
    let Memory {
        scratch,
        comm,
        private,
        shared,
        overrun,
    } = memory;
    SpOutcome {
        value,
        overrun,
        scratch: List::of(scratch),
        comm: List::of(comm),
        private: List::of(private),
        shared: List::of(shared),
    }
}
