ghost use Rattle.std.specs.Prelude.{◌≡◌, ℕ, ◌<◌, IfOk, IfSome, option_map};
ghost use Rattle.c_meaning.specs.Fits.{SlotFits};
ghost use Rattle.c_meaning.specs.Rooms.{all_rooms};
ghost use Rattle.c_run.specs.Reported.{slot_words};
ghost use Rattle.c_tree.specs.Plain.{plain};
ghost use Rattle.c_world.specs.Shown.{room_in};
ghost use Rattle.c_world.specs.World.{words_in};
ghost use Rattle.global_step.specs.Loaded.{Machine};
ghost use Rattle.global_step.specs.Machine.{at_limit};
ghost use Rattle.tc_run.specs.Final.{IsFinalCore};
ghost use Rattle.job_rows.specs.Rows.{output_slot};
ghost use Rattle.job_rows.specs.Rows as specs;

use c_meaning::array_of;
use c_run::output_of;
use c_tree::{Checked, Slot};
use c_world::Region;
use local_store::Cell;
use patmos_core::Core;
use std::alloc::Global;
use tc_run::own_word_of;
use tc_word::{List, OutOfMemory};

/// The words of a task's array `out`, and whether they are unsigned.
pub struct Output {
    pub words: List<u32>,
    pub unsigned: bool,
}

/// What a core's memories hold in a program's array `out`; no words where it has none.
pub fn output_in(alloc: Global, program: &Checked, core: &Core) -> Result<Output, OutOfMemory>
    ensures words { IfOk result (λ o. (m : Machine) (k : ℕ) → IsFinalCore m k core.now
        → o.words ≡ specs.words_out (specs.own_world ((at_limit m).cores k).plain)
        (output_slot (plain program.now.unit))) }
    ensures unsigned { IfOk result (λ o. o.unsigned ≡ specs.is_unsigned_out (output_slot (plain program.now.unit))) }
{
    let Some(slot) = output_slot(program) else {
        return Ok(Output {
            words: List::of(Vec::new(alloc)),
            unsigned: false,
        });
    };
    Ok(Output {
        words: words_of(alloc, slot, core)?,
        unsigned: slot.unsigned,
    })
}

// the slot of the array, if there is one; its words are within their memory
fn output_slot(program: &Checked) -> Option<&Slot>
    ensures is { option_map (λ s. s.now) result ≡ output_slot (plain program.now.unit) }
    ensures fits { IfSome result (λ s. SlotFits s.now) }
{
    let number = output_of(program)?;
    program.layout.as_slice().get(number)
}

// what they hold in a variable or an array
fn words_of(alloc: Global, slot: &Slot, core: &Core) -> Result<List<u32>, OutOfMemory>
    requires fits { SlotFits slot.now }
    ensures { IfOk result (λ words. (m : Machine) (k : ℕ) → IsFinalCore m k core.now
        → words ≡ slot_words (specs.own_world ((at_limit m).cores k).plain) slot.now) }
{
    let array = array_of(slot);
    let mut words = Vec::new(alloc);
    for at in 0..array.length {
        words.push(word_of(array.region, array.first + at, core))?;
    }
    Ok(List::of(words))
}

// a word of a memory; those that others reach are not reported
fn word_of(region: Region, word: u32, core: &Core) -> u32
    requires { word < room_in region all_rooms }
    ensures { (m : Machine) (k : ℕ) → IsFinalCore m k core.now
        → result ≡ words_in region (specs.own_world ((at_limit m).cores k).plain) word }
{
    match region {
        Region::Scratch => own_word_of(core, Cell::Scratch(word)),
        Region::Private => own_word_of(core, Cell::Private(word)),
        Region::Comm => 0,
        Region::Shared => 0,
    }
}
