ghost use Rattle.std.specs.Prelude.{◌≡◌, ◌≤◌, ◌%◌, None, IfSome};
ghost use Rattle.local_store.specs.Map.{IsInRange};
ghost use Rattle.patmos_sem.specs.declared.pending.Pending.TheVariants as pending;
ghost use Rattle.patmos_sem.specs.Effects.{store_bytes};
ghost use Rattle.patmos_model.specs.Checks.{load_fault, store_fault};
ghost use Rattle.patmos_step.specs.Ready.{CanGoOn, IsAtRest};
ghost use Rattle.patmos_step.specs.Shown.{plain_of, OnlyPlain};
ghost use Rattle.patmos_alone.specs.Alone.{scratch_at, scratch_set, finished_load, finished_store};

use local_store::{Cell, Space};
use patmos_instr::{Mem, Reg, StoreWidth, Width};
use patmos_model::{Then, Transfer};
use patmos_sem::merge;
use patmos_step::{Body, cell_of};
use slot_arbiter::MOST_CYCLES;

/// A load of a word of the core's own stack or scratchpad, or one that leaves a word to be moved.
#[inline(always)]
#[tactic(auto, using(patmos_step::proofs::Rests::can_at_rest))]
pub(crate) fn finish_load(
    body: &mut Body,
    space: Mem,
    width: Width,
    rd: Reg,
    address: u32,
    cycle: u64,
)
    requires early { cycle ≤ MOST_CYCLES }
    requires granted { load_fault (plain_of body.old) space width address ≡ None }
    requires pending { body.old.regs.pending ≡ pending.Nothing }
    requires rest { IsAtRest body.old }
    ensures plain { plain_of body.new ≡ finished_load space width rd address cycle (plain_of body.old) }
    ensures can { CanGoOn body.new }
    ensures only { OnlyPlain body.old body.new }
{
    match space {
        Mem::S => {
            let word = body.stack.get(address / 4).unwrap_or(0);
            body.arrive(rd, width, address, word);
            body.end(cycle);
        }
        Mem::L => {
            let word = scratch_at(body, cell_of(Space::Local, address));
            body.arrive(rd, width, address, word);
            body.end(cycle);
        }
        Mem::C => {}
        Mem::M => {
            let then = Then::Load { rd, width, address };
            body.moves(Transfer::read(1, then), cycle);
        }
    }
}

/// A store of that kind.
#[inline(always)]
#[tactic(auto, using(patmos_step::proofs::Rests::can_at_rest))]
pub(crate) fn finish_store(
    body: &mut Body,
    space: Mem,
    width: StoreWidth,
    address: u32,
    value: u32,
    cycle: u64,
)
    requires early { cycle ≤ MOST_CYCLES }
    requires granted { store_fault (plain_of body.old) space width address value ≡ None }
    requires rest { IsAtRest body.old }
    ensures plain { plain_of body.new ≡ finished_store space width address value cycle (plain_of body.old) }
    ensures can { CanGoOn body.new }
    ensures only { OnlyPlain body.old body.new }
{
    match space {
        Mem::S => {
            body.store_stack(width, address, value);
            body.end(cycle);
        }
        Mem::L => {
            store_scratch(body, cell_of(Space::Local, address), width, address, value);
            body.end(cycle);
        }
        Mem::C => {}
        Mem::M => {
            let then = Then::Store {
                cached: false,
                width,
                address,
                value,
            };
            body.moves(Transfer::write(1, then), cycle);
        }
    }
}

// the word in a cell of the scratchpad
fn scratch_at(body: &Body, cell: Option<Cell>) -> u32
    requires cell { IfSome cell IsInRange }
    ensures { result ≡ scratch_at cell (plain_of body.now) }
{
    match cell {
        Some(Cell::Scratch(word)) => body.store.read(Cell::Scratch(word)),
        _ => 0,
    }
}

// stores a value in a cell of the scratchpad
fn store_scratch(body: &mut Body, cell: Option<Cell>, width: StoreWidth, address: u32, value: u32)
    requires cell { IfSome cell IsInRange }
    requires aligned { address % store_bytes width ≡ 0 }
    ensures plain { plain_of body.new ≡ scratch_set cell width address value (plain_of body.old) }
    ensures rest { IsAtRest body.old → IsAtRest body.new }
    ensures only { OnlyPlain body.old body.new }
{
    if let Some(Cell::Scratch(word)) = cell {
        let old = body.store.read(Cell::Scratch(word));
        body.put_scratch(word, merge(width, address, old, value));
    }
}
