ghost use Rattle.std.specs.Prelude.{◌↔◌, IsTrue, ◌≡◌, ◌+◌, ◌%◌, ◌≤◌, IfSome};
ghost use Rattle.patmos_step.specs.Moving.{HasToMove};
ghost use Rattle.patmos_alone.specs.Moving.{MovesOwn, IsPrivateCell, CanMoveIn, private_at, private_set, moved_by};
ghost use Rattle.local_store.specs.Map.{IsInRange};
ghost use Rattle.patmos_sem.specs.Effects.{store_bytes};
ghost use Rattle.patmos_step.specs.Ready.{CanMove, CanGoOn, IsAtRest};
ghost use Rattle.patmos_step.specs.Shown.{plain_of, OnlyPlain};
ghost use Rattle.patmos_alone.specs.Alone.{GoesAlone};

use local_store::{Cell, Space};
use patmos_instr::StoreWidth;
use patmos_model::{Status, Then};
use patmos_sem::merge;
use patmos_step::{Body, cell_of};
use slot_arbiter::MOST_CYCLES;

/// Whether words are to be moved, and no others than those of the core's own memory.
#[inline(always)]
pub(crate) fn moves_own(body: &Body) -> bool
    ensures { IsTrue result ↔ (HasToMove (plain_of body.now) × MovesOwn body.now.transfer.then) }
{
    body.is_moving() && is_own_move(&body.transfer.then)
}

/// Moves them.
#[tactic(auto, using(patmos_step::proofs::Rests::can_at_rest))]
#[inline(always)]
pub(crate) fn move_own(body: &mut Body, cycle: u64)
    requires moves { CanMoveIn cycle (plain_of body.old) }
    requires can { CanGoOn body.old }
    requires early { cycle ≤ MOST_CYCLES }
    ensures goes { GoesAlone cycle (cycle + 1) body.old body.new }
{
    let then = body.transfer.then;
    body.count(cycle);
    move_then(body, &then);
}

// what comes of the words that moved
#[inline(always)]
fn move_then(body: &mut Body, then: &Then)
    requires own { MovesOwn then.now }
    requires can { CanMove body.old.regs then.now }
    ensures plain { plain_of body.new ≡ moved_by then.now (plain_of body.old) }
    ensures rest { IsAtRest body.old → IsAtRest body.new }
    ensures only { OnlyPlain body.old body.new }
{
    match *then {
        Then::Load { rd, width, address } => {
            let word = private_at(body, cell_of(Space::Main, address));
            body.arrive(rd, width, address, word);
        }
        Then::Store {
            width,
            address,
            value,
            ..
        } => store_private(body, cell_of(Space::Main, address), width, address, value),
        Then::Nothing | Then::Line { .. } => {}
    }
}

// the word in a cell of private memory
fn private_at(body: &Body, cell: Option<Cell>) -> u32
    requires cell { IfSome cell IsInRange }
    ensures { result ≡ private_at cell (plain_of body.now) }
{
    match cell {
        Some(Cell::Private(word)) => body.store.read(Cell::Private(word)),
        _ => 0,
    }
}

// stores a value in a cell of private memory
fn store_private(body: &mut Body, cell: Option<Cell>, width: StoreWidth, address: u32, value: u32)
    requires cell { IfSome cell IsInRange }
    requires aligned { address % store_bytes width ≡ 0 }
    ensures plain { plain_of body.new ≡ private_set cell width address value (plain_of body.old) }
    ensures rest { IsAtRest body.old → IsAtRest body.new }
    ensures only { OnlyPlain body.old body.new }
{
    if let Some(Cell::Private(word)) = cell {
        let old = body.store.read(Cell::Private(word));
        body.put_private(word, merge(width, address, old, value));
    }
}

// whether no words but those of a core's own memory move, and none of them in a line
fn is_own_move(then: &Then) -> bool
    ensures { IsTrue result ↔ MovesOwn then.now }
{
    match *then {
        Then::Nothing => true,
        Then::Load { address, .. } => is_private_cell(cell_of(Space::Main, address)),
        Then::Store {
            cached: false,
            address,
            ..
        } => is_private_cell(cell_of(Space::Main, address)),
        Then::Line { .. } | Then::Store { .. } => false,
    }
}

// whether it is a cell of a core's private memory
fn is_private_cell(cell: Option<Cell>) -> bool
    ensures { IsTrue result ↔ IsPrivateCell cell }
{
    matches!(cell, Some(Cell::Private(_)))
}
