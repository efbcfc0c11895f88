//! An event made on the board.
ghost use Rattle.std.specs.Prelude.{◌≡◌, List, ◌++◌};
ghost use Rattle.shared_order.specs.declared.operation.Operation.{Operation};
ghost use Rattle.shared_order.specs.Operation.{loads};
ghost use Rattle.shared_order.specs.Event.{asked_by};
ghost use Rattle.clock_board.specs.View.{own, todo, IsGiven, HasSeen};
ghost use Rattle.clock_board.specs.Board.{IsPassOf};
ghost use Rattle.core_worker.specs.Runs.{with_made};

use clock_board::{Board, Course, Pass};
use slot_arbiter::Event;

/// Makes an event, one load or store after another: what its loads give, in their order.
pub(crate) fn perform<C: Course>(board: &Board<C>, pass: &mut Pass<C>, event: &Event) -> [u32; 8]
    requires of { IsPassOf board.now pass.old }
    requires given { IsGiven pass.old.view }
    requires seen { HasSeen pass.old.view event.now.stamp }
    requires next { (later : List Operation)
        × (todo pass.old.view ≡ asked_by event.now (loads (todo pass.old.view)) ++ later) }
    ensures of { IsPassOf board.now pass.new }
    ensures given { IsGiven pass.new.view }
    ensures same { pass.new.view ≡ with_made pass.old.view (own pass.new.view).made }
    ensures made { (own pass.new.view).made ≡ (own pass.old.view).made ++ asked_by event.now result }
    ensures left { todo pass.old.view ≡ asked_by event.now result ++ todo pass.new.view }
{
    let mut values = [0; 8];
    let mut loads = 0;
    let (ops, _) = event.ops.split_at(event.count as usize);
    for op in ops {
        if op.write {
            board.store(pass, event.stamp, op.word, op.value);
        } else {
            values[loads] = board.load(pass, event.stamp, op.word);
            loads += 1;
        }
    }
    values
}
