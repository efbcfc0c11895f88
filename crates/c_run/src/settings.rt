//! What actions set.
ghost use Rattle.std.specs.Prelude.{◌≡◌, ℕ, List, length, map, option_map, slice_index};
ghost use Rattle.std.specs.Prelude.{◌≤◌};
ghost use Rattle.c_tree.specs.declared.limits.TheConstants.{MOST_LEVELS};
ghost use Rattle.c_world.specs.Shown.{rooms};
ghost use Rattle.c_world.specs.World.{Sending};
ghost use Rattle.sp_tree.specs.Plain.{plain_sp};
ghost use Rattle.c_meaning.specs.Resolved.{args_worth, assignment_done, step_done};
ghost use Rattle.c_meaning.specs.Rooms.{all_rooms};
ghost use Rattle.c_meaning.specs.Shown.{plain_assignment};
ghost use Rattle.c_run.specs.Ran.{state_of};

use crate::locations::{location_of, put};
use c_meaning::Assignment;
use c_world::Memory;
use sp_tree::{SpExpr, value};

/// What is set, and to what.
#[inline(always)]
pub fn assign(assignment: &Assignment, frame: &mut [u32], memory: &mut Memory)
    requires frame { length frame.old ≡ MOST_LEVELS }
    requires rooms { rooms memory.old ≡ all_rooms }
    ensures done { (sends : List Sending)
        → assignment_done (plain_assignment assignment.now) (state_of frame.old memory.old sends)
        ≡ state_of frame.new memory.new sends }
    ensures rooms { rooms memory.new ≡ all_rooms }
{
    let given = value(&assignment.value, frame, memory);
    let location = location_of(&assignment.target, frame, memory);
    put(location, given, frame, memory);
}

/// What is set after an iteration of a loop, if anything.
#[inline(always)]
pub fn step(assignment: &Option<Assignment>, frame: &mut [u32], memory: &mut Memory)
    requires frame { length frame.old ≡ MOST_LEVELS }
    requires rooms { rooms memory.old ≡ all_rooms }
    ensures done { (sends : List Sending)
        → step_done (option_map plain_assignment assignment.now) (state_of frame.old memory.old sends)
        ≡ state_of frame.new memory.new sends }
    ensures rooms { rooms memory.new ≡ all_rooms }
{
    match assignment {
        None => {}
        Some(assignment) => assign(assignment, frame, memory),
    }
}

/// The words of a function's own frame: its arguments, and 0 after them.
pub fn pass(args: &[SpExpr], frame: &[u32], own: &mut [u32], memory: &Memory)
    requires { length args.now ≤ length own.old }
    ensures { (sends : List Sending)
        → slice_index own.new ≡ slice_index (args_worth (map plain_sp args.now) (state_of frame.now memory.now sends)) }
{
    own.fill(0);
    for number in 0..args.len() {
        own[number] = value(&args[number], frame, memory);
    }
}
