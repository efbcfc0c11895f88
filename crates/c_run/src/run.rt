//! Actions, run.
ghost use Rattle.std.specs.Prelude.{◌≡◌, ◌*◌, ◌<◌, ◌≤◌, List, length, map, option_map, IfSome};
ghost use Rattle.std.specs.Option.{option_copied};
ghost use Rattle.c_world.specs.Shown.{shown, rooms};
ghost use Rattle.c_world.specs.World.{Sending};
ghost use Rattle.sp_tree.specs.Plain.{plain_sp};
ghost use Rattle.c_meaning.specs.Meaning.{Done, goes_on, iterations_done, way_value};
ghost use Rattle.c_meaning.specs.Resolved.{Serves, args_worth, holds, step_done, outcome_done, action_done, actions_done, branches_done, serves};
ghost use Rattle.c_meaning.specs.Rooms.{all_rooms};
ghost use Rattle.c_meaning.specs.Shown.{plain_action, plain_target, plain_assignment, actions_of, branches_of, bodies_of};
ghost use Rattle.c_meaning.specs.Values.{State};
ghost use Rattle.c_run.specs.Ran.{state_of, served_by, HasDone, HasOutcome, HasIterated, picked_done};
ghost use Rattle.c_meaning.specs.Sizes.{actions_size, branches_size};

use crate::locations::{put, result_location};
use crate::settings::{assign, pass, step};
use c_meaning::{Action, Arguments, Assignment, Branch, Routine, Target, Way};
use c_tree::MOST_LEVELS;
use c_world::Memory;
use sp_tree::{SpExpr, value};

// one action, with these functions to call
#[cycle(run)]
#[inline(always)]
fn act(
    action: &Action,
    routines: &[Routine],
    frame: &mut [u32],
    rest: &mut [u32],
    memory: &mut Memory,
) -> Way
    requires frame { length frame.old ≡ MOST_LEVELS }
    requires rest { MOST_LEVELS * length routines.now ≤ length rest.old }
    requires rooms { rooms memory.old ≡ all_rooms }
    ensures done { (sends : List Sending) → HasDone
        (action_done (served_by routines.now) (plain_action action.now)
        (state_of frame.old memory.old sends)) result frame.new memory.new }
    ensures rooms { rooms memory.new ≡ all_rooms }
{
    match action {
        Action::Set { assignment } => {
            assign(assignment, frame, memory);
            Way::On
        }
        Action::Call {
            function,
            args,
            target,
        } => {
            let given = called(*function as usize, args, routines, frame, rest, memory);
            let location = result_location(target, frame, memory);
            put(location, given, frame, memory);
            Way::On
        }
        Action::Send { .. } => Way::On,
        Action::Choose {
            branches,
            otherwise,
        } => {
            let branches = branches.as_slice();
            let otherwise = otherwise.as_slice();
            choose(branches, otherwise, routines, frame, rest, memory)
        }
        Action::Loop {
            max,
            condition,
            body,
            step,
        } => {
            let body = body.as_slice();
            let iterating = Iterating {
                condition,
                body,
                step,
            };
            iterations(*max, &iterating, routines, frame, rest, memory)
        }
        Action::Break => Way::Broken,
        Action::Continue => Way::Continued,
        Action::Return { value: e } => Way::Returned {
            value: value(e, frame, memory),
        },
    }
}

// actions one after another, up to one that goes elsewhere. The hints put the functions of single actions into this
// one, so that no call is made for an action of a list
#[cycle(run)]
fn all(
    actions: &[Action],
    routines: &[Routine],
    frame: &mut [u32],
    rest: &mut [u32],
    memory: &mut Memory,
) -> Way
    requires frame { length frame.old ≡ MOST_LEVELS }
    requires rest { MOST_LEVELS * length routines.now ≤ length rest.old }
    requires rooms { rooms memory.old ≡ all_rooms }
    ensures done { (sends : List Sending) → HasDone
        (actions_done (served_by routines.now) (actions_of actions.now)
        (state_of frame.old memory.old sends)) result frame.new memory.new }
    ensures rooms { rooms memory.new ≡ all_rooms }
{
    for action in actions {
        match act(action, routines, frame, rest, memory) {
            Way::On => {}
            Way::Broken => return Way::Broken,
            Way::Continued => return Way::Continued,
            Way::Returned { value } => return Way::Returned { value },
        }
    }
    Way::On
}

// the first branch whose condition holds
#[tactic(auto, using(crate::proofs::Branches::here, crate::proofs::Branches::smaller))]
fn pick<'a>(branches: &'a [Branch], frame: &[u32], memory: &Memory) -> Option<&'a Branch>
    ensures picked { (sends : List Sending) (g : Serves) (o : State → Done)
        → branches_done g (branches_of branches.now) o (state_of frame.now memory.now sends)
        ≡ picked_done g o (option_copied result) (state_of frame.now memory.now sends) }
    ensures smaller { IfSome (option_copied result) (λ b. actions_size (actions_of b.body)
        < branches_size (branches_of branches.now)) }
{
    for branch in branches {
        if value(&branch.condition, frame, memory) != 0 {
            return Some(branch);
        }
    }
    None
}

// the first branch whose condition holds, or else these
#[cycle(run)]
#[inline(always)]
fn choose(
    branches: &[Branch],
    otherwise: &[Action],
    routines: &[Routine],
    frame: &mut [u32],
    rest: &mut [u32],
    memory: &mut Memory,
) -> Way
    requires frame { length frame.old ≡ MOST_LEVELS }
    requires rest { MOST_LEVELS * length routines.now ≤ length rest.old }
    requires rooms { rooms memory.old ≡ all_rooms }
    ensures done { (sends : List Sending) → HasDone
        (branches_done (served_by routines.now) (branches_of branches.now)
        (actions_done (served_by routines.now) (actions_of otherwise.now))
        (state_of frame.old memory.old sends)) result frame.new memory.new }
    ensures rooms { rooms memory.new ≡ all_rooms }
{
    match pick(branches, frame, memory) {
        Some(branch) => all(branch.body.as_slice(), routines, frame, rest, memory),
        None => all(otherwise, routines, frame, rest, memory),
    }
}

// an iteration of a loop, and how the loop ends by it, if it does
#[cycle(run)]
#[inline(always)]
fn iteration(
    body: &[Action],
    next: &Option<Assignment>,
    routines: &[Routine],
    frame: &mut [u32],
    rest: &mut [u32],
    memory: &mut Memory,
) -> Option<Way>
    requires frame { length frame.old ≡ MOST_LEVELS }
    requires rest { MOST_LEVELS * length routines.now ≤ length rest.old }
    requires rooms { rooms memory.old ≡ all_rooms }
    ensures iterated { (sends : List Sending) → HasIterated (step_done (option_map plain_assignment next.now))
        (actions_done (served_by routines.now) (actions_of body.now)
        (state_of frame.old memory.old sends)) result frame.new memory.new }
    ensures rooms { rooms memory.new ≡ all_rooms }
{
    match all(body, routines, frame, rest, memory) {
        Way::On => {
            step(next, frame, memory);
            None
        }
        Way::Continued => {
            step(next, frame, memory);
            None
        }
        Way::Broken => Some(Way::On),
        Way::Returned { value } => Some(Way::Returned { value }),
    }
}

// what a loop asks and does in an iteration
#[derive(Clone, Copy)]
struct Iterating<'a> {
    condition: &'a SpExpr,
    body: &'a [Action],
    step: &'a Option<Assignment>,
}

// so many iterations at most
#[cycle(run)]
#[inline(always)]
fn iterations(
    max: u32,
    iterating: &Iterating<'_>,
    routines: &[Routine],
    frame: &mut [u32],
    rest: &mut [u32],
    memory: &mut Memory,
) -> Way
    requires frame { length frame.old ≡ MOST_LEVELS }
    requires rest { MOST_LEVELS * length routines.now ≤ length rest.old }
    requires rooms { rooms memory.old ≡ all_rooms }
    ensures done { (sends : List Sending) → HasDone
        (iterations_done (holds (plain_sp iterating.now.condition.now))
        (actions_done (served_by routines.now) (actions_of iterating.now.body.now))
        (step_done (option_map plain_assignment iterating.now.step.now)) max
        (state_of frame.old memory.old sends)) result frame.new memory.new }
    ensures rooms { rooms memory.new ≡ all_rooms }
{
    for _iterated in 0..max {
        if !is_held(iterating.condition, frame, memory) {
            return Way::On;
        }
        match iteration(
            iterating.body,
            iterating.step,
            routines,
            frame,
            rest,
            memory,
        ) {
            None => {}
            Some(way) => return way,
        }
    }
    let held = is_held(iterating.condition, frame, memory);
    memory.overran(held);
    Way::On
}

/// What a function gives: the one of this number, if it is one of these.
#[cycle(run)]
pub fn called(
    function: usize,
    args: &Arguments,
    routines: &[Routine],
    frame: &[u32],
    rest: &mut [u32],
    memory: &mut Memory,
) -> u32
    requires rest { MOST_LEVELS * length routines.now ≤ length rest.old }
    requires rooms { rooms memory.old ≡ all_rooms }
    ensures given { (sends : List Sending) → HasOutcome
        (served_by routines.now function
        (args_worth (map plain_sp args.now.values) (state_of frame.now memory.old sends)) (shown memory.old sends))
        result memory.new }
    ensures rooms { rooms memory.new ≡ all_rooms }
{
    if function >= routines.len() {
        return 0;
    }
    let (own, further) = rest.split_at_mut(MOST_LEVELS);
    pass(args.values.as_slice(), frame, own, memory);
    let (earlier, _others) = routines.split_at(function);
    let body = routines[function].body.as_slice();
    let way = all(body, earlier, own, further, memory);
    given_by(way)
}

// what a function gives that ends so
fn given_by(way: Way) -> u32
    ensures { result ≡ way_value way }
{
    match way {
        Way::Returned { value } => value,
        Way::On | Way::Broken | Way::Continued => 0,
    }
}

// whether a condition holds
fn is_held(condition: &SpExpr, frame: &[u32], memory: &Memory) -> bool
    ensures { (sends : List Sending) → result ≡ holds (plain_sp condition.now) (state_of frame.now memory.now sends) }
{
    value(condition, frame, memory) != 0
}
