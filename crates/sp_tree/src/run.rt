//! Statements, run.
ghost use Rattle.std.specs.Prelude.{◌≡◌, ◌*◌, ◌<◌, ◌≤◌, List, length, map, true};
ghost use Rattle.c_world.specs.Shown.{shown, rooms};
ghost use Rattle.c_world.specs.World.{Sending};
ghost use Rattle.sp_tree.specs.declared.limits.TheConstants.{MOST_FRAME};
ghost use Rattle.sp_tree.specs.Formed.{all_rooms, stmt_formed, stmts_formed, functions_formed};
ghost use Rattle.sp_tree.specs.Plain.{plain_sp};
ghost use Rattle.sp_tree.specs.Ran.{state_of, HasDone, HasGiven};
ghost use Rattle.sp_tree.specs.Shown.{plain_stmt, stmts_of, functions_of};
ghost use Rattle.sp_tree.specs.Straight.{args_worth, stmt_done, stmts_done, times, serves};

use crate::evaluation::{slot_word, value};
use crate::expressions::SpExpr;
use crate::limits::MOST_FRAME;
use crate::settings::{begin_frame, overrun, set_result, write};
use crate::statements::{SpFunction, SpStmt};
use c_world::Memory;

// one statement, with the first so many functions to call
#[cycle(run)]
fn act(
    t: &SpStmt,
    functions: &[SpFunction],
    known: usize,
    frame: &mut [u32],
    rest: &mut [u32],
    memory: &mut Memory,
)
    requires frame { length frame.old ≡ MOST_FRAME }
    requires rest { MOST_FRAME * known ≤ length rest.old }
    requires rooms { rooms memory.old ≡ all_rooms }
    requires known { known ≤ length functions.now }
    requires functions { functions_formed (functions_of functions.now) known ≡ true }
    requires formed { stmt_formed (functions_of functions.now) known MOST_FRAME (plain_stmt t.now) ≡ true }
    ensures done { (sends : List Sending) → HasDone
        (stmt_done (serves (functions_of functions.now) known) (plain_stmt t.now)
        (state_of frame.old memory.old sends)) frame.new memory.new }
    ensures rooms { rooms memory.new ≡ all_rooms }
{
    match t {
        SpStmt::Mask { slot, value: e } => {
            let given = value(e, frame, memory);
            frame[*slot as usize] = given;
        }
        SpStmt::Write {
            mask,
            target,
            value: e,
        } => write(*mask, target, e, frame, memory),
        SpStmt::Call {
            mask,
            function,
            args,
            result: result_slot,
        } => {
            let under = slot_word(frame, *mask as usize);
            let given = called(
                *function as usize,
                under,
                args.as_slice(),
                functions,
                known,
                frame,
                rest,
                memory,
            );
            set_result(*mask, result_slot, given, frame);
        }
        SpStmt::Send { .. } => {}
        SpStmt::Overrun { mask, value: e } => overrun(*mask, e, frame, memory),
        SpStmt::Iterations { count, body } => iterations(
            *count,
            body.as_slice(),
            functions,
            known,
            frame,
            rest,
            memory,
        ),
    }
}

// statements one after another
#[cycle(run)]
fn all(
    stmts: &[SpStmt],
    functions: &[SpFunction],
    known: usize,
    frame: &mut [u32],
    rest: &mut [u32],
    memory: &mut Memory,
)
    requires frame { length frame.old ≡ MOST_FRAME }
    requires rest { MOST_FRAME * known ≤ length rest.old }
    requires rooms { rooms memory.old ≡ all_rooms }
    requires known { known ≤ length functions.now }
    requires functions { functions_formed (functions_of functions.now) known ≡ true }
    requires formed { stmts_formed (functions_of functions.now) known MOST_FRAME (stmts_of stmts.now) ≡ true }
    ensures done { (sends : List Sending) → HasDone
        (stmts_done (serves (functions_of functions.now) known) (stmts_of stmts.now)
        (state_of frame.old memory.old sends)) frame.new memory.new }
    ensures rooms { rooms memory.new ≡ all_rooms }
{
    for t in stmts {
        act(t, functions, known, frame, rest, memory);
    }
}

// so many iterations
#[cycle(run)]
fn iterations(
    count: u32,
    body: &[SpStmt],
    functions: &[SpFunction],
    known: usize,
    frame: &mut [u32],
    rest: &mut [u32],
    memory: &mut Memory,
)
    requires frame { length frame.old ≡ MOST_FRAME }
    requires rest { MOST_FRAME * known ≤ length rest.old }
    requires rooms { rooms memory.old ≡ all_rooms }
    requires known { known ≤ length functions.now }
    requires functions { functions_formed (functions_of functions.now) known ≡ true }
    requires formed { stmts_formed (functions_of functions.now) known MOST_FRAME (stmts_of body.now) ≡ true }
    ensures done { (sends : List Sending) → HasDone
        (times count (stmts_done (serves (functions_of functions.now) known) (stmts_of body.now))
        (state_of frame.old memory.old sends)) frame.new memory.new }
    ensures rooms { rooms memory.new ≡ all_rooms }
{
    for iterated in 0..count {
        all(body, functions, known, frame, rest, memory);
    }
}

/// What the function of a number gives, run under this word of a mask: one of the first so many.
#[cycle(run)]
pub fn called(
    function: usize,
    under: u32,
    args: &[SpExpr],
    functions: &[SpFunction],
    known: usize,
    frame: &[u32],
    rest: &mut [u32],
    memory: &mut Memory,
) -> u32
    requires rest { MOST_FRAME * known ≤ length rest.old }
    requires rooms { rooms memory.old ≡ all_rooms }
    requires known { known ≤ length functions.now }
    requires functions { functions_formed (functions_of functions.now) known ≡ true }
    requires earlier { function < known }
    requires args { length args.now ≤ MOST_FRAME }
    ensures given { (sends : List Sending) → HasGiven
        (serves (functions_of functions.now) known function under
        (args_worth (map plain_sp args.now) (state_of frame.now memory.old sends)) (shown memory.old sends))
        result memory.new }
    ensures rooms { rooms memory.new ≡ all_rooms }
{
    let run = &functions[function];
    let (own, further) = rest.split_at_mut(MOST_FRAME);
    begin_frame(run, under, args, frame, own, memory);
    all(
        run.body.as_slice(),
        functions,
        function,
        own,
        further,
        memory,
    );
    slot_word(own, run.result as usize)
}
