//! The statements of a function, with the calls that it takes in.
ghost use Rattle.std.specs.Prelude.{◌≡◌, ◌+◌, ◌<◌, ◌≤◌, ◌^◌, IfOk, OnOk};
ghost use Rattle.sp_tree.specs.Formed.{stmt_levels, stmts_levels};
ghost use Rattle.sp_tree.specs.Shown.{plain_stmt, stmts_of};
ghost use Rattle.sp_tree.specs.Statements.{joined, one, calls, iterations};
ghost use Rattle.sp_inline.specs.Reach.{stmt_reach, stmts_reach};
ghost use Rattle.sp_inline.specs.Shown.{plain_caller, args_of};
ghost use Rattle.sp_inline.specs.Taken as specs;

use crate::callers::{Caller, taken};
use crate::calls::{Call, add, add_call};
use crate::moves::moved_statement;
use crate::room::Room;
use sp_tree::SpStmt;
use std::alloc::Global;
use tc_word::{List, OutOfMemory};

// a statement as it stands
fn keep(alloc: Global, room: Room, out: &mut Vec<SpStmt>, t: &SpStmt) -> Result<Room, OutOfMemory>
    requires { stmt_reach (plain_stmt t.now) < 2 ^ 32 }
    ensures { IfOk result (λ r. specs.with_room (stmts_of out.new.items) r
        ≡ specs.taken_after (stmts_of out.old.items) (specs.kept room (plain_stmt t.now))) }
{
    let t = moved_statement(alloc, 0, t)?;
    add(out, t)?;
    Ok(room)
}

// iterations, of statements that are made already
#[tactic(auto, using(sp_tree::proofs::Forms::plain_iterations))]
fn add_iterations(out: &mut Vec<SpStmt>, count: u32, body: List<SpStmt>) -> Result<(), OutOfMemory>
    ensures { OnOk result (stmts_of out.new.items
        ≡ joined (stmts_of out.old.items) (one (iterations count (stmts_of body)))) }
{
    add(out, SpStmt::Iterations { count, body })
}

// a call in loops of this depth, which is taken in or stays
fn take_call(
    caller: &Caller<'_>,
    depth: u32,
    room: Room,
    out: &mut Vec<SpStmt>,
    t: &SpStmt,
    call: &Call<'_>,
) -> Result<Room, OutOfMemory>
    requires call { calls call.now.mask call.now.function (args_of call.now) call.now.result ≡ plain_stmt t.now }
    requires words { stmt_reach (plain_stmt t.now) ≤ caller.now.words }
    requires word { caller.now.words < 2 ^ 32 }
    requires frame { caller.now.frame < 2 ^ 32 }
    ensures { IfOk result (λ r. specs.with_room (stmts_of out.new.items) r
        ≡ specs.taken_after (stmts_of out.old.items)
        (specs.stmt_taken (plain_caller caller.now) depth room (plain_stmt t.now))) }
{
    let alloc = *out.allocator();
    match taken(caller, depth, room, call) {
        None => keep(alloc, room, out, t),
        Some((callee, after)) => {
            add_call(alloc, caller.words, callee, call, out)?;
            Ok(after)
        }
    }
}

// a statement in loops of this depth
#[cycle(walk)]
#[tactic(auto, unfolding(sp_tree::specs::Shown::plain_stmt))]
fn take_statement(
    alloc: Global,
    caller: &Caller<'_>,
    depth: u32,
    room: Room,
    out: &mut Vec<SpStmt>,
    t: &SpStmt,
) -> Result<Room, OutOfMemory>
    requires levels { depth + stmt_levels (plain_stmt t.now) ≤ room.levels }
    requires words { stmt_reach (plain_stmt t.now) ≤ caller.now.words }
    requires word { caller.now.words < 2 ^ 32 }
    requires frame { caller.now.frame < 2 ^ 32 }
    ensures { IfOk result (λ r. specs.with_room (stmts_of out.new.items) r
        ≡ specs.taken_after (stmts_of out.old.items)
        (specs.stmt_taken (plain_caller caller.now) depth room (plain_stmt t.now))) }
{
    match t {
        SpStmt::Call {
            mask,
            function,
            args,
            result: given,
        } => {
            let call = Call {
                mask: *mask,
                function: *function,
                args: args.as_slice(),
                result: *given,
            };
            take_call(caller, depth, room, out, t, &call)
        }
        SpStmt::Iterations { count, body } => {
            let mut inside = Vec::new(alloc);
            let after = take_statements(
                alloc,
                caller,
                depth + 1,
                room,
                &mut inside,
                body.as_slice(),
            )?;
            add_iterations(out, *count, List::of(inside))?;
            Ok(after)
        }
        _ => keep(alloc, room, out, t),
    }
}

/// Statements in loops of this depth, after others, with the calls that are taken in; and the room that is left.
#[cycle(walk)]
#[tactic(auto)]
pub fn take_statements(
    alloc: Global,
    caller: &Caller<'_>,
    depth: u32,
    room: Room,
    out: &mut Vec<SpStmt>,
    body: &[SpStmt],
) -> Result<Room, OutOfMemory>
    requires levels { depth + stmts_levels (stmts_of body.now) ≤ room.levels }
    requires words { stmts_reach (stmts_of body.now) ≤ caller.now.words }
    requires word { caller.now.words < 2 ^ 32 }
    requires frame { caller.now.frame < 2 ^ 32 }
    ensures { IfOk result (λ r. specs.with_room (stmts_of out.new.items) r
        ≡ specs.taken_after (stmts_of out.old.items)
        (specs.stmts_taken (plain_caller caller.now) depth room (stmts_of body.now))) }
{
    let mut left = room;
    for t in body {
        left = take_statement(alloc, caller, depth, left, out, t)?;
    }
    Ok(left)
}
