//! A worked course of two cores, made by turns in one thread and at once in two. It shows how a
//! caller of the board is written: publish the stamp of the next operation, look at the other clocks
//! until they are at or past it, make it, and at the end publish a stamp past the course.
ghost use Rattle.std.specs.Prelude.{◌≡◌, ◌≤◌, ◌<◌, [], ◌∷◌, IfOk, slice_index};
ghost use Rattle.shared_order.specs.Operation.{load, store, operations_of};
ghost use Rattle.clock_board.specs.Record.{clock_of, greatest, empty, with_look, with_operation};
ghost use Rattle.clock_board.specs.View.{own, todo, maker as new_maker, given, IsGiven};
ghost use Rattle.clock_board.specs.Board.{IsPassOf};
ghost use Rattle.clock_board.specs.Two.{two, Stands, IsBoardOfTwo};

use crate::{Board, Course, Pass};
use std::alloc::Global;
use std::sync::Wait;
use std::thread::{Threads, join, yield_now};
use tc_word::{List as Words, OutOfMemory};

/// The course: core 0 stores 7 in word 5 at stamp 8, and core 1 loads word 5 at stamps 5 and 13.
pub struct TwoCores;

impl Course for TwoCores {
    ghost use Rattle.clock_board.specs.Two.{two, asks};

    ghost cores = { λ _. 2 };

    ghost all = { λ _. two };

    ghost asked = { λ _. asks };
}

/// Looks at core d's clock until it is at or past the stamp, unless that was seen before.
fn watch<R: Wait>(rt: &R, board: &Board<TwoCores>, pass: &mut Pass<TwoCores>, d: u32, stamp: u64)
    requires of { IsPassOf board.now pass.old }
    requires given { IsGiven pass.old.view }
    requires among { d < board.now.cores }
    ensures of { IsPassOf board.now pass.new }
    ensures given { IsGiven pass.new.view }
    ensures core { (own pass.new.view).core ≡ (own pass.old.view).core }
    ensures left { todo pass.new.view ≡ todo pass.old.view }
    ensures clock { (own pass.new.view).published ≡ (own pass.old.view).published }
    ensures seen { stamp ≤ greatest d (own pass.new.view).looks }
{
    for _ in rt.forever() {
        if pass.seen(d) >= stamp {
            break;
        }
        if board.look(pass, d) < stamp {
            yield_now();
        }
    }
}

/// Core 1 from its beginning until it has published the stamp of its second load.
fn load_at_5<R: Wait>(rt: &R, board: &Board<TwoCores>, pass: &mut Pass<TwoCores>) -> u32
    requires of { IsPassOf board.now pass.old }
    requires cores { board.now.cores ≡ 2 }
    requires stands { Stands pass.old 1 (load 5 5 0 ∷ load 13 5 7 ∷ []) 0 }
    ensures of { IsPassOf board.now pass.new }
    ensures stands { Stands pass.new 1 (load 13 5 7 ∷ []) 13 }
    ensures value { result ≡ 0 }
{
    board.publish(pass, 5);
    watch(rt, board, pass, 0, 5);
    let value = board.load(pass, 5, 5);
    board.publish(pass, 13);
    value
}

/// Core 1 from there to its end.
fn load_at_13<R: Wait>(rt: &R, board: &Board<TwoCores>, pass: &mut Pass<TwoCores>) -> u32
    requires of { IsPassOf board.now pass.old }
    requires cores { board.now.cores ≡ 2 }
    requires stands { Stands pass.old 1 (load 13 5 7 ∷ []) 13 }
    ensures of { IsPassOf board.now pass.new }
    ensures stands { Stands pass.new 1 [] 14 }
    ensures value { result ≡ 7 }
{
    watch(rt, board, pass, 0, 13);
    let value = board.load(pass, 13, 5);
    board.publish(pass, 14);
    value
}

/// Core 0 from when it has published its stamp to its end.
fn store_at_8<R: Wait>(rt: &R, board: &Board<TwoCores>, pass: &mut Pass<TwoCores>)
    requires of { IsPassOf board.now pass.old }
    requires cores { board.now.cores ≡ 2 }
    requires stands { Stands pass.old 0 (store 8 5 7 ∷ []) 8 }
    ensures of { IsPassOf board.now pass.new }
    ensures stands { Stands pass.new 0 [] 14 }
{
    watch(rt, board, pass, 1, 8);
    board.store(pass, 8, 5, 7);
    board.publish(pass, 14);
}

/// Takes both passes back and closes the board.
fn close_both(
    board: Board<TwoCores>,
    mut maker: Pass<TwoCores>,
    zero: Pass<TwoCores>,
    one: Pass<TwoCores>,
) -> Words<u32>
    requires board { IsBoardOfTwo board }
    requires of_maker { IsPassOf board maker }
    requires of_zero { IsPassOf board zero }
    requires of_one { IsPassOf board one }
    requires maker { maker.view ≡ new_maker 2 two }
    requires zero { Stands zero 0 [] 14 }
    requires one { Stands one 1 [] 14 }
    ensures { slice_index result 5 ≡ 7 }
{
    board.take_back(&mut maker, zero);
    board.take_back(&mut maker, one);
    board.close(maker)
}

/// The course made in one thread, the cores by turns: what core 1 loads, and the words at the end.
pub fn two_cores_by_turns<R: Wait>(
    rt: &R,
    alloc: Global,
) -> Result<(u32, u32, Words<u32>), OutOfMemory>
    ensures { IfOk result (λ r. (r.0 ≡ 0) × (r.1 ≡ 7) × (slice_index r.2 5 ≡ 7)) }
{
    let (board, mut maker) = Board::new(alloc, &TwoCores, 2, 6)?;
    let mut zero = board.give(rt, &mut maker, 0);
    let mut one = board.give(rt, &mut maker, 1);
    board.publish(&mut zero, 8);
    let first = load_at_5(rt, &board, &mut one);
    store_at_8(rt, &board, &mut zero);
    let second = load_at_13(rt, &board, &mut one);
    Ok((first, second, close_both(board, maker, zero, one)))
}

/// Core 0 in a thread of its own.
fn store_all<R: Wait>(rt: &R, board: &Board<TwoCores>, mut pass: Pass<TwoCores>) -> Pass<TwoCores>
    requires of { IsPassOf board.now pass }
    requires cores { board.now.cores ≡ 2 }
    requires stands { Stands pass 0 (store 8 5 7 ∷ []) 0 }
    ensures of { IsPassOf board.now result }
    ensures stands { Stands result 0 [] 14 }
{
    board.publish(&mut pass, 8);
    store_at_8(rt, board, &mut pass);
    pass
}

/// Core 1 in a thread of its own.
fn load_all<R: Wait>(
    rt: &R,
    board: &Board<TwoCores>,
    mut pass: Pass<TwoCores>,
) -> (Pass<TwoCores>, u32, u32)
    requires of { IsPassOf board.now pass }
    requires cores { board.now.cores ≡ 2 }
    requires stands { Stands pass 1 (load 5 5 0 ∷ load 13 5 7 ∷ []) 0 }
    ensures of { IsPassOf board.now result.0 }
    ensures stands { Stands result.0 1 [] 14 }
    ensures values { (result.1 ≡ 0) × (result.2 ≡ 7) }
{
    let first = load_at_5(rt, board, &mut pass);
    let second = load_at_13(rt, board, &mut pass);
    (pass, first, second)
}

/// Makes the worked course in two threads, one for each core.
pub fn two_cores_at_once<R: Threads + Wait + Sync>(
    rt: &R,
    alloc: Global,
) -> Result<(u32, u32, Words<u32>), OutOfMemory>
    ensures { IfOk result (λ r. (r.0 ≡ 0) × (r.1 ≡ 7) × (slice_index r.2 5 ≡ 7)) }
{
    let (board, mut maker) = Board::new(alloc, &TwoCores, 2, 6)?;
    let zero = board.give(rt, &mut maker, 0);
    let one = board.give(rt, &mut maker, 1);
    let shared = &board;
    let (zero, (one, first, second)) = join(
        rt,
        || store_all(rt, shared, zero),
        || load_all(rt, shared, one),
    );
    Ok((first, second, close_both(board, maker, zero, one)))
}

/// What the definitions say of this course: the parts of its cores, what core 1 has still to make
/// after its first load, what its clock shows, and what it has seen at most. A law: it does nothing.
pub fn worked_records()
    ensures parts { (operations_of 2 0 two ≡ store 8 5 7 ∷ [])
        × (operations_of 2 1 two ≡ load 5 5 0 ∷ load 13 5 7 ∷ []) }
    ensures left { todo (given (new_maker 2 two) (with_operation (empty 1) (load 5 5 0)))
        ≡ load 13 5 7 ∷ [] }
    ensures clock { (clock_of [] ≡ 0) × (clock_of (5 ∷ 13 ∷ []) ≡ 13) }
    ensures seen { greatest 0 (with_look (with_look (empty 1) 0 8) 0 6).looks ≡ 8 }
    ensures unseen { greatest 1 (with_look (empty 1) 0 8).looks ≡ 0 }
{}
