//! Which calls are taken in.
ghost use Rattle.std.specs.Prelude.{◌≡◌, ◌+◌, ◌-◌, ◌&&◌, nat_lt, nat_le, ◌<◌, ◌≤◌, ◌^◌, ℕ, length, min, true, false, MatchOption, Some, None, if◌then◌else◌};
ghost use Rattle.sp_tree.specs.Cost.{expr_cost, stmts_cost};
ghost use Rattle.sp_tree.specs.Shown.{plain_function};
ghost use Rattle.sp_inline.specs.Shown.{plain_caller, args_of, statements_for};
ghost use Rattle.sp_inline.specs.Taken as specs;

use crate::calls::Call;
use crate::measured::Measured;
use crate::room::Room;

/// The functions before the one that takes in calls, how many words its tree names, and the most words of its frame.
#[derive(Clone, Copy, Debug)]
pub struct Caller<'a> {
    pub functions: &'a [Measured],
    pub words: u32,
    pub frame: u32,
}

// whether a call in loops of this depth may take in the function of a number
fn is_fitting(callee: &Measured, number: usize, depth: u32, call: &Call<'_>) -> bool
    ensures { result ≡ (nat_lt 0 depth && (specs.is_whole number (plain_function callee.now.function)
        && nat_le (length call.now.args.now) callee.now.function.mask)) }
{
    let mask = u64::from(callee.function.mask);
    depth > 0 && callee.is_whole(number) && call.args.len() as u64 <= mask
}

// the function of a call in a loop that may be taken in
#[tactic(auto, using(crate::proofs::Growth::may_found, crate::proofs::Growth::may_past, crate::proofs::Growth::callee_is))]
fn callee<'a>(caller: &Caller<'a>, depth: u32, call: &Call<'_>) -> Option<&'a Measured>
    ensures { MatchOption result
        (specs.may_take (plain_caller caller.now) depth call.now.function (args_of call.now) ≡ false)
        (λ m. (specs.may_take (plain_caller caller.now) depth call.now.function (args_of call.now) ≡ true)
        × (plain_function m.now.function ≡ specs.callee (plain_caller caller.now) call.now.function)) }
{
    let number = call.function as usize;
    if number >= caller.functions.len() {
        return None;
    }
    let callee = &caller.functions[number];
    if is_fitting(callee, number, depth, call) {
        Some(callee)
    } else {
        None
    }
}

// how many words of code it takes to set what was given
fn given_cost(given: Option<u32>) -> u64
    ensures cost { (mask word : ℕ) → result ≡ stmts_cost (specs.given_set mask given word) }
    ensures small { result ≤ 6 }
{
    match given {
        None => 0,
        Some(_) => 6,
    }
}

// how many words of code it takes to work out the mask of the function
fn mask_cost(tests: bool) -> u64
    ensures cost { (mask : ℕ) → result ≡ expr_cost (specs.call_mask tests mask) }
    ensures small { result ≤ 5 }
{
    if tests { 5 } else { 2 }
}

// by how many words of code a function grows that takes in a call; what passes 2^32 is counted as that
fn growth(callee: &Measured, call: &Call<'_>) -> u64
    requires few { length call.now.args.now ≤ callee.now.function.mask }
    requires mask { callee.now.function.mask < callee.now.words }
    ensures { (o : ℕ) → result
        ≡ min (specs.growth (statements_for o (plain_function callee.now.function) call.now) (args_of call.now))
        (2 ^ 32) }
{
    let begun = 2 * u64::from(callee.words) + mask_cost(callee.tests) - 1 - call.args.len() as u64;
    let others = begun + given_cost(call.result);
    callee
        .kept_cost
        .saturating_add(others)
        .saturating_sub(16)
        .min(1 << 32)
}

// the room that is left, if the function may grow by so many words of code, and its frame has so many words and levels
fn room_left(room: Room, grown: u64, words: u64, levels: u64, frame: u32) -> Option<Room>
    ensures { result ≡ (if nat_le grown room.left && nat_le (words + (levels + 2)) frame
        then Some (specs.room_of (room.left - grown) words levels) else None) }
{
    let needed = words.saturating_add(levels.saturating_add(2));
    if grown > u64::from(room.left) || needed > u64::from(frame) {
        return None;
    }
    Some(Room {
        left: room.left - grown as u32,
        words: words as u32,
        levels: levels as u32,
    })
}

// the room that is left after a call was taken in, if there is room for it
fn room_after(
    caller: &Caller<'_>,
    depth: u32,
    room: Room,
    callee: &Measured,
    call: &Call<'_>,
) -> Option<Room>
    requires few { length call.now.args.now ≤ callee.now.function.mask }
    requires mask { callee.now.function.mask < callee.now.words }
    ensures { let c = plain_caller caller.now in
        let f = plain_function callee.now.function in
        let more = statements_for c.words f call.now in
        let after = specs.room_after c depth room f more (args_of call.now) in
        result ≡ (if specs.has_room c room (specs.growth more (args_of call.now)) after then Some after else None) }
{
    let grown = growth(callee, call);
    let words = u64::from(room.words).max(u64::from(caller.words) + u64::from(callee.words));
    let levels = u64::from(room.levels).max(callee.levels.saturating_add(u64::from(depth)));
    room_left(room, grown, words, levels, caller.frame)
}

/// The function that a call takes in, and the room that is left after it, where it is taken in.
#[tactic(auto, using(crate::proofs::Growth::taken_found, crate::proofs::Growth::taken_not, crate::proofs::Growth::may_not, crate::proofs::Growth::few_args, crate::proofs::Growth::mask_there))]
pub fn taken<'a>(
    caller: &Caller<'a>,
    depth: u32,
    room: Room,
    call: &Call<'_>,
) -> Option<(&'a Measured, Room)>
    ensures { let c = plain_caller caller.now in
        let f = specs.callee c call.now.function in
        let more = statements_for c.words f call.now in
        MatchOption result
        (specs.is_taken c depth room call.now.function more (args_of call.now) ≡ false)
        (λ p. (specs.is_taken c depth room call.now.function more (args_of call.now) ≡ true)
        × ((plain_function p.0.now.function ≡ f)
        × (p.1 ≡ specs.room_after c depth room f more (args_of call.now)))) }
{
    let Some(callee) = callee(caller, depth, call) else {
        return None;
    };
    let Some(after) = room_after(caller, depth, room, callee, call) else {
        return None;
    };
    Some((callee, after))
}
