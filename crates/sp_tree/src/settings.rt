//! What statements set.
ghost use Rattle.std.specs.Prelude.{◌≡◌, ◌<◌, ◌≤◌, ◌==◌, ℕ, List, length, map, slice_index, true};
ghost use Rattle.c_world.specs.Shown.{shown, rooms};
ghost use Rattle.c_world.specs.World.{World, Sending};
ghost use Rattle.sp_tree.specs.Formed.{all_rooms, target_formed, result_formed};
ghost use Rattle.sp_tree.specs.Plain.{plain_sp};
ghost use Rattle.sp_tree.specs.Ran.{state_of};
ghost use Rattle.sp_tree.specs.Shown.{plain_sp_target, plain_function};
ghost use Rattle.sp_tree.specs.Straight.{worth, args_worth, with_sp_target, with_result, where_on, write_done, overrun_done, begun_frame};

use crate::evaluation::{slot_word, value};
use crate::expressions::{SpExpr, SpTarget};
use crate::statements::SpFunction;
use c_world::Memory;

// a word of the frame, a word of a memory, or an element
#[tactic(auto, using(shared_order::proofs::Words::words_put))]
fn set(target: &SpTarget, given: u32, frame: &mut [u32], memory: &mut Memory)
    requires rooms { rooms memory.old ≡ all_rooms }
    requires formed { target_formed (length frame.old) (plain_sp_target target.now) ≡ true }
    ensures done { (sends : List Sending)
        → with_sp_target (plain_sp_target target.now) given (state_of frame.old memory.old sends)
        ≡ state_of frame.new memory.new sends }
    ensures rooms { rooms memory.new ≡ all_rooms }
{
    match target {
        SpTarget::Frame { slot } => frame[*slot as usize] = given,
        SpTarget::Scalar { cell } => memory.set_word(cell.region, cell.word as usize, given),
        SpTarget::Element { array, index } => {
            let index = value(index, frame, memory);
            memory.set_element(array.region, array.first, array.length, index, given);
        }
    }
}

// whether a word of the frame is 1
fn is_on(mask: u32, frame: &[u32]) -> bool
    ensures { result ≡ (slice_index frame.now mask == 1) }
{
    slot_word(frame, mask as usize) == 1
}

/// A target is set to what an expression is worth, where the mask is 1.
pub fn write(mask: u32, target: &SpTarget, e: &SpExpr, frame: &mut [u32], memory: &mut Memory)
    requires rooms { rooms memory.old ≡ all_rooms }
    requires formed { target_formed (length frame.old) (plain_sp_target target.now) ≡ true }
    ensures done { (sends : List Sending)
        → where_on mask (write_done (plain_sp_target target.now) (plain_sp e.now)) (state_of frame.old memory.old sends)
        ≡ state_of frame.new memory.new sends }
    ensures rooms { rooms memory.new ≡ all_rooms }
{
    if is_on(mask, frame) {
        let given = value(e, frame, memory);
        set(target, given, frame, memory);
    }
}

/// The flag is set where the mask is 1 and the value is not 0.
pub fn overrun(mask: u32, e: &SpExpr, frame: &[u32], memory: &mut Memory)
    requires rooms { rooms memory.old ≡ all_rooms }
    ensures done { (sends : List Sending)
        → where_on mask (overrun_done (plain_sp e.now)) (state_of frame.now memory.old sends)
        ≡ state_of frame.now memory.new sends }
    ensures rooms { rooms memory.new ≡ all_rooms }
{
    let tested = is_on(mask, frame);
    if tested {
        let held = value(e, frame, memory) != 0;
        memory.overran(held);
    }
}

/// What a function gave is set, if anything is, where the mask is 1.
#[tactic(auto, using(shared_order::proofs::Words::words_put))]
pub fn set_result(mask: u32, result_slot: &Option<u32>, given: u32, frame: &mut [u32])
    requires formed { result_formed (length frame.old) result_slot.now ≡ true }
    ensures { (w : World) → where_on mask (with_result result_slot.now given)
        (record { frame = slice_index frame.old; world = w })
        ≡ record { frame = slice_index frame.new; world = w } }
{
    match result_slot {
        None => {}
        Some(slot) => {
            let wanted = is_on(mask, frame);
            if wanted {
                frame[*slot as usize] = given;
            }
        }
    }
}

// the word of an argument; 0 where there is none
#[tactic(auto, using(crate::proofs::Arguments::worth_at, crate::proofs::Arguments::worth_past))]
fn argument(args: &[SpExpr], number: usize, frame: &[u32], memory: &Memory) -> u32
    ensures { (sends : List Sending)
        → result ≡ slice_index (args_worth (map plain_sp args.now) (state_of frame.now memory.now sends)) number }
{
    if number < args.len() {
        value(&args[number], frame, memory)
    } else {
        0
    }
}

// the words of arguments, and 0 after them
fn pass(args: &[SpExpr], frame: &[u32], own: &mut [u32], memory: &Memory)
    requires { length args.now ≤ length own.old }
    ensures { (sends : List Sending)
        → slice_index own.new ≡ slice_index (args_worth (map plain_sp args.now) (state_of frame.now memory.now sends)) }
{
    for number in 0..own.len() {
        own[number] = argument(args, number, frame, memory);
    }
}

/// The words that a function's frame begins with.
#[tactic(auto, using(shared_order::proofs::Words::words_put))]
pub fn begin_frame(
    function: &SpFunction,
    mask: u32,
    args: &[SpExpr],
    frame: &[u32],
    own: &mut [u32],
    memory: &Memory,
)
    requires args { length args.now ≤ length own.old }
    requires mask { function.now.mask < length own.old }
    ensures { (sends : List Sending) → slice_index own.new
        ≡ begun_frame (plain_function function.now) mask
        (args_worth (map plain_sp args.now) (state_of frame.now memory.now sends)) }
{
    pass(args, frame, own, memory);
    own[function.mask as usize] = mask;
}
