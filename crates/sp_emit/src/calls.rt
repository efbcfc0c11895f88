//! Calls, sends, loops that went past their bound, and the counters of iterations.
ghost use Rattle.std.specs.Prelude.{◌≡◌, ◌++◌, ◌<◌, ◌≤◌, OnOk, IfSome};
ghost use Rattle.sp_emit.specs.Places as places;
ghost use Rattle.sp_emit.specs.Statements as specs;
ghost use Rattle.sp_shape.specs.Parts.{straight, repeats, one, joined};
ghost use Rattle.sp_shape.specs.Shown.{parts_of};
ghost use Rattle.slot_arbiter.specs.declared.table.TheConstants.{MOST_CORES};

use crate::instructions::{
    always, branch, call, combine, compare, compare_short, compute, idle, set_long, set_number,
    set_short, stack_op, store_to, where_so, with_short,
};
use crate::parts::{listed, push, push_straight};
use crate::places::{
    fetch_word, fetched_at, flag_of, keep_word, mask_test, read_word, set_word, told_at,
};
use crate::registers::{
    FIRST, MASK, MORE, OVERRUN, RESULT, SECOND, SPARE, TEST, pred, reg, register_after,
};
use crate::stands::Homes;
use patmos_instr::{AluFunc, Bundle, CmpFunc, ImmFunc, Mem, PredFunc, StackFunc};
use sp_shape::Part;
use tc_word::{List, OutOfMemory};

// the mask is handed to the function that is called
#[tactic(auto, unfolding(crate::specs::Statements::handed_in))]
fn hand_mask(out: &mut Vec<Part>, homes: Homes, mask: u32) -> Result<(), OutOfMemory>
    requires { mask < 128 }
    ensures { OnOk result (parts_of out.new.items
        ≡ joined (parts_of out.old.items) (one (straight (specs.mask_handed homes mask)))) }
{
    let handed = reg(MASK);
    let bundles = match flag_of(homes.flags, mask) {
        Some(p) => [
            set_short(always(), handed, 1),
            set_short(where_so(p), handed, 0),
        ],
        None => [
            read_word(homes.first, handed, mask),
            with_short(always(), ImmFunc::Xor, handed, handed, 1),
        ],
    };
    push_straight(out, &bundles)
}

// the call, before its function has a place
#[tactic(auto, unfolding(sp_shape::specs::Shown::plain_part))]
fn push_call(out: &mut Vec<Part>, function: u32) -> Result<(), OutOfMemory>
    ensures { OnOk result (parts_of out.new.items ≡ joined (parts_of out.old.items) (one (specs.way_to function))) }
{
    let tail = listed(*out.allocator(), &[call(), idle(), idle(), idle()])?;
    push(out, Part::CallTo { function, tail })
}

// the words of the own frame are brought back, and the result is set
fn come_back(
    out: &mut Vec<Part>,
    homes: Homes,
    frame: u32,
    mask: u32,
    slot: Option<u32>,
) -> Result<(), OutOfMemory>
    requires frame { frame ≤ 128 }
    requires mask { mask < 128 }
    requires slot { IfSome slot (λ word. word < 128) }
    ensures { OnOk result (parts_of out.new.items
        ≡ joined (parts_of out.old.items) (one (straight (specs.after_call homes frame mask slot)))) }
{
    let back = stack_op(StackFunc::Sens, frame);
    match slot {
        None => push_straight(out, &[back]),
        Some(word) => {
            let [load, test] = mask_test(homes, mask);
            let set = set_word(
                homes.first,
                where_so(told_at(homes, mask)),
                word,
                reg(RESULT),
            );
            push_straight(out, &[back, load, test, set])
        }
    }
}

/// A function is called, whose arguments stand in registers. It is `Err` where memory runs out.
#[tactic(auto, using(crate::proofs::Pushed::call_pushed))]
pub fn call_of(
    out: &mut Vec<Part>,
    homes: Homes,
    frame: u32,
    mask: u32,
    function: u32,
    slot: Option<u32>,
) -> Result<(), OutOfMemory>
    requires frame { frame ≤ 128 }
    requires mask { mask < 128 }
    requires slot { IfSome slot (λ word. word < 128) }
    ensures { OnOk result (parts_of out.new.items
        ≡ joined (parts_of out.old.items) (specs.call_code homes frame mask function slot)) }
{
    hand_mask(out, homes, mask)?;
    push_call(out, function)?;
    come_back(out, homes, frame, mask, slot)
}

// whether a send starts
fn send_test(homes: Homes, mask: u32) -> [Bundle; 11]
    requires { mask < 128 }
    ensures { result ≡ places.mask_test homes mask ++ specs.send_test (places.told_at homes mask) }
{
    let [load, masked] = mask_test(homes, mask);
    let source = reg(FIRST);
    let target = register_after(source);
    let count = register_after(target);
    let (less, spare) = (register_after(count), reg(SPARE));
    let (test, second) = (pred(TEST), pred(SECOND));
    [
        load,
        masked,
        set_long(spare, 512),
        with_short(always(), ImmFunc::Sub, less, count, 1),
        compare(CmpFunc::Ult, second, less, spare),
        combine(PredFunc::Pand, test, told_at(homes, mask), second),
        compute(always(), AluFunc::Sub, spare, spare, count),
        compare(CmpFunc::Ule, second, source, spare),
        combine(PredFunc::Pand, test, test, second),
        compare(CmpFunc::Ule, second, target, spare),
        combine(PredFunc::Pand, test, test, second),
    ]
}

// the registers of the interface are set
fn send_start(core: u32) -> [Bundle; 4]
    requires { core < MOST_CORES }
    ensures { result ≡ specs.send_start core }
{
    let source = reg(FIRST);
    let target = register_after(source);
    let count = register_after(target);
    let (spare, test) = (reg(SPARE), pred(TEST));
    [
        set_long(spare, 0x2_0000 + 16 * core),
        store_to(where_so(test), Mem::L, spare, source, 0),
        store_to(where_so(test), Mem::L, spare, target, 1),
        store_to(where_so(test), Mem::L, spare, count, 2),
    ]
}

/// A send, whose source, target and count stand in registers. It is `Err` where memory runs out.
pub fn send(out: &mut Vec<Part>, homes: Homes, mask: u32, core: u32) -> Result<(), OutOfMemory>
    requires mask { mask < 128 }
    requires core { core < MOST_CORES }
    ensures { OnOk result (parts_of out.new.items
        ≡ joined (parts_of out.old.items) (one (straight (specs.send_code homes mask core)))) }
{
    let mut bundles = Vec::new(*out.allocator());
    bundles.extend_from_slice(&send_test(homes, mask))?;
    bundles.extend_from_slice(&send_start(core))?;
    push_straight(out, &bundles)
}

/// The flag is set where the first register's word is not 0. It is `Err` where memory runs out.
pub fn overrun(out: &mut Vec<Part>, homes: Homes, mask: u32) -> Result<(), OutOfMemory>
    requires { mask < 128 }
    ensures { OnOk result (parts_of out.new.items
        ≡ joined (parts_of out.old.items) (one (straight (specs.overrun_code homes mask)))) }
{
    let (test, second) = (pred(TEST), pred(SECOND));
    let [load, masked] = mask_test(homes, mask);
    let bundles = [
        load,
        masked,
        compare_short(CmpFunc::Neq, second, reg(FIRST), 0),
        combine(PredFunc::Pand, test, told_at(homes, mask), second),
        set_short(where_so(test), reg(OVERRUN), 1),
    ];
    push_straight(out, &bundles)
}

/// The counter of iterations begins. It is `Err` where memory runs out.
pub fn begin_iterations(
    out: &mut Vec<Part>,
    homes: u32,
    counter: u32,
    count: u32,
) -> Result<(), OutOfMemory>
    requires { counter < 128 }
    ensures { OnOk result (parts_of out.new.items
        ≡ joined (parts_of out.old.items) (one (straight (specs.iterations_begin homes counter count)))) }
{
    let begin = set_number(fetched_at(homes, counter), count);
    push_straight(out, &[begin, keep_word(homes, counter)])
}

// an iteration ends: the next one begins where the counter is not at its end
fn iterations_tail(homes: u32, counter: u32) -> [Bundle; 7]
    requires { counter < 128 }
    ensures { result ≡ specs.iterations_tail homes counter }
{
    let (left, more) = (fetched_at(homes, counter), pred(MORE));
    [
        fetch_word(homes, counter),
        with_short(always(), ImmFunc::Sub, left, left, 1),
        keep_word(homes, counter),
        compare_short(CmpFunc::Neq, more, left, 0),
        branch(more),
        idle(),
        idle(),
    ]
}

/// Parts are repeated so many times. It is `Err` where memory runs out.
#[tactic(auto, using(sp_shape::proofs::Plain::plain_repeat))]
pub fn repeat(
    out: &mut Vec<Part>,
    homes: u32,
    counter: u32,
    count: u32,
    iteration: Vec<Part>,
) -> Result<(), OutOfMemory>
    requires { counter < 128 }
    ensures { OnOk result (parts_of out.new.items
        ≡ joined (parts_of out.old.items) (one (repeats count (parts_of iteration.items) (specs.iterations_tail homes counter)))) }
{
    let tail = listed(*out.allocator(), &iterations_tail(homes, counter))?;
    let body = List::of(iteration);
    push(out, Part::Repeat { count, body, tail })
}
