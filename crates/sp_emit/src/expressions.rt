//! Expressions.
ghost use Rattle.std.specs.Prelude.{◌≡◌, ◌+◌, ◌<◌, ◌≤◌, nat_lt, true, OnOk, SomeIff, IfSome};
ghost use Rattle.sp_emit.specs.Expressions as specs;
ghost use Rattle.sp_shape.specs.Parts.{straight, one, joined};
ghost use Rattle.sp_shape.specs.Shown.{parts_of};
ghost use Rattle.sp_emit.specs.Fits.{ExprFits};
ghost use Rattle.sp_emit.specs.Places.{flag_of};
ghost use Rattle.sp_tree.specs.Formed.{cell_formed, array_formed};
ghost use Rattle.sp_tree.specs.Need.{need};
ghost use Rattle.sp_tree.specs.Plain.{plain_sp, constant, between_two};

use crate::arrays::{at_word_0, compare_below, offset_of, scale, set_base, set_length};
use crate::instructions::{load_from, set_number, set_short, where_not};
use crate::operators::{binary, held, is_immediate, truth_of, unary};
use crate::parts::push_straight;
use crate::places::{flag_of, is_in_register, read_word};
use crate::registers::{TEST, pred, reg, register_after};
use crate::stands::Homes;
use patmos_instr::{Mem, Reg};
use sp_shape::Part;
use sp_tree::{Region, SpArray, SpBinary, SpCell, SpExpr};
use tc_word::OutOfMemory;

/// The byte at which the words of a memory begin.
pub fn base_of(region: Region) -> u32
    ensures { result ≡ specs.base_of region }
{
    match region {
        Region::Scratch | Region::Private => 0,
        Region::Comm => 0x1_0000,
        Region::Shared => 0x100_0000,
    }
}

/// The address in bytes of a word of a memory.
pub fn address_of(region: Region, word: u32) -> u32
    requires { word < 65536 }
    ensures { result ≡ specs.address_of region word }
{
    base_of(region) + 4 * word
}

/// The memory, as instructions name it, in which a variable stands.
pub fn cell_space(region: Region) -> Mem
    ensures { result ≡ specs.cell_space region }
{
    match region {
        Region::Scratch | Region::Comm => Mem::L,
        Region::Private => Mem::C,
        Region::Shared => Mem::M,
    }
}

/// The memory, as instructions name it, in which an array stands.
pub fn array_space(region: Region) -> Mem
    ensures { result ≡ specs.array_space region }
{
    match region {
        Region::Scratch | Region::Comm => Mem::L,
        Region::Private | Region::Shared => Mem::M,
    }
}

// the word of a variable goes to a register
fn cell(out: &mut Vec<Part>, cell: SpCell, rd: Reg) -> Result<(), OutOfMemory>
    requires { cell_formed cell ≡ true }
    ensures { OnOk result (parts_of out.new.items
        ≡ joined (parts_of out.old.items) (one (straight (specs.cell_code cell rd)))) }
{
    let bundles = [
        set_number(rd, address_of(cell.region, cell.word)),
        load_from(cell_space(cell.region), rd, rd, 0),
    ];
    push_straight(out, &bundles)
}

// the element at the index in one register goes to another
fn element(out: &mut Vec<Part>, array: SpArray, rd: Reg, ra: Reg) -> Result<(), OutOfMemory>
    requires { array_formed array ≡ true }
    ensures { OnOk result (parts_of out.new.items
        ≡ joined (parts_of out.old.items) (one (straight (specs.element_code array rd ra)))) }
{
    let words = offset_of(array);
    let test = pred(TEST);
    let bundles = [
        set_length(array.length),
        compare_below(test, ra, array.length),
        set_base(array),
        scale(array, rd, ra),
        at_word_0(test, rd, words),
        load_from(array_space(array.region), rd, rd, words),
        set_short(where_not(test), rd, 0),
    ];
    push_straight(out, &bundles)
}

// how many registers an expression takes
#[tactic(auto, unfolding(sp_tree::specs::Plain::plain_sp))]
pub fn need_of(e: &SpExpr) -> u32
    requires { need (plain_sp e.now) ≤ 21 }
    ensures { result ≡ need (plain_sp e.now) }
{
    match e {
        SpExpr::Const { .. } | SpExpr::Frame { .. } | SpExpr::Scalar { .. } => 1,
        SpExpr::Element { index, .. } => need_of(index),
        SpExpr::Unary { of, .. } => need_of(of),
        SpExpr::Binary { a, b, .. } => {
            let (a, b) = (need_of(a), need_of(b));
            if a < b { b.max(a + 1) } else { a.max(b + 1) }
        }
    }
}

// whether an operand is a word of the frame in a register, or 0, which register 0 holds
#[tactic(auto, unfolding(sp_tree::specs::Plain::plain_sp))]
fn is_home(homes: Homes, e: &SpExpr) -> bool
    ensures { result ≡ specs.is_home homes (plain_sp e.now) }
{
    match e {
        SpExpr::Const { value } => *value == 0,
        SpExpr::Frame { slot } => {
            flag_of(homes.flags, *slot).is_none() && is_in_register(homes.first, *slot)
        }
        _ => false,
    }
}

// the word of the frame that an operand is
#[tactic(auto, unfolding(sp_tree::specs::Plain::plain_sp))]
pub fn slot_number(e: &SpExpr) -> u32
    ensures { result ≡ specs.slot_number (plain_sp e.now) }
{
    match e {
        SpExpr::Frame { slot } => *slot,
        _ => 0,
    }
}

// the register in which an operand's value stands
#[tactic(auto, using(crate::proofs::Operands::word_below), unfolding(sp_tree::specs::Plain::plain_sp))]
pub fn value_at(homes: Homes, e: &SpExpr, rd: Reg) -> Reg
    ensures { result ≡ specs.value_at homes (plain_sp e.now) rd }
{
    match e {
        SpExpr::Frame { slot } if is_home(homes, e) => reg(homes.first + *slot),
        _ if is_home(homes, e) => reg(0),
        _ => rd,
    }
}

// whether the second operand is worked out first: the one of the greater need is
pub fn is_second_first(a: &SpExpr, b: &SpExpr) -> bool
    requires first { need (plain_sp a.now) ≤ 21 }
    requires second { need (plain_sp b.now) ≤ 21 }
    ensures { result ≡ nat_lt (need (plain_sp a.now)) (need (plain_sp b.now)) }
{
    need_of(a) < need_of(b)
}

// the number of a constant for which the operator has code of its own
#[tactic(auto, unfolding(sp_tree::specs::Plain::plain_sp))]
pub fn held_constant(op: SpBinary, b: &SpExpr) -> Option<u32>
    ensures held { SomeIff result (specs.is_immediate op (plain_sp b.now) ≡ true) (specs.number_of (plain_sp b.now)) }
    ensures immediate { IfSome result (λ n. specs.is_immediate op (constant n) ≡ true) }
{
    match b {
        SpExpr::Const { value } if is_immediate(op, *value) => Some(*value),
        _ => None,
    }
}

// an operator on values that were worked out from a register on
#[tactic(auto, using(crate::proofs::Needs::few_needs, crate::proofs::Needs::first_fits, crate::proofs::Needs::second_fits, crate::proofs::Needs::one_after))]
fn applied(
    out: &mut Vec<Part>,
    homes: Homes,
    op: SpBinary,
    a: &SpExpr,
    b: &SpExpr,
    rd: Reg,
    to: Reg,
) -> Result<(), OutOfMemory>
    requires { ExprFits (between_two op (plain_sp a.now) (plain_sp b.now)) rd }
    ensures { OnOk result (parts_of out.new.items
        ≡ joined (parts_of out.old.items) (specs.value_code homes (between_two op (plain_sp a.now) (plain_sp b.now)) rd to)) }
{
    if let Some(n) = held_constant(op, b) {
        return held(out, op, to, value_at(homes, a, rd), n);
    }
    if is_second_first(a, b) {
        let (first, second) = (
            value_at(homes, a, register_after(rd)),
            value_at(homes, b, rd),
        );
        binary(out, op, to, first, second)
    } else {
        let (first, second) = (
            value_at(homes, a, rd),
            value_at(homes, b, register_after(rd)),
        );
        binary(out, op, to, first, second)
    }
}

// the value of a word of the frame goes to a register
fn word(out: &mut Vec<Part>, homes: Homes, to: Reg, slot: u32) -> Result<(), OutOfMemory>
    requires { slot < 128 }
    ensures { OnOk result (parts_of out.new.items
        ≡ joined (parts_of out.old.items) (one (straight (specs.word_code (flag_of homes.flags slot) homes.first to slot)))) }
{
    match flag_of(homes.flags, slot) {
        Some(p) => push_straight(out, &truth_of(p, to)),
        None => push_straight(out, &[read_word(homes.first, to, slot)]),
    }
}

// the value of an expression goes to a register, where its operands were worked out from another one on
#[tactic(auto, using(crate::proofs::Pushed::two_pushed, crate::proofs::Needs::word_named, crate::proofs::Needs::cell_named, crate::proofs::Needs::array_named, crate::proofs::Needs::index_named), unfolding(sp_tree::specs::Plain::plain_sp))]
fn value(out: &mut Vec<Part>, homes: Homes, e: &SpExpr, rd: Reg, to: Reg) -> Result<(), OutOfMemory>
    requires { ExprFits (plain_sp e.now) rd }
    ensures { OnOk result (parts_of out.new.items
        ≡ joined (parts_of out.old.items) (specs.value_code homes (plain_sp e.now) rd to)) }
{
    match e {
        SpExpr::Const { value } => push_straight(out, &[set_number(to, *value)]),
        SpExpr::Frame { slot } => word(out, homes, to, *slot),
        SpExpr::Scalar { cell: of } => cell(out, *of, to),
        SpExpr::Element { array, index } => element(out, *array, to, value_at(homes, index, rd)),
        SpExpr::Unary { op, of } => unary(out, *op, to, value_at(homes, of, rd)),
        SpExpr::Binary { op, a, b } => applied(out, homes, *op, a, b, rd, to),
    }
}

// the operands of an expression are worked out, from a register on
#[cycle(operands)]
#[tactic(auto, using(crate::proofs::Pushed::nothing_pushed, crate::proofs::Needs::index_named, crate::proofs::Needs::operand_fits), unfolding(sp_tree::specs::Plain::plain_sp))]
pub fn operands(out: &mut Vec<Part>, homes: Homes, e: &SpExpr, rd: Reg) -> Result<(), OutOfMemory>
    requires { ExprFits (plain_sp e.now) rd }
    ensures { OnOk result (parts_of out.new.items
        ≡ joined (parts_of out.old.items) (specs.operands_code homes (plain_sp e.now) rd)) }
{
    match e {
        SpExpr::Const { .. } | SpExpr::Frame { .. } | SpExpr::Scalar { .. } => Ok(()),
        SpExpr::Element { index: of, .. } | SpExpr::Unary { of, .. } => operand(out, homes, of, rd),
        SpExpr::Binary { op, a, b } => two_operands(out, homes, *op, a, b, rd),
    }
}

// an operand's value goes to a register, where it does not stand in one
#[cycle(operands)]
#[tactic(auto, using(crate::proofs::Pushed::two_pushed))]
fn operand(out: &mut Vec<Part>, homes: Homes, e: &SpExpr, rd: Reg) -> Result<(), OutOfMemory>
    requires { ExprFits (plain_sp e.now) rd }
    ensures { OnOk result (parts_of out.new.items
        ≡ joined (parts_of out.old.items) (specs.operand_code homes (plain_sp e.now) rd)) }
{
    if is_home(homes, e) {
        return Ok(());
    }
    operands(out, homes, e, rd)?;
    value(out, homes, e, rd, rd)
}

// of two operands the one of the greater need is worked out first
#[cycle(operands)]
#[tactic(auto, using(crate::proofs::Needs::few_needs, crate::proofs::Needs::first_fits, crate::proofs::Needs::second_fits, crate::proofs::Needs::first_fits_after, crate::proofs::Needs::second_fits_after, crate::proofs::Needs::one_after))]
fn two_operands(
    out: &mut Vec<Part>,
    homes: Homes,
    op: SpBinary,
    a: &SpExpr,
    b: &SpExpr,
    rd: Reg,
) -> Result<(), OutOfMemory>
    requires { ExprFits (between_two op (plain_sp a.now) (plain_sp b.now)) rd }
    ensures { OnOk result (parts_of out.new.items
        ≡ joined (parts_of out.old.items) (specs.operands_code homes (between_two op (plain_sp a.now) (plain_sp b.now)) rd)) }
{
    if let Some(_) = held_constant(op, b) {
        return operand(out, homes, a, rd);
    }
    if is_second_first(a, b) {
        one_by_one(out, homes, b, a, rd)
    } else {
        one_by_one(out, homes, a, b, rd)
    }
}

// the values of two expressions go to a register and to the one after it
#[cycle(operands)]
#[tactic(auto, using(crate::proofs::Pushed::two_pushed))]
fn one_by_one(
    out: &mut Vec<Part>,
    homes: Homes,
    first: &SpExpr,
    second: &SpExpr,
    rd: Reg,
) -> Result<(), OutOfMemory>
    requires first { ExprFits (plain_sp first.now) rd }
    requires second { ExprFits (plain_sp second.now) (rd + 1) }
    requires room { rd + 1 < 32 }
    ensures { OnOk result (parts_of out.new.items
        ≡ joined (parts_of out.old.items)
        (joined (specs.operand_code homes (plain_sp first.now) rd)
        (specs.operand_code homes (plain_sp second.now) (rd + 1)))) }
{
    operand(out, homes, first, rd)?;
    operand(out, homes, second, register_after(rd))
}

/// An expression is worked out from a register on, and its value goes to another one. It is `Err` where memory runs out.
#[tactic(auto, using(crate::proofs::Pushed::two_pushed))]
pub fn expression_to(
    out: &mut Vec<Part>,
    homes: Homes,
    e: &SpExpr,
    rd: Reg,
    to: Reg,
) -> Result<(), OutOfMemory>
    requires { ExprFits (plain_sp e.now) rd }
    ensures { OnOk result (parts_of out.new.items
        ≡ joined (parts_of out.old.items) (specs.expr_to homes (plain_sp e.now) rd to)) }
{
    operands(out, homes, e, rd)?;
    value(out, homes, e, rd, to)
}

/// The value of an expression goes to a register. It is `Err` where memory runs out.
pub fn expression(out: &mut Vec<Part>, homes: Homes, e: &SpExpr, rd: Reg) -> Result<(), OutOfMemory>
    requires { ExprFits (plain_sp e.now) rd }
    ensures { OnOk result (parts_of out.new.items
        ≡ joined (parts_of out.old.items) (specs.expr_code homes (plain_sp e.now) rd)) }
{
    expression_to(out, homes, e, rd, rd)
}
