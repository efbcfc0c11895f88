//! Quotients and remainders.
ghost use Rattle.std.specs.Prelude.{◌≡◌, ◌<◌, ◌++◌, IfOk, OnOk};
ghost use Rattle.sp_emit.specs.Division as specs;
ghost use Rattle.sp_shape.specs.Parts.{part, straight, no_part, joined};
ghost use Rattle.sp_shape.specs.Shown.{plain_part, parts_of};

use crate::instructions::{
    always, branch, combine, compare, compare_short, compute, copy, idle, set_short, where_so,
    with_short,
};
use crate::parts::{push, push_straight};
use crate::registers::{
    DIGITS, DIVIDEND, DIVISOR, MORE, REMAINDER, SECOND, SPARE, TEST, pred, reg,
};
use patmos_instr::{AluFunc, Bundle, CmpFunc, ImmFunc, PredFunc, Reg};
use sp_shape::Part;
use std::alloc::Global;
use tc_word::{List, OutOfMemory};

// the operands are brought to their places
fn operands(ra: Reg, rb: Reg) -> [Bundle; 4]
    ensures { result ≡ specs.operands ra rb }
{
    [
        copy(reg(DIVIDEND), ra),
        copy(reg(DIVISOR), rb),
        set_short(always(), reg(REMAINDER), 0),
        set_short(always(), reg(DIGITS), 8),
    ]
}

// signs are kept apart
fn without_signs(rest: u32, quotient: u32) -> [Bundle; 5]
    requires of_rest { rest < 8 }
    requires of_quotient { quotient < 8 }
    ensures { result ≡ specs.without_signs rest quotient }
{
    let (dividend, divisor) = (reg(DIVIDEND), reg(DIVISOR));
    let (rest, quotient) = (pred(rest), pred(quotient));
    [
        compare_short(CmpFunc::Btest, rest, dividend, 31),
        compare_short(CmpFunc::Btest, quotient, divisor, 31),
        compute(where_so(rest), AluFunc::Sub, dividend, reg(0), dividend),
        compute(where_so(quotient), AluFunc::Sub, divisor, reg(0), divisor),
        combine(PredFunc::Pxor, quotient, rest, quotient),
    ]
}

// the operands are brought to their places without their signs
fn signed_operands(rest: u32, quotient: u32, ra: Reg, rb: Reg) -> [Bundle; 9]
    requires of_rest { rest < 8 }
    requires of_quotient { quotient < 8 }
    ensures { result ≡ specs.operands ra rb ++ specs.without_signs rest quotient }
{
    let [dividend, divisor, none, digits] = operands(ra, rb);
    let [first, second, less, by, either] = without_signs(rest, quotient);
    [
        dividend, divisor, none, digits, first, second, less, by, either,
    ]
}

// the highest bit of the dividend stands apart
fn highest_bit() -> Bundle
    ensures { result ≡ specs.highest_bit }
{
    with_short(always(), ImmFunc::Sr, reg(SPARE), reg(DIVIDEND), 31)
}

// the bundles of one digit
fn digit() -> [Bundle; 6]
    ensures { result ≡ specs.digit }
{
    let (dividend, divisor) = (reg(DIVIDEND), reg(DIVISOR));
    let (remainder, spare, test) = (reg(REMAINDER), reg(SPARE), pred(TEST));
    [
        compute(always(), AluFunc::Shadd, remainder, remainder, spare),
        compute(always(), AluFunc::Add, dividend, dividend, dividend),
        compare(CmpFunc::Ule, test, divisor, remainder),
        highest_bit(),
        compute(where_so(test), AluFunc::Sub, remainder, remainder, divisor),
        with_short(where_so(test), ImmFunc::Add, dividend, dividend, 1),
    ]
}

// an iteration is counted
fn counted() -> [Bundle; 2]
    ensures { result ≡ specs.counted }
{
    [
        with_short(always(), ImmFunc::Sub, reg(DIGITS), reg(DIGITS), 1),
        compare_short(CmpFunc::Neq, pred(MORE), reg(DIGITS), 0),
    ]
}

// the bundles of an iteration, with the branch after them
fn digit_tail(alloc: Global) -> Result<List<Bundle>, OutOfMemory>
    ensures { IfOk result (λ tail. tail ≡ specs.digit_tail) }
{
    let digit = digit();
    let mut tail = Vec::new(alloc);
    tail.extend_from_slice(&counted())?;
    tail.extend_from_slice(&digit)?;
    tail.extend_from_slice(&digit)?;
    tail.extend_from_slice(&digit)?;
    tail.extend_from_slice(&digit)?;
    tail.extend_from_slice(&[branch(pred(MORE)), idle(), idle()])?;
    Ok(List::of(tail))
}

// all digits
#[tactic(auto, using(sp_shape::proofs::Plain::plain_repeat))]
fn digits(alloc: Global) -> Result<Part, OutOfMemory>
    ensures { IfOk result (λ p. plain_part p ≡ specs.digits) }
{
    let tail = digit_tail(alloc)?;
    Ok(Part::Repeat {
        count: 8,
        body: List::of(Vec::new(alloc)),
        tail,
    })
}

// the digits stand between what is before and what is after them
#[tactic(auto, using(crate::proofs::Pushed::around_pushed))]
fn around(out: &mut Vec<Part>, before: &[Bundle], after: &[Bundle]) -> Result<(), OutOfMemory>
    ensures { OnOk result (parts_of out.new.items
        ≡ joined (parts_of out.old.items) (specs.around before.now after.now)) }
{
    let mut first = Vec::new(*out.allocator());
    first.extend_from_slice(before)?;
    first.push(highest_bit())?;
    push_straight(out, &first)?;
    let digits = digits(*out.allocator())?;
    push(out, digits)?;
    push_straight(out, after)
}

/// A division of unsigned words after the parts, with what makes its answer. It is `Err` where memory runs out.
pub fn unsigned_division(
    out: &mut Vec<Part>,
    after: &[Bundle],
    ra: Reg,
    rb: Reg,
) -> Result<(), OutOfMemory>
    ensures { OnOk result (parts_of out.new.items
        ≡ joined (parts_of out.old.items) (specs.unsigned_division after.now ra rb)) }
{
    around(out, &operands(ra, rb), after)
}

/// A division of signed words after the parts, with the predicates that say then whether the rest and the quotient are
/// negative, and what makes its answer. It is `Err` where memory runs out.
pub fn signed_division(
    out: &mut Vec<Part>,
    rest: u32,
    quotient: u32,
    after: &[Bundle],
    ra: Reg,
    rb: Reg,
) -> Result<(), OutOfMemory>
    requires of_rest { rest < 8 }
    requires of_quotient { quotient < 8 }
    ensures { OnOk result (parts_of out.new.items
        ≡ joined (parts_of out.old.items) (specs.signed_division rest quotient after.now ra rb)) }
{
    around(out, &signed_operands(rest, quotient, ra, rb), after)
}

// whether the divisor is large, and whether it then goes into the dividend
fn is_large(ra: Reg) -> [Bundle; 3]
    ensures { result ≡ specs.is_large ra }
{
    let (test, second) = (pred(TEST), pred(SECOND));
    [
        compare_short(CmpFunc::Btest, second, reg(DIVISOR), 31),
        compare(CmpFunc::Ule, test, reg(DIVISOR), ra),
        combine(PredFunc::Pand, test, test, second),
    ]
}

/// The quotient of unsigned words goes to a register, 0 where the divisor is 0.
#[tactic(auto, unfolding(crate::specs::Division::unsigned_quotient_to))]
pub fn unsigned_quotient_to(rd: Reg, ra: Reg) -> [Bundle; 8]
    ensures { result ≡ specs.unsigned_quotient_to rd ra }
{
    let dividend = reg(DIVIDEND);
    let [large, within, goes] = is_large(ra);
    let [zero, quotient, none] = quotient_to(rd);
    [
        large,
        within,
        goes,
        set_short(where_so(pred(SECOND)), dividend, 0),
        set_short(where_so(pred(TEST)), dividend, 1),
        zero,
        quotient,
        none,
    ]
}

/// What is left of unsigned words goes to a register.
pub fn unsigned_rest_to(rd: Reg, ra: Reg) -> [Bundle; 6]
    ensures { result ≡ specs.unsigned_rest_to rd ra }
{
    let (remainder, divisor) = (reg(REMAINDER), reg(DIVISOR));
    let [large, within, goes] = is_large(ra);
    [
        large,
        within,
        goes,
        with_short(where_so(pred(SECOND)), ImmFunc::Add, remainder, ra, 0),
        compute(
            where_so(pred(TEST)),
            AluFunc::Sub,
            remainder,
            remainder,
            divisor,
        ),
        copy(rd, remainder),
    ]
}

// the quotient goes to a register, 0 where the divisor is 0
fn quotient_to(rd: Reg) -> [Bundle; 3]
    ensures { result ≡ specs.quotient_to rd }
{
    let test = pred(TEST);
    [
        compare_short(CmpFunc::Eq, test, reg(DIVISOR), 0),
        copy(rd, reg(DIVIDEND)),
        set_short(where_so(test), rd, 0),
    ]
}

/// The quotient of signed words, with its sign.
pub fn signed_quotient_to(rd: Reg) -> [Bundle; 4]
    ensures { result ≡ specs.signed_quotient_to rd }
{
    let [zero, quotient, none] = quotient_to(rd);
    [zero, quotient, none, with_sign(rd)]
}

/// What is left of signed words, with its sign.
pub fn signed_rest_to(rd: Reg) -> [Bundle; 2]
    ensures { result ≡ specs.signed_rest_to rd }
{
    [copy(rd, reg(REMAINDER)), with_sign(rd)]
}

// a register's word is taken from 0 where what is given is negative
fn with_sign(rd: Reg) -> Bundle
    ensures { result ≡ specs.with_sign rd }
{
    compute(where_so(pred(SECOND)), AluFunc::Sub, rd, reg(0), rd)
}
