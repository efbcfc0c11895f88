//! Operators on the words of registers.
ghost use Rattle.std.specs.Prelude.{◌≡◌, ◌<◌, ◌≤◌, ◌^◌, true, false, OnOk};
ghost use Rattle.sp_emit.specs.Divisors.{factor};
ghost use Rattle.sp_emit.specs.Expressions as specs;
ghost use Rattle.sp_shape.specs.Parts.{straight, one, joined};
ghost use Rattle.sp_shape.specs.Shown.{parts_of};
ghost use Rattle.sp_tree.specs.Plain.{constant};

use crate::division::{
    signed_division, signed_quotient_to, signed_rest_to, unsigned_division, unsigned_quotient_to,
    unsigned_rest_to,
};
use crate::divisors::{
    factor_quotient_to, factor_rest_to, is_exact, is_power, power_quotient_to, power_rest_to,
    push_signed,
};
use crate::instructions::{
    always, combine, compare, compare_short, compute, from_special, multiply, set_short, where_so,
    with_short,
};
use crate::parts::push_straight;
use crate::registers::{DIVIDEND, SECOND, TEST, pred, reg};
use patmos_instr::{AluFunc, Bundle, CmpFunc, ImmFunc, Pred, PredFunc, Reg, Special};
use sp_shape::Part;
use sp_tree::{SpBinary, SpUnary};
use tc_word::OutOfMemory;

/// 1 where a predicate is true, else 0.
pub fn truth_of(p: Pred, rd: Reg) -> [Bundle; 2]
    ensures { result ≡ specs.truth_of p rd }
{
    [set_short(always(), rd, 0), set_short(where_so(p), rd, 1)]
}

// of the test
fn truth_to(rd: Reg) -> [Bundle; 2]
    ensures { result ≡ specs.truth_to rd }
{
    truth_of(pred(TEST), rd)
}

/// The value of an operator on a register's word goes there. It is `Err` where memory runs out.
pub fn unary(out: &mut Vec<Part>, op: SpUnary, rd: Reg, ra: Reg) -> Result<(), OutOfMemory>
    ensures { OnOk result (parts_of out.new.items
        ≡ joined (parts_of out.old.items) (one (straight (specs.unary_code op rd ra)))) }
{
    match op {
        SpUnary::Minus => push_straight(out, &[compute(always(), AluFunc::Sub, rd, reg(0), ra)]),
        SpUnary::Complement => {
            push_straight(out, &[compute(always(), AluFunc::Nor, rd, ra, reg(0))])
        }
        SpUnary::Not => {
            let [zero, one] = truth_to(rd);
            let test = compare_short(CmpFunc::Eq, pred(TEST), ra, 0);
            push_straight(out, &[test, zero, one])
        }
    }
}

// `||` and `&&`
fn both(out: &mut Vec<Part>, func: PredFunc, rd: Reg, ra: Reg, rb: Reg) -> Result<(), OutOfMemory>
    ensures { OnOk result (parts_of out.new.items
        ≡ joined (parts_of out.old.items) (one (straight (specs.both_code func rd ra rb)))) }
{
    let (test, second) = (pred(TEST), pred(SECOND));
    let [zero, one] = truth_to(rd);
    let bundles = [
        compare_short(CmpFunc::Neq, test, ra, 0),
        compare_short(CmpFunc::Neq, second, rb, 0),
        combine(func, test, test, second),
        zero,
        one,
    ];
    push_straight(out, &bundles)
}

// a comparison
fn compared(
    out: &mut Vec<Part>,
    func: CmpFunc,
    rd: Reg,
    ra: Reg,
    rb: Reg,
) -> Result<(), OutOfMemory>
    ensures { OnOk result (parts_of out.new.items
        ≡ joined (parts_of out.old.items) (one (straight (specs.compared_code func rd ra rb)))) }
{
    let [zero, one] = truth_to(rd);
    push_straight(out, &[compare(func, pred(TEST), ra, rb), zero, one])
}

// what one instruction gives
fn computed(
    out: &mut Vec<Part>,
    func: AluFunc,
    rd: Reg,
    ra: Reg,
    rb: Reg,
) -> Result<(), OutOfMemory>
    ensures { OnOk result (parts_of out.new.items ≡ joined (parts_of out.old.items) (specs.computed func rd ra rb)) }
{
    push_straight(out, &[compute(always(), func, rd, ra, rb)])
}

/// The value of an operator on the words of two registers goes to one. It is `Err` where memory runs out.
pub fn binary(
    out: &mut Vec<Part>,
    op: SpBinary,
    rd: Reg,
    ra: Reg,
    rb: Reg,
) -> Result<(), OutOfMemory>
    ensures { OnOk result (parts_of out.new.items ≡ joined (parts_of out.old.items) (specs.binary_code op rd ra rb)) }
{
    match op {
        SpBinary::Or => both(out, PredFunc::Por, rd, ra, rb),
        SpBinary::And => both(out, PredFunc::Pand, rd, ra, rb),
        SpBinary::BitOr => computed(out, AluFunc::Or, rd, ra, rb),
        SpBinary::BitXor => computed(out, AluFunc::Xor, rd, ra, rb),
        SpBinary::BitAnd => computed(out, AluFunc::And, rd, ra, rb),
        SpBinary::Equal => compared(out, CmpFunc::Eq, rd, ra, rb),
        SpBinary::NotEqual => compared(out, CmpFunc::Neq, rd, ra, rb),
        SpBinary::Less => compared(out, CmpFunc::Lt, rd, ra, rb),
        SpBinary::LessUnsigned => compared(out, CmpFunc::Ult, rd, ra, rb),
        SpBinary::LessEqual => compared(out, CmpFunc::Le, rd, ra, rb),
        SpBinary::LessEqualUnsigned => compared(out, CmpFunc::Ule, rd, ra, rb),
        SpBinary::ShiftLeft => computed(out, AluFunc::Sl, rd, ra, rb),
        SpBinary::ShiftRight => computed(out, AluFunc::Sra, rd, ra, rb),
        SpBinary::ShiftRightUnsigned => computed(out, AluFunc::Sr, rd, ra, rb),
        SpBinary::Plus => computed(out, AluFunc::Add, rd, ra, rb),
        SpBinary::Minus => computed(out, AluFunc::Sub, rd, ra, rb),
        SpBinary::Times => push_straight(out, &[multiply(ra, rb), from_special(rd, Special::Sl)]),
        SpBinary::Divide => signed_division(out, TEST, SECOND, &signed_quotient_to(rd), ra, rb),
        SpBinary::DivideUnsigned => unsigned_division(out, &unsigned_quotient_to(rd, ra), ra, rb),
        SpBinary::Remainder => signed_division(out, SECOND, TEST, &signed_rest_to(rd), ra, rb),
        SpBinary::RemainderUnsigned => unsigned_division(out, &unsigned_rest_to(rd, ra), ra, rb),
    }
}

// an operation on a register's word and a constant that an instruction holds
fn held_computed(
    out: &mut Vec<Part>,
    func: ImmFunc,
    rd: Reg,
    ra: Reg,
    n: u32,
) -> Result<(), OutOfMemory>
    requires { n < 4096 }
    ensures { OnOk result (parts_of out.new.items
        ≡ joined (parts_of out.old.items) (one (straight (specs.held_computed func rd ra n)))) }
{
    push_straight(out, &[with_short(always(), func, rd, ra, n)])
}

// a comparison with a constant that an instruction holds
fn held_compared(
    out: &mut Vec<Part>,
    func: CmpFunc,
    rd: Reg,
    ra: Reg,
    n: u32,
) -> Result<(), OutOfMemory>
    requires { n < 32 }
    ensures { OnOk result (parts_of out.new.items
        ≡ joined (parts_of out.old.items) (one (straight (specs.held_compared func rd ra n)))) }
{
    let [zero, one] = truth_to(rd);
    push_straight(out, &[compare_short(func, pred(TEST), ra, n), zero, one])
}

// the constants of which an operator has code of its own as its second operand are below this number
fn immediate_below(op: SpBinary) -> u64
    ensures { result ≡ specs.immediate_below op }
{
    match op {
        SpBinary::BitOr
        | SpBinary::BitXor
        | SpBinary::BitAnd
        | SpBinary::ShiftLeft
        | SpBinary::ShiftRight
        | SpBinary::ShiftRightUnsigned
        | SpBinary::Plus
        | SpBinary::Minus => 4096,
        SpBinary::Equal
        | SpBinary::NotEqual
        | SpBinary::Less
        | SpBinary::LessUnsigned
        | SpBinary::LessEqual
        | SpBinary::LessEqualUnsigned => 32,
        SpBinary::Divide | SpBinary::Remainder => 0x8000_0000,
        SpBinary::DivideUnsigned | SpBinary::RemainderUnsigned => 0x1_0000_0000,
        _ => 0,
    }
}

// whether one instruction holds the constant, or that less 1
fn is_short(op: SpBinary, n: u32) -> bool
    ensures { result ≡ specs.is_short op n }
{
    match op {
        SpBinary::Divide | SpBinary::DivideUnsigned => is_power(n),
        SpBinary::Remainder | SpBinary::RemainderUnsigned => is_power(n) && n <= 4096,
        _ => true,
    }
}

// the greatest dividend
fn greatest(op: SpBinary) -> u32
    ensures { result ≡ specs.greatest op }
{
    match op {
        SpBinary::Divide | SpBinary::Remainder => 0x8000_0000,
        _ => u32::MAX,
    }
}

/// Whether an operator has code of its own for a constant as its second operand.
pub fn is_immediate(op: SpBinary, n: u32) -> bool
    ensures { result ≡ specs.is_immediate op (constant n) }
{
    u64::from(n) < immediate_below(op) && (is_short(op, n) || is_exact(greatest(op), n))
}

/// The value of an operator on a register's word and such a constant goes to a register. It is `Err` where memory runs
/// out.
#[tactic(auto, using(crate::proofs::Held::short_below, crate::proofs::Held::factor_some, crate::proofs::Held::factor_word))]
pub fn held(out: &mut Vec<Part>, op: SpBinary, rd: Reg, ra: Reg, n: u32) -> Result<(), OutOfMemory>
    requires { specs.is_immediate op (constant n) ≡ true }
    ensures { OnOk result (parts_of out.new.items
        ≡ joined (parts_of out.old.items) (one (straight (specs.held_code op rd ra n)))) }
{
    if is_short(op, n) {
        short(out, op, rd, ra, n)
    } else {
        by_factor(out, op, rd, ra, n)
    }
}

// an operator with a constant that one instruction holds, or that less 1
fn short(out: &mut Vec<Part>, op: SpBinary, rd: Reg, ra: Reg, n: u32) -> Result<(), OutOfMemory>
    requires below { n < specs.immediate_below op }
    requires held { specs.is_short op n ≡ true }
    ensures { OnOk result (parts_of out.new.items
        ≡ joined (parts_of out.old.items) (one (straight (specs.short_code op rd ra n)))) }
{
    match op {
        SpBinary::BitOr => held_computed(out, ImmFunc::Or, rd, ra, n),
        SpBinary::BitXor => held_computed(out, ImmFunc::Xor, rd, ra, n),
        SpBinary::BitAnd => held_computed(out, ImmFunc::And, rd, ra, n),
        SpBinary::ShiftLeft => held_computed(out, ImmFunc::Sl, rd, ra, n),
        SpBinary::ShiftRight => held_computed(out, ImmFunc::Sra, rd, ra, n),
        SpBinary::ShiftRightUnsigned => held_computed(out, ImmFunc::Sr, rd, ra, n),
        SpBinary::Plus => held_computed(out, ImmFunc::Add, rd, ra, n),
        SpBinary::Minus => held_computed(out, ImmFunc::Sub, rd, ra, n),
        SpBinary::Equal => held_compared(out, CmpFunc::Eq, rd, ra, n),
        SpBinary::NotEqual => held_compared(out, CmpFunc::Neq, rd, ra, n),
        SpBinary::Less => held_compared(out, CmpFunc::Lt, rd, ra, n),
        SpBinary::LessUnsigned => held_compared(out, CmpFunc::Ult, rd, ra, n),
        SpBinary::LessEqual => held_compared(out, CmpFunc::Le, rd, ra, n),
        SpBinary::LessEqualUnsigned => held_compared(out, CmpFunc::Ule, rd, ra, n),
        SpBinary::Divide => push_signed(out, rd, ra, &power_quotient_to(rd, reg(DIVIDEND), n)),
        SpBinary::DivideUnsigned => push_straight(out, &power_quotient_to(rd, ra, n)),
        SpBinary::Remainder => push_signed(out, rd, ra, &power_rest_to(rd, reg(DIVIDEND), n)),
        SpBinary::RemainderUnsigned => push_straight(out, &power_rest_to(rd, ra, n)),
        _ => unreachable!(),
    }
}

// a quotient, or what is left, by a constant that has a factor
fn by_factor(out: &mut Vec<Part>, op: SpBinary, rd: Reg, ra: Reg, n: u32) -> Result<(), OutOfMemory>
    requires division { specs.is_short op n ≡ false }
    requires some { 1 ≤ n }
    requires word { factor n < 2 ^ 32 }
    ensures { OnOk result (parts_of out.new.items
        ≡ joined (parts_of out.old.items) (one (straight (specs.factor_code op rd ra n)))) }
{
    match op {
        SpBinary::Divide => push_signed(out, rd, ra, &factor_quotient_to(rd, reg(DIVIDEND), n)),
        SpBinary::DivideUnsigned => push_straight(out, &factor_quotient_to(rd, ra, n)),
        SpBinary::Remainder => push_signed(out, rd, ra, &factor_rest_to(rd, reg(DIVIDEND), n)),
        SpBinary::RemainderUnsigned => push_straight(out, &factor_rest_to(rd, ra, n)),
        _ => unreachable!(),
    }
}
