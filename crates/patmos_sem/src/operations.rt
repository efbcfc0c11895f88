ghost use Rattle.std.specs.Prelude.{◌≡◌, ◌+◌, ◌*◌, ◌%◌, ◌^◌, ◌<◌};
ghost use Rattle.patmos_sem.specs.Operations.{alu_of, alu_value, has_bit, compare_value, pred_value};

use patmos_instr::{AluFunc, CmpFunc, ImmFunc, PredFunc};
use tc_word::{less, shift_left, shift_right, shift_right_arith};

// an operation with an immediate is the operation on two words of that name
fn wide(func: ImmFunc) -> AluFunc
    ensures { result ≡ alu_of func }
{
    match func {
        ImmFunc::Add => AluFunc::Add,
        ImmFunc::Sub => AluFunc::Sub,
        ImmFunc::Xor => AluFunc::Xor,
        ImmFunc::Sl => AluFunc::Sl,
        ImmFunc::Sr => AluFunc::Sr,
        ImmFunc::Sra => AluFunc::Sra,
        ImmFunc::Or => AluFunc::Or,
        ImmFunc::And => AluFunc::And,
    }
}

// an operation on two words
#[inline(always)]
pub fn operate(func: AluFunc, a: u32, b: u32) -> u32
    ensures { result ≡ alu_value func a b }
{
    match func {
        AluFunc::Add => a.wrapping_add(b),
        AluFunc::Sub => a.wrapping_sub(b),
        AluFunc::Xor => a ^ b,
        AluFunc::Sl => shift_left(a, b),
        AluFunc::Sr => shift_right(a, b),
        AluFunc::Sra => shift_right_arith(a, b),
        AluFunc::Or => a | b,
        AluFunc::And => a & b,
        AluFunc::Nor => !(a | b),
        AluFunc::Shadd => scaled(2, a, b),
        AluFunc::Shadd2 => scaled(4, a, b),
    }
}

// an operation on a word and an immediate
#[inline(always)]
pub fn operate_short(func: ImmFunc, a: u32, imm: u32) -> u32
    ensures { result ≡ alu_value (alu_of func) a imm }
{
    operate(wide(func), a, imm)
}

// a multiple of a word plus another, modulo 2^32
pub fn scaled(times: u32, a: u32, b: u32) -> u32
    ensures { result ≡ (times * a + b) % 2 ^ 32 }
{
    times.wrapping_mul(a).wrapping_add(b)
}

// whether bit k of a word is 1
pub fn bit(word: u32, k: u32) -> bool
    requires { k < 32 }
    ensures { result ≡ has_bit word k }
{
    (word >> k) % 2 == 1
}

// a compare of two words
#[inline(always)]
pub fn compare(func: CmpFunc, a: u32, b: u32) -> bool
    ensures { result ≡ compare_value func a b }
{
    match func {
        CmpFunc::Eq => a == b,
        CmpFunc::Neq => a != b,
        CmpFunc::Lt => less(a, b),
        CmpFunc::Le => !less(b, a),
        CmpFunc::Ult => a < b,
        CmpFunc::Ule => a <= b,
        CmpFunc::Btest => bit(a, b % 32),
    }
}

// a combination of two predicates
pub fn combine(func: PredFunc, a: bool, b: bool) -> bool
    ensures { result ≡ pred_value func a b }
{
    match func {
        PredFunc::Por => a || b,
        PredFunc::Pand => a && b,
        PredFunc::Pxor => a ^ b,
    }
}
