ghost use Rattle.std.specs.Prelude.{◌≡◌, ℕ, ◌^◌, ◌<◌, IfSome};
ghost use Rattle.patmos_instr.specs.Bundles.{PlainBundle, FitsBundle};
ghost use Rattle.patmos_code.specs.Codes.{code, StandFor, Decodes};
ghost use Rattle.patmos_code.specs.Decoding.{op_of, instr_at, bundle_at, five_bits};

use crate::coding::instr_number;
use patmos_instr::{
    Addr22, AluFunc, Bundle, CmpFunc, Guard, Imm5, Imm7, Imm12, ImmFunc, Instr, Mem, Off22, Op,
    Pred, PredFunc, Reg, Special, StackFunc, StoreWidth, Width, WritableSpecial,
};

// the operation with the fields of a word, its unnamed bits not looked at
fn op_at(word: u32, constant: u32) -> Option<Op>
    ensures fields { result ≡ op_of (five_bits 22 word) word constant }
{
    let rd = Reg::low(word >> 17);
    let pd = Pred::low(word >> 17);
    let ra = Reg::low(word >> 12);
    let rb = Reg::low(word >> 7);
    let opcode = (word >> 22) % 32;
    match opcode {
        0..=7 => Some(Op::AluImm {
            func: ImmFunc::of_number(opcode)?,
            rd,
            ra,
            imm: Imm12::low(word),
        }),
        8 => Some(Op::AluReg {
            func: AluFunc::of_number(word % 16)?,
            rd,
            ra,
            rb,
        }),
        9 => Some(Op::Mul {
            unsigned: word % 2 == 1,
            ra,
            rb,
        }),
        10 => Some(Op::Cmp {
            func: CmpFunc::of_number(word % 16)?,
            pd,
            ra,
            rb,
        }),
        11 => Some(Op::CmpImm {
            func: CmpFunc::of_number(word % 16)?,
            pd,
            ra,
            imm: Imm5::low(word >> 7),
        }),
        12 => Some(Op::Comb {
            func: PredFunc::of_number(word % 4)?,
            pd,
            a: Guard::low(word >> 13),
            b: Guard::low(word >> 9),
        }),
        13 => Some(Op::ToSpecial {
            special: WritableSpecial::of_number(word % 16)?,
            ra,
        }),
        14 => Some(Op::FromSpecial {
            rd,
            special: Special::of_number(word % 16)?,
        }),
        15 => Some(Op::Stack {
            func: StackFunc::of_number((word >> 18) % 4)?,
            count: Imm12::low(word),
        }),
        16 => Some(Op::Load {
            space: Mem::low(word >> 7),
            width: Width::of_number((word >> 9) % 8)?,
            rd,
            ra,
            imm: Imm7::low(word),
        }),
        17 => Some(Op::Store {
            space: Mem::low(word >> 17),
            width: StoreWidth::of_number((word >> 19) % 8)?,
            ra,
            rs: rb,
            imm: Imm7::low(word),
        }),
        18 => Some(Op::Branch {
            offset: Off22::low(word),
        }),
        19 => Some(Op::Call {
            target: Addr22::low(word),
        }),
        20 => Some(Op::BranchFill {
            target: Addr22::low(word),
        }),
        21 => Some(Op::Return),
        22 => Some(Op::AluLong {
            func: AluFunc::of_number(word % 16)?,
            rd,
            ra,
            constant,
        }),
        _ => None,
    }
}

// the instruction whose code is the word
fn instr_of(word: u32, constant: u32) -> Option<Instr>
    ensures accepted { result ≡ instr_at word constant }
{
    let instr = Instr {
        guard: Guard::low(word >> 27),
        op: op_at(word, constant)?,
    };
    if instr_number(&instr) == word {
        Some(instr)
    } else {
        None
    }
}

// the bundle of two words, by the computing definition
#[tactic(auto, unfolding(crate::specs::Decoding::bundle_at))]
fn bundle_of(first: u32, second: u32) -> Option<Bundle>
    ensures computed { result ≡ bundle_at first second }
{
    if first < 1 << 31 {
        let instr = instr_of(first, 0)?;
        return if instr.op.is_long() {
            None
        } else {
            Some(Bundle::single(instr))
        };
    }
    let instr = instr_of(first - (1 << 31), second)?;
    if instr.op.is_long() {
        return Some(Bundle::single(instr));
    }
    let other = instr_of(second, 0)?;
    match Bundle::pair(instr, other) {
        Ok(bundle) => Some(bundle),
        Err(_) => None,
    }
}

/// The bundle for which two words stand; None exactly where there is none. The second word is not looked
/// at where bit 31 of the first is 0.
#[tactic(auto, using(crate::proofs::Bundles::bundle_exact), unfolding(crate::specs::Decoding::bundle_at))]
pub fn decode(first: u32, second: u32) -> Option<Bundle>
    ensures exact { Decodes first second result }
    ensures computed { result ≡ bundle_at first second }
    ensures unread { first < 2 ^ 31 → (other : ℕ) → result ≡ bundle_at first other }
{
    bundle_of(first, second)
}
