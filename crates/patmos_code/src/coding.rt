ghost use Rattle.std.specs.Prelude.{◌≡◌, ◌+◌, ◌^◌, ◌<◌, true, IsFalse};
ghost use Rattle.patmos_instr.specs.Bundles.{FitsBundle};
ghost use Rattle.patmos_code.specs.Codes.{op_code, instr_code, code, StandFor};
ghost use Rattle.patmos_code.specs.Coded.{coded_words};

use patmos_instr::{Bundle, Instr, Op};

/// The code of a bundle, in words of 32 bits.
#[derive(Clone, Copy, Debug, PartialEq, Eq)]
pub struct Coded {
    /// The first word. Bit 31 is set where there are two.
    pub first: u32,
    /// The second word, or 0 where there is none.
    pub second: u32,
    /// Whether there are two words.
    pub two: bool,
}

// the low 27 bits of an operation's word
fn op_number(op: &Op) -> u32
    ensures value { result ≡ op_code op.now }
    ensures small { result < 2 ^ 27 }
{
    match *op {
        Op::AluImm { func, rd, ra, imm } => {
            (func.number() << 22) + (rd.number() << 17) + (ra.number() << 12) + imm.number()
        }
        Op::AluReg { func, rd, ra, rb } => {
            (8 << 22)
                + (rd.number() << 17)
                + (ra.number() << 12)
                + (rb.number() << 7)
                + func.number()
        }
        Op::Mul { unsigned, ra, rb } => {
            (9 << 22) + (ra.number() << 12) + (rb.number() << 7) + u32::from(unsigned)
        }
        Op::Cmp { func, pd, ra, rb } => {
            (10 << 22)
                + (pd.number() << 17)
                + (ra.number() << 12)
                + (rb.number() << 7)
                + func.number()
        }
        Op::CmpImm { func, pd, ra, imm } => {
            (11 << 22)
                + (pd.number() << 17)
                + (ra.number() << 12)
                + (imm.number() << 7)
                + func.number()
        }
        Op::Comb { func, pd, a, b } => {
            (12 << 22)
                + (pd.number() << 17)
                + (a.number() << 13)
                + (b.number() << 9)
                + func.number()
        }
        Op::ToSpecial { special, ra } => (13 << 22) + (ra.number() << 12) + special.number(),
        Op::FromSpecial { rd, special } => (14 << 22) + (rd.number() << 17) + special.number(),
        Op::Stack { func, count } => (15 << 22) + (func.number() << 18) + count.number(),
        Op::Load {
            space,
            width,
            rd,
            ra,
            imm,
        } => {
            (16 << 22)
                + (rd.number() << 17)
                + (ra.number() << 12)
                + ((space.number() + 4 * width.number()) << 7)
                + imm.number()
        }
        Op::Store {
            space,
            width,
            ra,
            rs,
            imm,
        } => {
            (17 << 22)
                + ((space.number() + 4 * width.number()) << 17)
                + (ra.number() << 12)
                + (rs.number() << 7)
                + imm.number()
        }
        Op::Branch { offset } => (18 << 22) + offset.bits(),
        Op::Call { target } => (19 << 22) + target.number(),
        Op::BranchFill { target } => (20 << 22) + target.number(),
        Op::Return => 21 << 22,
        Op::AluLong { func, rd, ra, .. } => {
            (22 << 22) + (rd.number() << 17) + (ra.number() << 12) + func.number()
        }
    }
}

/// The low 31 bits of an instruction's word.
pub(crate) fn instr_number(instr: &Instr) -> u32
    ensures value { result ≡ instr_code instr.now }
    ensures small { result < 2 ^ 31 }
{
    (instr.guard.number() << 27) + op_number(&instr.op)
}

/// The code of a bundle; `second` is 0 where one word suffices.
#[tactic(auto, unfolding(crate::specs::Codes::code))]
pub fn encode(bundle: &Bundle) -> Coded
    ensures code { coded_words result ≡ code bundle.now }
    ensures spare { IsFalse result.two → result.second ≡ 0 }
    ensures stand { StandFor result.first result.second bundle.now }
    ensures fits { FitsBundle bundle.now }
{
    let first = bundle.first();
    let word = instr_number(&first);
    if let Some(second) = bundle.second() {
        return both(word, instr_number(&second));
    }
    match first.op {
        Op::AluLong { constant, .. } => both(word, constant),
        _ => Coded {
            first: word,
            second: 0,
            two: false,
        },
    }
}

// the code of two words, with the mark in the first
fn both(first: u32, second: u32) -> Coded
    requires { first < 2 ^ 31 }
    ensures { result ≡ record { first = 2 ^ 31 + first; second = second; two = true } }
{
    Coded {
        first: (1 << 31) + first,
        second,
        two: true,
    }
}
