ghost use Rattle.std.specs.Prelude.{◌≡◌, ◌^◌, ◌<◌};
ghost use Rattle.patmos_instr.specs.Instructions.{is_long, is_second_kind, FitsOp, FitsInstr, nop};

use crate::functions::{AluFunc, CmpFunc, ImmFunc, PredFunc, StackFunc};
use crate::guards::Guard;
use crate::immediates::{Imm5, Imm7, Imm12};
use crate::memories::{Mem, StoreWidth, Width};
use crate::registers::{Pred, Reg};
use crate::specials::{Special, WritableSpecial};
use crate::targets::{Addr22, Off22};

/// What an instruction does where its guard is true. `rd` and `pd` are written; `ra`, `rb`, `rs`, `a`
/// and `b` are read.
#[derive(Clone, Copy, Debug, PartialEq, Eq)]
pub enum Op {
    /// A register and an immediate give a register.
    AluImm {
        func: ImmFunc,
        rd: Reg,
        ra: Reg,
        imm: Imm12,
    },
    /// Two registers give a register.
    AluReg {
        func: AluFunc,
        rd: Reg,
        ra: Reg,
        rb: Reg,
    },
    /// A register and a whole word give a register. The bundle has the word in its second place.
    AluLong {
        func: AluFunc,
        rd: Reg,
        ra: Reg,
        constant: u32,
    },
    /// The product of two registers, signed or unsigned, comes to `sl` and `sh`.
    Mul {
        unsigned: bool,
        ra: Reg,
        rb: Reg,
    },
    /// A compare of two registers gives a predicate.
    Cmp {
        func: CmpFunc,
        pd: Pred,
        ra: Reg,
        rb: Reg,
    },
    /// A compare of a register and an immediate gives a predicate.
    CmpImm {
        func: CmpFunc,
        pd: Pred,
        ra: Reg,
        imm: Imm5,
    },
    /// Two predicates or their negations give a predicate.
    Comb {
        func: PredFunc,
        pd: Pred,
        a: Guard,
        b: Guard,
    },
    /// A special register gets a register's word.
    ToSpecial {
        special: WritableSpecial,
        ra: Reg,
    },
    /// A register gets a special register's word.
    FromSpecial {
        rd: Reg,
        special: Special,
    },
    /// The stack cache reserves, ensures or frees some words.
    Stack {
        func: StackFunc,
        count: Imm12,
    },
    /// A register gets what stands in memory at `ra` plus the immediate in units of the width.
    Load {
        space: Mem,
        width: Width,
        rd: Reg,
        ra: Reg,
        imm: Imm7,
    },
    /// Memory gets a register's word or its low part, at `ra` plus the immediate in units of the width.
    Store {
        space: Mem,
        width: StoreWidth,
        ra: Reg,
        rs: Reg,
        imm: Imm7,
    },
    /// A jump inside the function.
    Branch {
        offset: Off22,
    },
    /// A call of the function that begins at the target.
    Call {
        target: Addr22,
    },
    /// A jump to the function that begins at the target.
    BranchFill {
        target: Addr22,
    },
    /// The way back from a call.
    Return,
}

impl Op {
    /// Whether it is a long immediate operation, which fills a bundle by itself.
    pub fn is_long(&self) -> bool
        ensures { result ≡ is_long self.now }
    {
        matches!(self, Op::AluLong { .. })
    }

    /// Whether it is of a kind that a bundle's second slot takes: an operation on registers or with a
    /// short immediate, a compare, or a combination of predicates.
    pub fn is_second_kind(&self) -> bool
        ensures { result ≡ is_second_kind self.now }
    {
        matches!(
            self,
            Op::AluImm { .. }
                | Op::AluReg { .. }
                | Op::Cmp { .. }
                | Op::CmpImm { .. }
                | Op::Comb { .. }
        )
    }

    // tells contracts that each field is in its range
    fn show_range(&self)
        ensures { FitsOp self.now }
    {
        match *self {
            Op::AluImm { rd, ra, imm, .. } => {
                let _ = (rd.number(), ra.number(), imm.number());
            }
            Op::AluReg { rd, ra, rb, .. } => {
                let _ = (rd.number(), ra.number(), rb.number());
            }
            Op::AluLong {
                rd,
                ra,
                constant,
                ..
            } => {
                let _ = (rd.number(), ra.number(), word(constant));
            }
            Op::Mul { ra, rb, .. } => {
                let _ = (ra.number(), rb.number());
            }
            Op::Cmp { pd, ra, rb, .. } => {
                let _ = (pd.number(), ra.number(), rb.number());
            }
            Op::CmpImm { pd, ra, imm, .. } => {
                let _ = (pd.number(), ra.number(), imm.number());
            }
            Op::Comb { pd, a, b, .. } => {
                let _ = (pd.number(), a.pred.number(), b.pred.number());
            }
            Op::ToSpecial { ra, .. } => {
                let _ = ra.number();
            }
            Op::FromSpecial { rd, .. } => {
                let _ = rd.number();
            }
            Op::Stack { count, .. } => {
                let _ = count.number();
            }
            Op::Load { rd, ra, imm, .. } => {
                let _ = (rd.number(), ra.number(), imm.number());
            }
            Op::Store { ra, rs, imm, .. } => {
                let _ = (ra.number(), rs.number(), imm.number());
            }
            Op::Branch { offset } => {
                let _ = offset.number();
            }
            Op::Call { target } => {
                let _ = target.number();
            }
            Op::BranchFill { target } => {
                let _ = target.number();
            }
            Op::Return => {}
        }
    }
}

// a word, with its range
fn word(constant: u32) -> u32
    ensures value { result ≡ constant }
    ensures range { result < 2 ^ 32 }
{
    constant
}

/// An instruction: an operation under a guard.
#[derive(Clone, Copy, Debug, PartialEq, Eq)]
pub struct Instr {
    /// Where this is false, the instruction has no effect.
    pub guard: Guard,
    /// What it does.
    pub op: Op,
}

impl Instr {
    /// The instruction that does nothing: `(p0) addi r0 = r0, 0`.
    pub fn nop() -> Instr
        ensures { result ≡ nop }
    {
        Instr {
            guard: Guard::low(0),
            op: Op::AluImm {
                func: ImmFunc::Add,
                rd: Reg::low(0),
                ra: Reg::low(0),
                imm: Imm12::low(0),
            },
        }
    }

    /// Shows contracts that each field is in its range. The types of the fields keep their ranges, but a clause learns
    /// of it from a call on each field alone; this one makes them all. At run time it does nothing.
    pub fn show_range(&self)
        ensures { FitsInstr self.now }
    {
        let _ = self.guard.pred.number();
        self.op.show_range();
    }
}
