//! Bundles of one instruction.
ghost use Rattle.std.specs.Prelude.{◌≡◌, ◌<◌};
ghost use Rattle.patmos_instr.specs.declared.functions.AluFunc.TheVariants as alu;
ghost use Rattle.patmos_instr.specs.declared.instructions.Op.TheVariants.{AluImm, AluLong};
ghost use Rattle.sp_emit.specs.Instructions as code;

use patmos_instr::{
    Addr22, AluFunc, Bundle, CmpFunc, Guard, Imm5, Imm7, Imm12, ImmFunc, Instr, Mem, Off22, Op,
    Pred, PredFunc, Reg, Special, StackFunc, StoreWidth, Width, WritableSpecial,
};

/// The guard that is always true.
pub fn always() -> Guard
    ensures { result ≡ code.always }
{
    Guard {
        negated: false,
        pred: Pred::low(0),
    }
}

/// The guard that is true where a predicate is.
pub fn where_so(pred: Pred) -> Guard
    ensures { result ≡ code.where_so pred }
{
    Guard {
        negated: false,
        pred,
    }
}

/// The guard that is true where a predicate is not.
pub fn where_not(pred: Pred) -> Guard
    ensures { result ≡ code.where_not pred }
{
    Guard {
        negated: true,
        pred,
    }
}

/// One instruction under a guard.
pub fn under(guard: Guard, op: Op) -> Bundle
    ensures { result ≡ code.under guard op }
{
    Bundle::single(Instr { guard, op })
}

pub fn idle() -> Bundle
    ensures { result ≡ code.idle }
{
    Bundle::single(Instr::nop())
}

fn long_op(rd: Reg, n: u32) -> Op
    ensures { result ≡ AluLong alu.Add rd 0 n }
{
    Op::AluLong {
        func: AluFunc::Add,
        rd,
        ra: Reg::low(0),
        constant: n,
    }
}

pub fn set_long(rd: Reg, n: u32) -> Bundle
    ensures { result ≡ code.set_long rd n }
{
    under(always(), long_op(rd, n))
}

/// An operation on a register and a number that the instruction holds.
pub fn short_op(func: ImmFunc, rd: Reg, ra: Reg, n: u32) -> Op
    requires { n < 4096 }
    ensures { result ≡ AluImm func rd ra n }
{
    Op::AluImm {
        func,
        rd,
        ra,
        imm: Imm12::low(n),
    }
}

/// A register gets a number, in one word where an instruction holds it.
#[tactic(auto, unfolding(crate::specs::Instructions::number_op))]
pub fn number_op(rd: Reg, n: u32) -> Op
    ensures { result ≡ code.number_op rd n }
{
    if n < 4096 {
        short_op(ImmFunc::Add, rd, Reg::low(0), n)
    } else {
        long_op(rd, n)
    }
}

pub fn set_number(rd: Reg, n: u32) -> Bundle
    ensures { result ≡ code.set_number rd n }
{
    under(always(), number_op(rd, n))
}

pub fn with_short(guard: Guard, func: ImmFunc, rd: Reg, ra: Reg, n: u32) -> Bundle
    requires { n < 4096 }
    ensures { result ≡ code.with_short guard func rd ra n }
{
    under(guard, short_op(func, rd, ra, n))
}

pub fn set_short(guard: Guard, rd: Reg, n: u32) -> Bundle
    requires { n < 4096 }
    ensures { result ≡ code.set_short guard rd n }
{
    with_short(guard, ImmFunc::Add, rd, Reg::low(0), n)
}

pub fn copy(rd: Reg, ra: Reg) -> Bundle
    ensures { result ≡ code.copy rd ra }
{
    with_short(always(), ImmFunc::Add, rd, ra, 0)
}

pub fn compute(guard: Guard, func: AluFunc, rd: Reg, ra: Reg, rb: Reg) -> Bundle
    ensures { result ≡ code.compute guard func rd ra rb }
{
    under(guard, Op::AluReg { func, rd, ra, rb })
}

pub fn compare(func: CmpFunc, pd: Pred, ra: Reg, rb: Reg) -> Bundle
    ensures { result ≡ code.compare func pd ra rb }
{
    under(always(), Op::Cmp { func, pd, ra, rb })
}

pub fn compare_short(func: CmpFunc, pd: Pred, ra: Reg, n: u32) -> Bundle
    requires { n < 32 }
    ensures { result ≡ code.compare_short func pd ra n }
{
    let op = Op::CmpImm {
        func,
        pd,
        ra,
        imm: Imm5::low(n),
    };
    under(always(), op)
}

pub fn combine(func: PredFunc, pd: Pred, a: Pred, b: Pred) -> Bundle
    ensures { result ≡ code.combine func pd a b }
{
    let op = Op::Comb {
        func,
        pd,
        a: where_so(a),
        b: where_so(b),
    };
    under(always(), op)
}

pub fn multiply(ra: Reg, rb: Reg) -> Bundle
    ensures { result ≡ code.multiply ra rb }
{
    let op = Op::Mul {
        unsigned: false,
        ra,
        rb,
    };
    under(always(), op)
}

pub fn multiply_unsigned(ra: Reg, rb: Reg) -> Bundle
    ensures { result ≡ code.multiply_unsigned ra rb }
{
    let op = Op::Mul {
        unsigned: true,
        ra,
        rb,
    };
    under(always(), op)
}

pub fn from_special(rd: Reg, special: Special) -> Bundle
    ensures { result ≡ code.from_special rd special }
{
    under(always(), Op::FromSpecial { rd, special })
}

pub fn to_special(special: WritableSpecial, ra: Reg) -> Bundle
    ensures { result ≡ code.to_special special ra }
{
    under(always(), Op::ToSpecial { special, ra })
}

pub fn stack_op(func: StackFunc, count: u32) -> Bundle
    requires { count < 4096 }
    ensures { result ≡ code.stack_op func count }
{
    let op = Op::Stack {
        func,
        count: Imm12::low(count),
    };
    under(always(), op)
}

pub fn load_from(space: Mem, rd: Reg, ra: Reg, words: u32) -> Bundle
    requires { words < 128 }
    ensures { result ≡ code.load_from space rd ra words }
{
    let op = Op::Load {
        space,
        width: Width::Word,
        rd,
        ra,
        imm: Imm7::low(words),
    };
    under(always(), op)
}

pub fn load_slot(rd: Reg, slot: u32) -> Bundle
    requires { slot < 128 }
    ensures { result ≡ code.load_slot rd slot }
{
    let op = Op::Load {
        space: Mem::S,
        width: Width::Word,
        rd,
        ra: Reg::low(0),
        imm: Imm7::low(slot),
    };
    under(always(), op)
}

pub fn store_to(guard: Guard, space: Mem, ra: Reg, rs: Reg, words: u32) -> Bundle
    requires { words < 128 }
    ensures { result ≡ code.store_to guard space ra rs words }
{
    let op = Op::Store {
        space,
        width: StoreWidth::Word,
        ra,
        rs,
        imm: Imm7::low(words),
    };
    under(guard, op)
}

pub fn store_slot(guard: Guard, slot: u32, rs: Reg) -> Bundle
    requires { slot < 128 }
    ensures { result ≡ code.store_slot guard slot rs }
{
    store_to(guard, Mem::S, Reg::low(0), rs, slot)
}

pub fn branch(pred: Pred) -> Bundle
    ensures { result ≡ code.branch pred }
{
    let op = Op::Branch {
        offset: Off22::low(0),
    };
    under(where_so(pred), op)
}

pub fn call() -> Bundle
    ensures { result ≡ code.call }
{
    let op = Op::Call {
        target: Addr22::low(0),
    };
    under(always(), op)
}

pub fn returning() -> Bundle
    ensures { result ≡ code.return }
{
    under(always(), Op::Return)
}
