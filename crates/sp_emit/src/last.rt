//! Expressions whose code ends in one instruction, which has no predicate of its own.
ghost use Rattle.std.specs.Prelude.{◌≡◌, ◌<◌};
ghost use Rattle.sp_emit.specs.Endings as specs;
ghost use Rattle.sp_emit.specs.Expressions.{immediate_below};
ghost use Rattle.sp_emit.specs.Fits.{ExprFits};
ghost use Rattle.sp_emit.specs.Places.{flag_of};
ghost use Rattle.sp_tree.specs.Plain.{plain_sp, between_two};

use crate::expressions::{held_constant, is_second_first, value_at};
use crate::instructions::{number_op, short_op};
use crate::places::{flag_of, is_in_register};
use crate::registers::{reg, register_after};
use crate::stands::Homes;
use patmos_instr::{AluFunc, ImmFunc, Op, Reg};
use sp_tree::{SpBinary, SpExpr, SpUnary};

// the instruction that an operator on two registers is
fn alu_of(op: SpBinary) -> Option<AluFunc>
    ensures { result ≡ specs.alu_of op }
{
    match op {
        SpBinary::BitOr => Some(AluFunc::Or),
        SpBinary::BitXor => Some(AluFunc::Xor),
        SpBinary::BitAnd => Some(AluFunc::And),
        SpBinary::ShiftLeft => Some(AluFunc::Sl),
        SpBinary::ShiftRight => Some(AluFunc::Sra),
        SpBinary::ShiftRightUnsigned => Some(AluFunc::Sr),
        SpBinary::Plus => Some(AluFunc::Add),
        SpBinary::Minus => Some(AluFunc::Sub),
        _ => None,
    }
}

// and on a register and a number
fn imm_of(op: SpBinary) -> Option<ImmFunc>
    ensures { result ≡ specs.imm_of op }
{
    match op {
        SpBinary::BitOr => Some(ImmFunc::Or),
        SpBinary::BitXor => Some(ImmFunc::Xor),
        SpBinary::BitAnd => Some(ImmFunc::And),
        SpBinary::ShiftLeft => Some(ImmFunc::Sl),
        SpBinary::ShiftRight => Some(ImmFunc::Sra),
        SpBinary::ShiftRightUnsigned => Some(ImmFunc::Sr),
        SpBinary::Plus => Some(ImmFunc::Add),
        SpBinary::Minus => Some(ImmFunc::Sub),
        _ => None,
    }
}

fn unary_op(op: SpUnary, to: Reg, ra: Reg) -> Option<Op>
    ensures { result ≡ specs.unary_op op to ra }
{
    let (func, ra, rb) = match op {
        SpUnary::Minus => (AluFunc::Sub, reg(0), ra),
        SpUnary::Complement => (AluFunc::Nor, ra, reg(0)),
        SpUnary::Not => return None,
    };
    Some(Op::AluReg {
        func,
        rd: to,
        ra,
        rb,
    })
}

fn binary_op(op: SpBinary, to: Reg, ra: Reg, rb: Reg) -> Option<Op>
    ensures { result ≡ specs.binary_op op to ra rb }
{
    let func = alu_of(op)?;
    Some(Op::AluReg {
        func,
        rd: to,
        ra,
        rb,
    })
}

#[tactic(auto, using(crate::proofs::Lasts::imm_small))]
fn held_op(op: SpBinary, to: Reg, ra: Reg, n: u32) -> Option<Op>
    requires { n < immediate_below op }
    ensures { result ≡ specs.held_op op to ra n }
{
    let func = imm_of(op)?;
    Some(short_op(func, to, ra, n))
}

// of an operator on two expressions
#[tactic(auto, using(crate::proofs::Held::short_below, crate::proofs::Needs::few_needs, crate::proofs::Needs::first_fits, crate::proofs::Needs::second_fits, crate::proofs::Needs::one_after))]
fn operator_op(homes: Homes, op: SpBinary, a: &SpExpr, b: &SpExpr, rd: Reg, to: Reg) -> Option<Op>
    requires { ExprFits (between_two op (plain_sp a.now) (plain_sp b.now)) rd }
    ensures { result ≡ specs.last_op homes (between_two op (plain_sp a.now) (plain_sp b.now)) rd to }
{
    if let Some(n) = held_constant(op, b) {
        return held_op(op, to, value_at(homes, a, rd), n);
    }
    if is_second_first(a, b) {
        let (first, second) = (
            value_at(homes, a, register_after(rd)),
            value_at(homes, b, rd),
        );
        binary_op(op, to, first, second)
    } else {
        let (first, second) = (
            value_at(homes, a, rd),
            value_at(homes, b, register_after(rd)),
        );
        binary_op(op, to, first, second)
    }
}

// a word of the frame in a register
fn home_op(homes: Homes, slot: u32, to: Reg) -> Option<Op>
    ensures { result ≡ specs.home_op (flag_of homes.flags slot) homes.first slot to }
{
    if flag_of(homes.flags, slot).is_none() && is_in_register(homes.first, slot) {
        Some(short_op(ImmFunc::Add, to, reg(homes.first + slot), 0))
    } else {
        None
    }
}

/// The instruction in which the code of an expression ends, where its operands were worked out from a register on and
/// the value goes to another one: `None` where that is more than one, a load, or has a predicate.
#[tactic(auto, unfolding(sp_tree::specs::Plain::plain_sp))]
pub fn last_op(homes: Homes, e: &SpExpr, rd: Reg, to: Reg) -> Option<Op>
    requires { ExprFits (plain_sp e.now) rd }
    ensures { result ≡ specs.last_op homes (plain_sp e.now) rd to }
{
    match e {
        SpExpr::Const { value } => Some(number_op(to, *value)),
        SpExpr::Frame { slot } => home_op(homes, *slot, to),
        SpExpr::Unary { op, of } => unary_op(*op, to, value_at(homes, of, rd)),
        SpExpr::Binary { op, a, b } => operator_op(homes, *op, a, b, rd, to),
        SpExpr::Scalar { .. } | SpExpr::Element { .. } => None,
    }
}
