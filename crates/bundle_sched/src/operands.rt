//! What an instruction reads and writes.
ghost use Rattle.std.specs.Prelude.{◌≡◌, ◌&&◌, true, [], ◌∷◌};
ghost use Rattle.bundle_sched.specs.Operands as operands;
ghost use Rattle.bundle_sched.specs.Packed as specs;

use patmos_instr::{Instr, Op, Pred, Reg, Special, WritableSpecial};

// whether an operation leaves a register
fn lacks(op: &Op, register: Reg) -> bool
    ensures { result ≡ operands.lacks (operands.results op.now) register }
{
    match *op {
        Op::AluImm { rd, .. }
        | Op::AluReg { rd, .. }
        | Op::AluLong { rd, .. }
        | Op::FromSpecial { rd, .. }
        | Op::Load { rd, .. } => rd.number() != register.number(),
        _ => true,
    }
}

/// Whether an operation leaves a predicate.
pub fn lacks_pred(op: &Op, pred: Pred) -> bool
    ensures { result ≡ operands.spares op.now (pred ∷ []) }
{
    match *op {
        Op::Cmp { pd, .. } | Op::CmpImm { pd, .. } | Op::Comb { pd, .. } => {
            pd.number() != pred.number()
        }
        Op::ToSpecial {
            special: WritableSpecial::S0,
            ..
        } => false,
        _ => true,
    }
}

// whether an operation leaves one register, or two
#[tactic(auto, using(crate::proofs::OneByOne::apart_one))]
fn leaves_one(op: &Op, a: Reg) -> bool
    ensures { result ≡ operands.apart (operands.results op.now) (a ∷ []) }
{
    lacks(op, a)
}

#[tactic(auto, using(crate::proofs::OneByOne::apart_two))]
fn leaves_two(op: &Op, a: Reg, b: Reg) -> bool
    ensures { result ≡ operands.apart (operands.results op.now) (a ∷ b ∷ []) }
{
    lacks(op, a) && lacks(op, b)
}

/// Whether one operation leaves the registers that the other reads.
pub fn leaves_read(a: &Op, b: &Op) -> bool
    ensures { result ≡ operands.apart (operands.results a.now) (operands.reads b.now) }
{
    match *b {
        Op::AluImm { ra, .. }
        | Op::AluLong { ra, .. }
        | Op::CmpImm { ra, .. }
        | Op::ToSpecial { ra, .. }
        | Op::Load { ra, .. } => leaves_one(a, ra),
        Op::AluReg { ra, rb, .. } | Op::Mul { ra, rb, .. } | Op::Cmp { ra, rb, .. } => {
            leaves_two(a, ra, rb)
        }
        Op::Store { ra, rs, .. } => leaves_two(a, ra, rs),
        _ => true,
    }
}

// whether it leaves three predicates
#[tactic(auto, using(crate::proofs::OneByOne::spares_three))]
fn spares_three(op: &Op, a: Pred, b: Pred, c: Pred) -> bool
    ensures { result ≡ operands.spares op.now (a ∷ b ∷ c ∷ []) }
{
    lacks_pred(op, a) && (lacks_pred(op, b) && lacks_pred(op, c))
}

// whether it does not write s0
fn is_no_s0(op: &Op) -> bool
    ensures { result ≡ operands.spares op.now [] }
{
    !matches!(
        op,
        Op::ToSpecial {
            special: WritableSpecial::S0,
            ..
        }
    )
}

// whether it leaves all eight predicates
#[tactic(auto, using(crate::proofs::OneByOne::one_of_all))]
fn leaves_all_preds(op: &Op) -> bool
    ensures { result ≡ operands.spares op.now operands.all_preds }
{
    match *op {
        Op::Cmp { pd, .. } | Op::CmpImm { pd, .. } | Op::Comb { pd, .. } => pd.number() > 7,
        _ => is_no_s0(op),
    }
}

// whether one operation leaves a predicate and those that the other reads
#[tactic(auto, using(crate::proofs::OneByOne::spares_all))]
fn leaves_tested(a: &Op, on: Pred, b: &Op) -> bool
    ensures { result ≡ operands.spares a.now (on ∷ operands.op_tests b.now) }
{
    match *b {
        Op::Comb { a: x, b: y, .. } => spares_three(a, on, x.pred, y.pred),
        Op::FromSpecial {
            special: Special::S0,
            ..
        } => lacks_pred(a, on) && leaves_all_preds(a),
        _ => lacks_pred(a, on),
    }
}

// whether one operation leaves the register that the other writes
fn leaves_written(a: &Op, b: &Op) -> bool
    ensures { result ≡ operands.apart (operands.results a.now) (operands.results b.now) }
{
    match *b {
        Op::AluImm { rd, .. }
        | Op::AluReg { rd, .. }
        | Op::AluLong { rd, .. }
        | Op::FromSpecial { rd, .. }
        | Op::Load { rd, .. } => leaves_one(a, rd),
        _ => true,
    }
}

// whether one operation leaves the predicates that the other writes
fn leaves_flags(a: &Op, b: &Op) -> bool
    ensures { result ≡ operands.spares a.now (operands.flags b.now) }
{
    match *b {
        Op::Cmp { pd, .. } | Op::CmpImm { pd, .. } | Op::Comb { pd, .. } => lacks_pred(a, pd),
        Op::ToSpecial {
            special: WritableSpecial::S0,
            ..
        } => leaves_all_preds(a),
        _ => is_no_s0(a),
    }
}

/// Whether the second instruction neither reads nor writes what the first writes, its guard among it.
pub fn is_free(a: &Instr, b: &Instr) -> bool
    ensures { result ≡ specs.is_free a.now b.now }
{
    leaves_read(&a.op, &b.op)
        && (leaves_tested(&a.op, b.guard.pred, &b.op)
            && (leaves_written(&a.op, &b.op) && leaves_flags(&a.op, &b.op)))
}
