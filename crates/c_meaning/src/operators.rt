//! Operators of resolved expressions.
ghost use Rattle.std.specs.Prelude.{◌≡◌, if◌then◌else◌, IfOk};
ghost use Rattle.sp_tree.specs.Plain.{plain_sp};
ghost use Rattle.c_meaning.specs.Operators as operators;
ghost use Rattle.c_meaning.specs.Resolve as resolve;

use c_tree::{BinaryOp, UnaryOp};
use sp_tree::{SpBinary, SpExpr, SpUnary, before_operand, between_operands};
use std::alloc::Global;
use tc_word::OutOfMemory;

fn signed(alloc: Global, op: UnaryOp, of: SpExpr) -> Result<SpExpr, OutOfMemory>
    ensures { IfOk result (λ e. plain_sp e ≡ resolve.resolved_sign op (plain_sp of)) }
{
    match op {
        UnaryOp::Minus => before_operand(alloc, SpUnary::Minus, of),
        UnaryOp::Complement => before_operand(alloc, SpUnary::Complement, of),
        UnaryOp::Not => before_operand(alloc, SpUnary::Not, of),
        UnaryOp::Plus => Ok(of),
    }
}

/// Several operators before an operand, the outermost first.
pub fn signs(alloc: Global, ops: &[UnaryOp], of: SpExpr) -> Result<SpExpr, OutOfMemory>
    ensures { IfOk result (λ e. plain_sp e ≡ resolve.resolved_signs ops.now (plain_sp of)) }
{
    match ops {
        [] => Ok(of),
        [op, rest @ ..] => {
            let inner = signs(alloc, rest, of)?;
            signed(alloc, *op, inner)
        }
    }
}

/// Whether an operand after these operators is unsigned.
pub fn signs_unsigned(ops: &[UnaryOp], unsigned: bool) -> bool
    ensures { result ≡ operators.signs_unsigned ops.now unsigned }
{
    match ops {
        [] => unsigned,
        [op, rest @ ..] => sign_unsigned(*op, signs_unsigned(rest, unsigned)),
    }
}

fn sign_unsigned(op: UnaryOp, unsigned: bool) -> bool
    ensures { result ≡ operators.sign_unsigned op unsigned }
{
    match op {
        UnaryOp::Not => false,
        UnaryOp::Minus | UnaryOp::Complement | UnaryOp::Plus => unsigned,
    }
}

/// Whether an operator works in unsigned.
pub fn works_unsigned(op: BinaryOp, first: bool, second: bool) -> bool
    ensures { result ≡ operators.works_unsigned op first second }
{
    match op {
        BinaryOp::ShiftLeft | BinaryOp::ShiftRight => first,
        _ => first || second,
    }
}

fn is_truth(op: BinaryOp) -> bool
    ensures { result ≡ operators.is_truth op }
{
    match op {
        BinaryOp::Or
        | BinaryOp::And
        | BinaryOp::Equal
        | BinaryOp::NotEqual
        | BinaryOp::Less
        | BinaryOp::Greater
        | BinaryOp::LessEqual
        | BinaryOp::GreaterEqual => true,
        _ => false,
    }
}

/// Whether what an operator gives is unsigned.
pub fn gives_unsigned(op: BinaryOp, first: bool, second: bool) -> bool
    ensures { result ≡ operators.gives_unsigned op first second }
{
    !is_truth(op) && works_unsigned(op, first, second)
}

// one of two operators
fn of_type(unsigned: bool, signed: SpBinary, other: SpBinary) -> SpBinary
    ensures { result ≡ (if unsigned then other else signed) }
{
    if unsigned { other } else { signed }
}

fn operator_of(op: BinaryOp, unsigned: bool) -> SpBinary
    ensures { result ≡ resolve.operator_of op unsigned }
{
    match op {
        BinaryOp::Or => SpBinary::Or,
        BinaryOp::And => SpBinary::And,
        BinaryOp::BitOr => SpBinary::BitOr,
        BinaryOp::BitXor => SpBinary::BitXor,
        BinaryOp::BitAnd => SpBinary::BitAnd,
        BinaryOp::Equal => SpBinary::Equal,
        BinaryOp::NotEqual => SpBinary::NotEqual,
        BinaryOp::Less => of_type(unsigned, SpBinary::Less, SpBinary::LessUnsigned),
        BinaryOp::Greater => of_type(unsigned, SpBinary::Less, SpBinary::LessUnsigned),
        BinaryOp::LessEqual => of_type(unsigned, SpBinary::LessEqual, SpBinary::LessEqualUnsigned),
        BinaryOp::GreaterEqual => of_type(
            unsigned,
            SpBinary::LessEqual,
            SpBinary::LessEqualUnsigned,
        ),
        BinaryOp::ShiftLeft => SpBinary::ShiftLeft,
        BinaryOp::ShiftRight => of_type(
            unsigned,
            SpBinary::ShiftRight,
            SpBinary::ShiftRightUnsigned,
        ),
        BinaryOp::Plus => SpBinary::Plus,
        BinaryOp::Minus => SpBinary::Minus,
        BinaryOp::Times => SpBinary::Times,
        BinaryOp::Divide => of_type(unsigned, SpBinary::Divide, SpBinary::DivideUnsigned),
        BinaryOp::Remainder => of_type(unsigned, SpBinary::Remainder, SpBinary::RemainderUnsigned),
    }
}

// `a > b` is `b < a`
fn is_exchanged(op: BinaryOp) -> bool
    ensures { result ≡ resolve.is_exchanged op }
{
    matches!(op, BinaryOp::Greater | BinaryOp::GreaterEqual)
}

/// An operator between operands that works in unsigned or not.
pub fn between(
    alloc: Global,
    op: BinaryOp,
    unsigned: bool,
    a: SpExpr,
    b: SpExpr,
) -> Result<SpExpr, OutOfMemory>
    ensures { IfOk result (λ e. plain_sp e ≡ resolve.resolved_between op unsigned (plain_sp a) (plain_sp b)) }
{
    let operator = operator_of(op, unsigned);
    if is_exchanged(op) {
        between_operands(alloc, operator, b, a)
    } else {
        between_operands(alloc, operator, a, b)
    }
}
