//! The operators of expressions.
ghost use Rattle.std.specs.Prelude.{◌≡◌};

use tc_word::{
    divide, divide_unsigned, less, remainder, remainder_unsigned, shift_left, shift_right,
    shift_right_arith,
};

/// An operator before an operand.
#[derive(Clone, Copy, Debug, PartialEq, Eq)]
pub enum SpUnary {
    Minus,
    Complement,
    Not,
}

/// An operator between operands, which are signed where its name doesn't end in `Unsigned`.
#[derive(Clone, Copy, Debug, PartialEq, Eq)]
pub enum SpBinary {
    Or,
    And,
    BitOr,
    BitXor,
    BitAnd,
    Equal,
    NotEqual,
    Less,
    LessUnsigned,
    LessEqual,
    LessEqualUnsigned,
    ShiftLeft,
    ShiftRight,
    ShiftRightUnsigned,
    Plus,
    Minus,
    Times,
    Divide,
    DivideUnsigned,
    Remainder,
    RemainderUnsigned,
}

impl SpUnary {
    ghost use Rattle.sp_tree.specs.Operators.{unary_value};

    /// What the operator makes of a word.
    pub fn apply(self, a: u32) -> u32
        ensures { result ≡ unary_value self a }
    {
        match self {
            SpUnary::Minus => 0u32.wrapping_sub(a),
            SpUnary::Complement => !a,
            SpUnary::Not => u32::from(a == 0),
        }
    }
}

impl SpBinary {
    ghost use Rattle.sp_tree.specs.Operators.{binary_value};

    /// What the operator makes of two words.
    pub fn apply(self, a: u32, b: u32) -> u32
        ensures { result ≡ binary_value self a b }
    {
        match self {
            SpBinary::Or => u32::from(a != 0 || b != 0),
            SpBinary::And => u32::from(a != 0 && b != 0),
            SpBinary::BitOr => a | b,
            SpBinary::BitXor => a ^ b,
            SpBinary::BitAnd => a & b,
            SpBinary::Equal => u32::from(a == b),
            SpBinary::NotEqual => u32::from(a != b),
            SpBinary::Less => u32::from(less(a, b)),
            SpBinary::LessUnsigned => u32::from(a < b),
            SpBinary::LessEqual => u32::from(!less(b, a)),
            SpBinary::LessEqualUnsigned => u32::from(a <= b),
            SpBinary::ShiftLeft => shift_left(a, b),
            SpBinary::ShiftRight => shift_right_arith(a, b),
            SpBinary::ShiftRightUnsigned => shift_right(a, b),
            SpBinary::Plus => a.wrapping_add(b),
            SpBinary::Minus => a.wrapping_sub(b),
            SpBinary::Times => a.wrapping_mul(b),
            SpBinary::Divide => divide(a, b),
            SpBinary::DivideUnsigned => divide_unsigned(a, b),
            SpBinary::Remainder => remainder(a, b),
            SpBinary::RemainderUnsigned => remainder_unsigned(a, b),
        }
    }
}
