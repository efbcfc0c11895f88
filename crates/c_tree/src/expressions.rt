use tc_word::{List, Text};

/// An expression.
#[derive(Debug, Drop)]
#[cycle(expression)]
pub enum Expr {
    /// Operands with operators of one level between them, 1 (`||`) to 10 (`*`, `/`, `%`).
    Chain {
        level: u8,
        first: Box<Expr>,
        rest: List<Step>,
    },
    /// One or more signs before a primary expression, the outermost first.
    Unary {
        ops: List<UnaryOp>,
        of: Box<Expr>,
    },
    /// A number.
    Number {
        value: u32,
        unsigned: bool,
    },
    /// A variable, or an array's name without an index.
    Name {
        name: Text,
    },
    /// An element of an array.
    Element {
        name: Text,
        index: Box<Expr>,
    },
    /// An expression in parentheses.
    Paren {
        inner: Box<Expr>,
    },
}

/// One more operand of a chain, after its operator.
#[derive(Debug, Drop)]
#[cycle(expression)]
pub struct Step {
    pub op: BinaryOp,
    pub operand: Expr,
}

/// A sign before an operand.
#[derive(Clone, Copy, Debug, PartialEq, Eq)]
pub enum UnaryOp {
    Minus,
    Complement,
    Not,
    Plus,
}

/// An operator between operands.
#[derive(Clone, Copy, Debug, PartialEq, Eq)]
pub enum BinaryOp {
    Or,
    And,
    BitOr,
    BitXor,
    BitAnd,
    Equal,
    NotEqual,
    Less,
    Greater,
    LessEqual,
    GreaterEqual,
    ShiftLeft,
    ShiftRight,
    Plus,
    Minus,
    Times,
    Divide,
    Remainder,
}
