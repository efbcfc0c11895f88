use crate::expressions::Expr;
use tc_word::{List, Text};

/// The type of a number, as it is written.
#[derive(Clone, Copy, Debug, PartialEq, Eq)]
pub enum Kind {
    Int,
    Unsigned,
    UnsignedInt,
}

/// What is assigned: an expression, or what a function gives.
#[derive(Debug, Drop)]
pub enum Right {
    Value { of: Expr },
    Call { name: Text, args: List<Expr> },
}

/// A statement.
#[derive(Debug, Drop)]
#[cycle(statement)]
pub enum Stmt {
    /// A variable of the block, and what it has first, if that is written.
    Declare {
        kind: Kind,
        name: Text,
        right: Option<Right>,
    },
    /// A variable is set.
    Set {
        name: Text,
        right: Right,
    },
    /// An element of an array is set.
    SetElement {
        name: Text,
        index: Expr,
        right: Right,
    },
    /// A function is called, and what it gives is not used.
    Call {
        name: Text,
        args: List<Expr>,
    },
    /// Words of the own communication memory are sent to another core's.
    Send {
        core: u32,
        core_unsigned: bool,
        source: Expr,
        target: Expr,
        count: Expr,
    },
    /// The first arm whose condition holds, or else the last block, if there is one.
    If {
        arms: List<Arm>,
        otherwise: Option<List<Stmt>>,
    },
    /// A loop, with the bound that stands before it, if any.
    Loop {
        bound: Option<Bound>,
        head: Head,
        body: List<Stmt>,
    },
    Break,
    Continue,
    Return {
        value: Option<Expr>,
    },
    /// A block.
    Inner {
        body: List<Stmt>,
    },
}

/// A condition and the block under it.
#[derive(Debug, Drop)]
#[cycle(statement)]
pub struct Arm {
    pub condition: Expr,
    pub body: List<Stmt>,
}

/// How a loop goes on.
#[derive(Debug, Drop)]
pub enum Head {
    While {
        condition: Expr,
    },
    For {
        first: Text,
        from: Expr,
        condition: Expr,
        step: Text,
        to: Expr,
    },
}

/// How many iterations a loop makes, at least and at most.
#[derive(Clone, Copy, Debug, PartialEq, Eq)]
pub struct Bound {
    pub min: u32,
    pub max: u32,
}
