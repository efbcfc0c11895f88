//! Statements, functions and units.

use crate::expressions::{SpExpr, SpTarget};
use tc_word::List;

/// A statement. One that names a mask has its effect where that word of the frame is 1, and where it is 0, 2 or any
/// other word it has none.
#[derive(Debug, Drop)]
pub enum SpStmt {
    /// A word of the frame is set, in either case.
    Mask {
        slot: u32,
        value: SpExpr,
    },
    /// A target is set.
    Write {
        mask: u32,
        target: SpTarget,
        value: SpExpr,
    },
    /// A function is run, in either case, under the word of the mask; then a word of the frame is set to what it
    /// gives, if one is named and the mask is 1.
    Call {
        mask: u32,
        function: u32,
        args: List<SpExpr>,
        result: Option<u32>,
    },
    /// So many words are sent from a word of the own communication memory to a word of that of another core.
    Send {
        mask: u32,
        core: u32,
        source: SpExpr,
        target: SpExpr,
        count: SpExpr,
    },
    /// The flag is set where the value is not 0.
    Overrun {
        mask: u32,
        value: SpExpr,
    },
    /// The body is run so many times.
    Iterations {
        count: u32,
        body: List<SpStmt>,
    },
}

/// A function: how many words its frame has, and how many parameters, which are the first of them; the words of its
/// mask and of what it gives; and its statements.
#[derive(Debug, Drop)]
pub struct SpFunction {
    pub frame: u32,
    pub parameters: u32,
    pub mask: u32,
    pub result: u32,
    pub body: List<SpStmt>,
}

/// A task: its functions, of which each calls earlier ones, and the number of the one that is run; the words that
/// private memory begins with, from word 4 on; and the word from which the input lies there, and how many words of it
/// at most.
#[derive(Debug, Drop)]
pub struct SpUnit {
    pub functions: List<SpFunction>,
    pub entry: u32,
    pub initial: List<u32>,
    pub input_at: u32,
    pub input_room: u32,
}
