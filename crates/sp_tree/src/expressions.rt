use crate::operators::{SpBinary, SpUnary};
use c_world::Region;

/// A word of a memory.
#[derive(Clone, Copy, Debug, PartialEq, Eq)]
pub struct SpCell {
    pub region: Region,
    pub word: u32,
}

/// Words of a memory one after another.
#[derive(Clone, Copy, Debug, PartialEq, Eq)]
pub struct SpArray {
    pub region: Region,
    pub first: u32,
    pub length: u32,
}

/// An expression.
#[derive(Debug, Drop)]
pub enum SpExpr {
    Const {
        value: u32,
    },
    /// A word of the frame.
    Frame {
        slot: u32,
    },
    Scalar {
        cell: SpCell,
    },
    /// An element of an array; at or past its length it is 0.
    Element {
        array: SpArray,
        index: Box<SpExpr>,
    },
    Unary {
        op: SpUnary,
        of: Box<SpExpr>,
    },
    Binary {
        op: SpBinary,
        a: Box<SpExpr>,
        b: Box<SpExpr>,
    },
}

/// What is set.
#[derive(Debug, Drop)]
pub enum SpTarget {
    /// A word of the frame.
    Frame { slot: u32 },
    Scalar { cell: SpCell },
    /// An element of an array; at or past its length nothing is set.
    Element { array: SpArray, index: SpExpr },
}
