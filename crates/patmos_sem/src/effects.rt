use patmos_instr::{Mem, Reg, StackFunc, StoreWidth, Width};

/// What a bundle asks for outside the registers. Addresses are in bytes.
#[derive(Clone, Copy, Debug, PartialEq, Eq)]
pub enum Effect {
    /// Nothing.
    Nothing,
    /// A load, whose value `arrive` is to make pending.
    Load {
        space: Mem,
        width: Width,
        rd: Reg,
        address: u32,
    },
    /// A store of the value's low byte or half, or of all of it.
    Store {
        space: Mem,
        width: StoreWidth,
        address: u32,
        value: u32,
    },
    /// An operation of the stack cache on some words.
    StackOp {
        func: StackFunc,
        count: u32,
    },
    /// A flow, which takes effect after its delay slots.
    Flow {
        kind: FlowKind,
    },
}

/// Where a flow goes. Places and offsets count words of code.
#[derive(Clone, Copy, Debug, PartialEq, Eq)]
pub enum FlowKind {
    /// So far from the branch bundle's first word.
    Branch { offset: i32 },
    /// To the function that begins there, from which a return comes back.
    Call { target: u32 },
    /// To the function that begins there.
    BranchFill { target: u32 },
    /// To an offset of the function that begins at the base, both as they were in the return's bundle.
    Return { base: u32, offset: u32 },
}
