use patmos_instr::Reg;

/// What is on its way into a register: it is seen from the second bundle after its own.
#[derive(Clone, Copy, Debug, PartialEq, Eq)]
pub enum Pending {
    /// Nothing.
    Nothing,
    /// A load's value.
    Value { rd: Reg, value: u32 },
    /// A product's low and high word, for `sl` and `sh`.
    Product { low: u32, high: u32 },
}
