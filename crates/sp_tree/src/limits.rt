//! How large single-path trees may be.

/// The most words of a function's frame: the offset of a stack access has seven bits.
pub const MOST_FRAME: usize = 128;

/// The most functions of a unit.
pub const MOST_FUNCTIONS: usize = 512;

/// The most parameters of a function.
pub const MOST_PARAMETERS: u32 = 6;

/// The most registers that an expression takes.
pub const MOST_NEED: u32 = 12;
