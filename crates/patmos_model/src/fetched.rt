use patmos_instr::Bundle;

/// What stands at an offset of a function.
#[derive(Clone, Copy, Debug, PartialEq, Eq)]
pub enum Fetched {
    /// Words that do not lie inside the function.
    Outside,
    /// Words that stand for no bundle.
    NoBundle,
    /// A bundle of one word or two.
    Found { bundle: Bundle, words: u32 },
}
