/// Which memory a variable or an array of a C task stands in.
#[derive(Clone, Copy, Debug, PartialEq, Eq)]
pub enum Region {
    /// The core's scratchpad.
    Scratch,
    /// The core's communication memory.
    Comm,
    /// The core's private memory.
    Private,
    /// The words that all cores share.
    Shared,
}
