/// A word of the board that is still to be stored, at the stamp at which it was loaded: a narrow store
/// changes a part of it alone.
#[derive(Clone, Copy, Debug, PartialEq, Eq)]
pub struct PendingStore {
    /// The number of the word on the board.
    pub word: u32,
    /// What it is to hold.
    pub value: u32,
}
