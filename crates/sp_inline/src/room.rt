//! The room that a function has for calls that it takes in.

/// What a function may still grow by, in words of code; the words of its frame that are named so far; and how many
/// levels of iterations stand inside one another so far.
#[derive(Clone, Copy, Debug, PartialEq, Eq)]
pub struct Room {
    pub left: u32,
    pub words: u32,
    pub levels: u32,
}
