/// How a statement ends.
#[derive(Clone, Copy, Debug, PartialEq, Eq)]
pub enum Way {
    /// On to the next statement.
    On,
    /// Out of the innermost loop.
    Broken,
    /// To the next iteration of the innermost loop.
    Continued,
    /// Out of the function, with a word.
    Returned { value: u32 },
}
