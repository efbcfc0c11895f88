//! Where the words of a function's frame stand.

/// The words of a function's frame that stand in predicates, at most four: `first` in [`FLAGS`](crate::FLAGS), and so on.
#[derive(Clone, Copy)]
pub struct Flags {
    pub first: Option<u32>,
    pub second: Option<u32>,
    pub third: Option<u32>,
    pub fourth: Option<u32>,
}

/// Where the words of a function's frame stand.
///
/// Some stand in predicates. Of the others, a word stands in the register so many after `first` as its number says, if
/// that is before [`OVERRUN`](crate::OVERRUN), and else in the stack.
#[derive(Clone, Copy)]
pub struct Homes {
    pub first: u32,
    pub flags: Flags,
}
