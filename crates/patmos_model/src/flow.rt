/// Where a flow goes to. Places and offsets count words of code.
#[derive(Clone, Copy, Debug, PartialEq, Eq)]
pub enum Goal {
    /// A branch: an offset in the same function.
    Within { offset: u32 },
    /// A call: the function that begins at a place, from which a return comes back.
    Call { target: u32 },
    /// A branch with a cache fill: the function that begins at a place.
    Fill { target: u32 },
    /// A return: an offset in the function that begins at the base; with base 0 the task ends.
    Return { base: u32, offset: u32 },
}

/// A flow that was asked for and has not taken effect.
#[derive(Clone, Copy, Debug, PartialEq, Eq)]
pub struct Flow {
    pub goal: Goal,
    /// How many of its delay slots are left, at most 3.
    pub slots: u32,
}
