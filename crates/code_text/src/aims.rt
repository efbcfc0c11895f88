//! Where flows go.

/// Where the flow of a tail goes.
#[derive(Clone, Copy, Debug, PartialEq, Eq)]
pub enum Aim {
    /// To the next bundle: no flow with a name stands there.
    Onward,
    /// To the begin of the loop of a number.
    Loop(u32),
    /// To the function of a number.
    Entry(u32),
}
