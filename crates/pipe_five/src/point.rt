use patmos_model::Flow;

/// A point of the code: the place at which a function starts, an offset in it, and the flow that is pending there.
#[derive(Clone, Copy, Debug, PartialEq, Eq)]
pub struct Point {
    pub base: u32,
    pub offset: u32,
    pub flow: Option<Flow>,
}
