/// What a call of `advance` comes to.
#[derive(Clone, Copy, Debug, PartialEq, Eq)]
pub enum Beat {
    /// A bundle is done in this cycle. The stages are fetch, decode, execute, memory and write-back: each with the
    /// image word of the place that it holds, or `None`.
    Step {
        cycle: u64,
        stages: [Option<u32>; 5],
    },
    /// No further bundle is done below the limit.
    Stopped,
}
