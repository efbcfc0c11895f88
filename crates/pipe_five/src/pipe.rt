ghost use Rattle.std.specs.Prelude.{◌≤◌};
ghost use Rattle.slot_arbiter.specs.declared.place.TheConstants.{MOST_CYCLES};

use crate::latches::Latches;
use crate::lone::Lone;

/// A core as a pipeline: the core with its board, and what stands in its stages.
#[derive(Drop)]
pub struct PipeCore {
    pub lone: Lone,
    /// The limit of the last call of `advance`.
    pub limit: u64,
    pub latches: Latches,
    ghost within: { lone.cycle ≤ limit },
    ghost most: { limit ≤ MOST_CYCLES },
}
