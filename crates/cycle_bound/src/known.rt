//! What is known of the functions before the one that is being worked out.

use sp_tree::MOST_FUNCTIONS;

/// Cycles of functions, by their numbers.
#[derive(Drop)]
pub struct Known {
    /// What is counted for a function's fetch, each time that it may come.
    pub fills: [u64; MOST_FUNCTIONS],
    /// What a function takes at most from its first bundle to its last.
    pub bounds: [u64; MOST_FUNCTIONS],
}
