use slot_arbiter::WordOp;

/// One load or store of a shared word, and where it stands in the order of all cores' operations.
#[derive(Clone, Copy, Debug, PartialEq, Eq)]
pub struct Operation {
    /// The stamp of the act that makes it: its cycle, its phase and its core in one number.
    pub stamp: u64,
    /// The word, whether it is stored, and the value that is loaded or stored.
    pub act: WordOp,
}
