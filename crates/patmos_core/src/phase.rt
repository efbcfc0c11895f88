use patmos_model::PendingStore;

/// The phase of its cycle that a core has before it.
#[derive(Clone, Copy, Debug, PartialEq, Eq)]
pub enum Phase {
    /// Both phases: first the packets that are due come to their words.
    Delivery,
    /// The second phase: the packet of the window is sent, and then the core has its own act.
    Act,
    /// What is left of the second phase where it stores a part of a word: the word is stored.
    Completion(PendingStore),
}
