/// What is wrong with a schedule: the first fault of the first faulty entry. Entries are counted from 0.
#[derive(Clone, Copy, Debug, PartialEq, Eq)]
pub enum GridFault {
    /// The entry's slot is not in the period, a core is not in the grid, or it sends to itself.
    Range { entry: u32 },
    /// The entry does not say when its packets arrive: that is `needs` cycles after they are sent.
    Late { entry: u32, needs: u32 },
    /// A packet of the entry and one of the earlier entry `other`, the least such, use one link in one
    /// cycle.
    Shared { entry: u32, other: u32 },
}
