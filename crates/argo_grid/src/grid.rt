/// A grid of routers, one for each core: core c sits at column `c % columns` and row `c / columns`.
#[derive(Clone, Copy, Debug, PartialEq, Eq)]
pub struct Grid {
    pub columns: u32,
    pub rows: u32,
}

/// An entry of a schedule: in each period it sends one packet from one core to another.
#[derive(Clone, Copy, Debug, PartialEq, Eq)]
pub struct Entry {
    /// The slot of the period in which its packets are sent.
    pub slot: u32,
    /// The core that sends.
    pub from: u32,
    /// The core that receives.
    pub to: u32,
    /// How many cycles after it was sent a packet has arrived.
    pub arrive: u32,
}
