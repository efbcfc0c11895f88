/// A place where a test may hold a worker for a while. It answers nothing and changes nothing that
/// a contract sees.
pub trait Gate {
    /// A worker of the core `core` has found its next event, which has this stamp, and has not yet
    /// looked at another core's clock.
    fn at(&self, core: u32, stamp: u64);
}

/// The gate that holds nobody.
#[derive(Clone, Copy, Debug, PartialEq, Eq)]
pub struct FreeGate;

impl Gate for FreeGate {
    fn at(&self, _core: u32, _stamp: u64) {}
}
