use crate::pending::Pending;
use patmos_instr::{Pred, Reg, WritableSpecial};

// what is written at the end of a bundle
#[derive(Clone, Copy)]
pub enum Write {
    Nothing,
    Register {
        rd: Reg,
        value: u32,
    },
    Predicate {
        pd: Pred,
        value: bool,
    },
    Special {
        special: WritableSpecial,
        value: u32,
    },
    Product {
        low: u32,
        high: u32,
    },
}

impl Write {
    ghost use Rattle.std.specs.Prelude.{◌≡◌};
    ghost use Rattle.patmos_sem.specs.Writes.{came};

    // a pending value comes as a write
    pub fn of_pending(pending: Pending) -> Write
        ensures { result ≡ came pending }
    {
        match pending {
            Pending::Nothing => Write::Nothing,
            Pending::Value { rd, value } => Write::Register { rd, value },
            Pending::Product { low, high } => Write::Product { low, high },
        }
    }
}
