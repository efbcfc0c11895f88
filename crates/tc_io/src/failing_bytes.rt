ghost use Rattle.std.specs.Prelude.{◌≡◌, ◌↔◌, min, length, Some, IfOk, IsErr, is_ok, not, Contains};
ghost use Rattle.tc_io.specs.FaultPlan.{fresh, counted};
ghost use Rattle.tc_io.specs.Source.{IsRead};

use crate::fault_plan::FaultPlan;
use crate::source::{Failed, Source};
use crate::sure_bytes::SureBytes;
use std::marker::Model;

/// Bytes in memory as a source of which chosen calls fail. A failed call gives no byte.
#[derive(Drop)]
pub struct Bytes {
    bytes: SureBytes,
    plan: FaultPlan,
}

impl Model for Bytes {
    ghost use Rattle.tc_io.specs.FaultPlan.{Planned};

    ghost Value = { Planned };

    ghost view = { λ b. record { left = b.bytes; plan = b.plan } };
}

impl Bytes {
    /// A source of `bytes` whose calls with the numbers in `failing`, counted from 0, fail.
    pub fn new(bytes: Vec<u8>, failing: Vec<u32>) -> Self
        ensures bytes { result.left ≡ bytes.items }
        ensures plan { result.plan ≡ fresh failing.items }
    {
        Bytes {
            bytes: SureBytes::new(bytes),
            plan: FaultPlan::new(failing),
        }
    }
}

impl Source for Bytes {
    ghost left = { λ b. Some b.left };

    ghost faults = { λ b. b.plan.faults };

    #[tactic(auto, using(crate::proofs::Reading::gave_nothing))]
    fn read(&mut self, buf: &mut [u8]) -> Result<usize, Failed>
        ensures read { IsRead self.old.plan.faults self.new.plan.faults (Some self.old.left)
            (Some self.new.left) buf.new result }
        ensures fails { IsErr result ↔ Contains self.old.plan.failing self.old.plan.calls }
        ensures counted { self.new.plan ≡ counted self.old.plan (not (is_ok result)) }
        ensures count { IfOk result (λ n. n ≡ min (length buf.old) (length self.old.left)) }
    {
        if self.plan.next_fails() {
            return Err(Failed);
        }
        self.bytes.read(buf)
    }
}
