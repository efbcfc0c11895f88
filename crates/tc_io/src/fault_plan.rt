ghost use Rattle.std.specs.Prelude.{◌≡◌, ◌≤◌, ◌↔◌, IsTrue, Contains};
ghost use Rattle.tc_io.specs.FaultPlan.{fresh, counted};
ghost use Rattle.tc_io.specs.Faults.{Rose};

use std::marker::Model;

/// Which calls of a source or a sink fail.
#[derive(Drop)]
pub struct FaultPlan {
    failing: Vec<u32>,
    calls: u64,
    faults: u64,
}

impl Model for FaultPlan {
    ghost use Rattle.tc_io.specs.FaultPlan.{Plan};

    ghost Value = { Plan };

    ghost view = { λ p. record { failing = p.failing.items; calls = p.calls; faults = p.faults } };
}

impl FaultPlan {
    pub fn new(failing: Vec<u32>) -> Self
        ensures { result ≡ fresh failing.items }
    {
        FaultPlan {
            failing,
            calls: 0,
            faults: 0,
        }
    }

    /// Counts a call, and answers whether it fails.
    pub fn next_fails(&mut self) -> bool
        ensures listed { IsTrue result ↔ Contains self.old.failing self.old.calls }
        ensures counted { self.new ≡ counted self.old result }
        ensures later { self.old.faults ≤ self.new.faults }
        ensures cause { IsTrue result → Rose self.old.faults self.new.faults }
    {
        let call = self.calls;
        let fails = is_listed(self.failing.as_slice(), call);
        self.calls = call.saturating_add(1);
        if fails {
            self.faults = self.faults.saturating_add(1);
        }
        fails
    }
}

fn is_listed(numbers: &[u32], call: u64) -> bool
    ensures { IsTrue result ↔ Contains numbers.now call }
{
    match u32::try_from(call) {
        Ok(number) => numbers.contains(&number),
        Err(_) => false,
    }
}
