ghost use Rattle.std.specs.Prelude.{◌≡◌, ◌↔◌, ◌≤◌, take, min, length, Ok, IfOk, OnErr, IsErr, is_ok, not, Contains};
ghost use Rattle.tc_io.specs.FaultPlan.{fresh, counted};
ghost use Rattle.tc_io.specs.Gathered.{empty, with_piece, known};
ghost use Rattle.tc_io.specs.Sink.{IsWritten};

use crate::fault_plan::FaultPlan;
use crate::sink::Sink;
use crate::source::Failed;
use crate::sure_gather::SureGather;
use std::alloc::Global;
use std::marker::Model;
use tc_word::OutOfMemory;

/// A sink in memory that takes at most so many bytes a call, and of which chosen calls fail. It
/// keeps the first bytes, as many as it has room for, and counts the rest; it tells its bytes
/// while all of them are kept.
#[derive(Drop)]
pub struct Gather {
    gathered: SureGather,
    most: usize,
    plan: FaultPlan,
}

impl Model for Gather {
    ghost use Rattle.std.specs.Prelude.{◌≤◌};
    ghost use Rattle.tc_io.specs.Gathered.{Metered};

    ghost Value = { Metered };

    ghost view = { λ g. record { gathered = g.gathered; most = g.most; plan = g.plan } };

    ghost invariant = { λ g. 1 ≤ g.most };
}

impl Gather {
    /// Takes the memory for `room` bytes. At most `most` bytes are taken a call, and the calls
    /// with the numbers in `failing`, counted from 0, fail.
    pub fn new(
        alloc: Global,
        most: usize,
        room: usize,
        failing: Vec<u32>,
    ) -> Result<Self, OutOfMemory>
        requires { 1 ≤ most }
        ensures { IfOk result (λ g. g ≡ record { gathered = empty room; most = most; plan = fresh failing.items }) }
    {
        Ok(Gather {
            gathered: SureGather::new(alloc, room)?,
            most,
            plan: FaultPlan::new(failing),
        })
    }

    /// The bytes that are kept.
    pub fn kept(&self) -> &[u8]
        ensures { result.now ≡ self.now.gathered.kept }
    {
        self.gathered.kept()
    }

    /// How many bytes came after those that are kept, up to 2^64 - 1.
    pub fn rest(&self) -> u64
        ensures { result ≡ self.now.gathered.rest }
    {
        self.gathered.rest()
    }
}

impl Sink for Gather {
    ghost taken = { λ g. known g.gathered };

    ghost faults = { λ g. g.plan.faults };

    #[tactic(auto, using(crate::proofs::Writing::took_nothing))]
    fn write(&mut self, bytes: &[u8]) -> Result<usize, Failed>
        ensures written { IsWritten self.old.plan.faults self.new.plan.faults (known self.old.gathered)
            (known self.new.gathered) bytes.now result }
        ensures fails { IsErr result ↔ Contains self.old.plan.failing self.old.plan.calls }
        ensures counted { self.new.plan ≡ counted self.old.plan (not (is_ok result)) }
        ensures count { IfOk result (λ n. n ≡ min self.old.most (length bytes.now)) }
        ensures gathered { IfOk result (λ n. self.new.gathered ≡ with_piece self.old.gathered (take n bytes.now)) }
        ensures unchanged { OnErr result (self.new.gathered ≡ self.old.gathered) }
        ensures most { self.new.most ≡ self.old.most }
    {
        if self.plan.next_fails() {
            return Err(Failed);
        }
        let (piece, _) = bytes.split_at(bytes.len().min(self.most));
        self.gathered.write(piece)
    }
}
