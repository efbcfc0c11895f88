use crate::latches::Latches;
use crate::lone::Lone;
use slot_arbiter::{MOST_CYCLES, start_of};

impl Lone {
    ghost use Rattle.std.specs.Prelude.{◌≡◌, ℕ, ◌<◌, ◌≤◌};
    ghost use Rattle.patmos_model.specs.State.{Core};
    ghost use Rattle.patmos_step.specs.Shown.{plain_of};
    ghost use Rattle.pipe_five.specs.Steps.{done_below};
    ghost use Rattle.pipe_five.specs.Lone.{RunsAs, Sleeps, TellsBundle};

    /// Goes through the next cycle below a limit in which the core may do something, or else goes on to the limit.
    /// A bundle that was done comes into its stage, and so it is told.
    #[inline(always)]
    pub fn step(&mut self, latches: &mut Latches, limit: u64) -> bool
        requires below { self.old.cycle < limit }
        requires most { limit ≤ MOST_CYCLES }
        ensures runs { (x : Core) → RunsAs self.old x → RunsAs self.new x }
        ensures tells { (x : Core) → RunsAs self.old x
            → TellsBundle x self.old.cycle self.new.cycle result latches.old latches.new }
        ensures further { self.old.cycle < self.new.cycle }
        ensures within { self.new.cycle ≤ limit }
    {
        self.do_at_once(latches) || self.step_on(latches, limit)
    }

    // goes on through a cycle of any kind
    #[inline(never)]
    fn step_on(&mut self, latches: &mut Latches, limit: u64) -> bool
        requires below { self.old.cycle < limit }
        requires most { limit ≤ MOST_CYCLES }
        ensures runs { (x : Core) → RunsAs self.old x → RunsAs self.new x }
        ensures tells { (x : Core) → RunsAs self.old x
            → TellsBundle x self.old.cycle self.new.cycle result latches.old latches.new }
        ensures further { self.old.cycle < self.new.cycle }
        ensures within { self.new.cycle ≤ limit }
    {
        self.skip(limit);
        if self.cycle == limit {
            false
        } else {
            self.act(latches)
        }
    }

    // goes over the cycles in which the core does nothing
    fn skip(&mut self, limit: u64)
        requires below { self.old.cycle < limit }
        requires most { limit ≤ MOST_CYCLES }
        ensures runs { (x : Core) → RunsAs self.old x → RunsAs self.new x }
        ensures none { (x : Core) → RunsAs self.old x → done_below x self.new.cycle ≡ done_below x self.old.cycle }
        ensures from { self.old.cycle ≤ self.new.cycle }
        ensures within { self.new.cycle ≤ limit }
    {
        self.cycle = self.next_active(limit);
    }

    // the first cycle from this one on in which the core may do something, or else the limit
    #[tactic(auto, using(crate::proofs::Asleep::stopped, crate::proofs::Asleep::early, crate::proofs::Asleep::late, crate::proofs::Asleep::no_slot))]
    fn next_active(&self, limit: u64) -> u64
        requires within { self.now.cycle ≤ limit }
        requires most { limit ≤ MOST_CYCLES }
        ensures sleeps { (u : ℕ) → self.now.cycle ≤ u → u < result → Sleeps u (plain_of self.now.body) }
        ensures from { self.now.cycle ≤ result }
        ensures within { result ≤ limit }
    {
        if !self.body.is_running() {
            limit
        } else if self.body.transfer.words > 0 {
            start_of(&self.body.place, self.body.free.max(self.cycle)).min(limit)
        } else if self.body.free >= self.cycle {
            self.body.free.min(limit)
        } else {
            limit
        }
    }
}
