use crate::body::Body;
use crate::plan::Plan;
use patmos_model::{Fetched, PendingStore, Trap};

impl Body {
    ghost use Rattle.std.specs.Prelude.{◌≡◌, ℕ, true, Option};
    ghost use Rattle.shared_order.specs.Program.{fed};
    ghost use Rattle.patmos_model.specs.State.{History, is_running};
    ghost use Rattle.patmos_model.specs.Bundle.{done_as, IsWithin};
    ghost use Rattle.patmos_model.specs.Cycle as cycles;
    ghost use Rattle.patmos_step.specs.Plan.{planned, settled_at, carried_out, IsSettled, PlanFits};
    ghost use Rattle.patmos_step.specs.Ready.{StoresWithin, IsReady, CanGoOn};
    ghost use Rattle.patmos_step.specs.Shown.{Shows, IsAt, IsActed, IsFramed, core_of, plain_of, KeepsInterface};

    /// The core's own act in a cycle: a flow that is due takes effect, then a bundle is done, then words are
    /// moved; each where it can be.
    pub fn own(&mut self, cycle: u64, values: &[u32]) -> Option<PendingStore>
        requires can { CanGoOn self.old }
        requires ready { IsReady cycle self.old.ni }
        ensures done { (s : ℕ) (h : History) → Shows self.old h
            → IsActed self.new result (fed s (cycles.own cycle (core_of self.old h)) values.now).core }
        ensures ready { IsReady cycle self.new.ni }
        ensures can { CanGoOn self.new }
        ensures frame { IsFramed self.old self.new }
        ensures leaves { StoresWithin self.old.place result }
    {
        self.settle(cycle);
        let plan = self.plan(cycle);
        self.carry_out(&plan, cycle, values)
    }

    /// A flow that is due takes effect, if the core runs.
    pub fn settle(&mut self, cycle: u64)
        requires can { CanGoOn self.old }
        ensures at { (h : History) → Shows self.old h → IsAt self.new (settled_at cycle (core_of self.old h)) }
        ensures settled { is_running (plain_of self.new) ≡ true → IsSettled cycle (plain_of self.new) }
        ensures can { CanGoOn self.new }
        ensures keeps { KeepsInterface self.old self.new }
    {
        if self.is_running() {
            self.flow(cycle);
        }
    }

    /// Carries out what is planned for the cycle: the bundle, and then the words of a slot that starts.
    #[tactic(auto, using(crate::proofs::Short::does_unmoved))]
    pub fn carry_out(&mut self, plan: &Plan, cycle: u64, values: &[u32]) -> Option<PendingStore>
        requires plan { plan.now ≡ planned cycle (plain_of self.old) }
        requires within { PlanFits self.old.offset self.old.size plan.now }
        requires can { CanGoOn self.old }
        requires ready { IsReady cycle self.old.ni }
        ensures done { (s : ℕ) (h : History) → Shows self.old h
            → IsActed self.new result (fed s (carried_out plan.now cycle (core_of self.old h)) values.now).core }
        ensures ready { IsReady cycle self.new.ni }
        ensures can { CanGoOn self.new }
        ensures frame { IsFramed self.old self.new }
        ensures leaves { StoresWithin self.old.place result }
    {
        match plan {
            Plan::Nothing => None,
            Plan::Waits => self.move_due(None, cycle, values),
            Plan::Does(fetched) => {
                let pending_store = self.do_fetched(fetched, cycle, values);
                self.move_due(pending_store, cycle, values)
            }
        }
    }

    // does what was fetched, with no words to move
    fn do_fetched(&mut self, fetched: &Fetched, cycle: u64, values: &[u32]) -> Option<PendingStore>
        requires within { IsWithin self.old.offset self.old.size fetched.now }
        requires unmoved { self.old.transfer.words ≡ 0 }
        requires can { CanGoOn self.old }
        requires ready { IsReady cycle self.old.ni }
        ensures done { (s : ℕ) (h : History) → Shows self.old h
            → IsActed self.new result (fed s (done_as fetched.now cycle (core_of self.old h)) values.now).core }
        ensures ready { IsReady cycle self.new.ni }
        ensures can { CanGoOn self.new }
        ensures frame { IsFramed self.old self.new }
        ensures leaves { StoresWithin self.old.place result }
    {
        match fetched {
            Fetched::Outside => {
                self.stop(Trap::Flow, cycle);
                None
            }
            Fetched::NoBundle => {
                self.stop(Trap::Decode, cycle);
                None
            }
            Fetched::Found { bundle, words } => {
                prove!(*words <= self.size);
                self.perform(bundle, *words, cycle, values)
            }
        }
    }

    // moves the words that are due in the cycle; a pending store stays pending where none are
    fn move_due(
        &mut self,
        pending_store: Option<PendingStore>,
        cycle: u64,
        values: &[u32],
    ) -> Option<PendingStore>
        requires can { CanGoOn self.old }
        requires ready { IsReady cycle self.old.ni }
        ensures done { (s : ℕ) (h : History) → Shows self.old h
            → IsActed self.new result (fed s (cycles.slot_step cycle
            (record { core = core_of self.old h; pending_store = pending_store })) values.now).core }
        ensures ready { IsReady cycle self.new.ni }
        ensures can { CanGoOn self.new }
        ensures frame { IsFramed self.old self.new }
        ensures leaves { StoresWithin self.old.place pending_store → StoresWithin self.old.place result }
    {
        if self.is_due(cycle) {
            self.transact(cycle, values)
        } else {
            pending_store
        }
    }
}
