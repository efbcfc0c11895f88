use crate::board::{complete, values_of};
use crate::follow::has_few_words;
use crate::latches::Latches;
use crate::lone::Lone;
use crate::still::is_still;
use patmos_model::Status;
use patmos_step::Plan;
use slot_arbiter::MOST_CYCLES;

impl Lone {
    ghost use Rattle.std.specs.Prelude.{◌≡◌, ℕ, ◌+◌, ◌<◌, true};
    ghost use Rattle.patmos_model.specs.Site.{size_at};
    ghost use Rattle.patmos_model.specs.State.{Core, is_running};
    ghost use Rattle.patmos_step.specs.Plan.{planned, IsSettled, PlanFits};
    ghost use Rattle.patmos_step.specs.Shown.{plain_of};
    ghost use Rattle.pipe_five.specs.Lone.{RunsAs, LandedAs, TellsBundle, LeavesStatus, was_done};

    /// Goes through the cycle. A bundle that was done in it comes into its stage, and so it is told.
    pub fn act(&mut self, latches: &mut Latches) -> bool
        requires early { self.old.cycle < MOST_CYCLES }
        ensures runs { (x : Core) → RunsAs self.old x → RunsAs self.new x }
        ensures tells { (x : Core) → RunsAs self.old x
            → TellsBundle x self.old.cycle self.new.cycle result latches.old latches.new }
        ensures cycle { self.new.cycle ≡ self.old.cycle + 1 }
    {
        self.settle();
        let plan = self.body.plan(self.cycle);
        let place = self.place();
        let found = self.body.regs;
        self.carry_out(&plan);
        if !self.has_done(&plan) {
            return false;
        }
        latches.shift(place, &found);
        true
    }

    // whether the plan was to do a bundle, and the core was not stopped
    fn has_done(&self, plan: &Plan) -> bool
        ensures { result ≡ was_done plan.now self.now.body.status }
    {
        match plan {
            Plan::Does(_) => matches!(self.body.status, Status::Running),
            Plan::Nothing | Plan::Waits => false,
        }
    }

    // a flow that is due takes effect
    fn settle(&mut self)
        ensures lands { (x : Core) → RunsAs self.old x → LandedAs self.new x }
        ensures settled { is_running (plain_of self.new.body) ≡ true
            → IsSettled self.new.cycle (plain_of self.new.body) }
        ensures cycle { self.new.cycle ≡ self.old.cycle }
    {
        self.body.settle(self.cycle);
    }

    // the image word of the bundle that comes next, if the function has it
    fn place(&self) -> u32
        ensures { self.now.body.offset < size_at self.now.body.image self.now.body.base
            → result ≡ self.now.body.base + self.now.body.offset }
    {
        has_few_words(&self.body.image);
        self.body.base.wrapping_add(self.body.offset)
    }

    // carries out what is planned for the cycle, with the words of the board
    fn carry_out(&mut self, plan: &Plan)
        requires plan { plan.now ≡ planned self.old.cycle (plain_of self.old.body) }
        requires within { PlanFits self.old.body.offset self.old.body.size plan.now }
        requires settled { is_running (plain_of self.old.body) ≡ true
            → IsSettled self.old.cycle (plain_of self.old.body) }
        requires early { self.old.cycle < MOST_CYCLES }
        ensures runs { (x : Core) → LandedAs self.old x → RunsAs self.new x }
        ensures leaves { (x : Core) → LandedAs self.old x
            → LeavesStatus plan.now (plain_of self.old.body) (plain_of self.new.body) }
        ensures cycle { self.new.cycle ≡ self.old.cycle + 1 }
    {
        let ask = self.body.ask(plan, self.cycle);
        let values = values_of(self.words.as_slice(), &ask);
        let pending_store = self.body.carry_out(plan, self.cycle, &values);
        is_still(&self.body);
        complete(&mut self.words, &ask, pending_store);
        self.cycle += 1;
    }
}
