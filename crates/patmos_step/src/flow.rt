use crate::body::Body;
use patmos_code::MOST_IN_FUNCTION;
use patmos_model::{Flow, Goal, Then, Transfer, Trap};
use slot_arbiter::MOST_CYCLES;

impl Body {
    ghost use Rattle.std.specs.Prelude.{◌≡◌, ◌≤◌, ◌<◌, ◌+◌, ◌-◌, IfSome, IsTrue, None, true, length};
    ghost use Rattle.std.specs.Option.{SomeIff};
    ghost use Rattle.patmos_model.specs.declared.flow.Goal.{Goal};
    ghost use Rattle.patmos_model.specs.State.{History, is_running};
    ghost use Rattle.patmos_model.specs.Site.{size_at, has_place};
    ghost use Rattle.patmos_model.specs.Flows as flows;
    ghost use Rattle.patmos_step.specs.Plan.{IsSettled};
    ghost use Rattle.patmos_step.specs.Ready.{CanGoOn};
    ghost use Rattle.patmos_step.specs.Shown.{Shows, IsAt, core_of, plain_of, KeepsInterface};

    /// A flow without a delay slot left takes effect, if the core is free in the cycle.
    #[tactic(auto, unfolding(patmos_model::specs::Flows::flowed))]
    pub fn flow(&mut self, cycle: u64)
        requires can { CanGoOn self.old }
        ensures at { (h : History) → Shows self.old h → IsAt self.new (flows.flowed cycle (core_of self.old h)) }
        ensures settled { is_running (plain_of self.new) ≡ true → IsSettled cycle (plain_of self.new) }
        ensures can { CanGoOn self.new }
        ensures keeps { KeepsInterface self.old self.new }
    {
        if self.transfer.words != 0 || self.free != cycle {
            return;
        }
        match self.flow {
            Some(Flow { goal, slots: 0 }) => self.take(goal, cycle),
            _ => {}
        }
    }

    // the flow takes effect
    fn take(&mut self, goal: Goal, cycle: u64)
        requires can { CanGoOn self.old }
        ensures at { (h : History) → Shows self.old h → IsAt self.new (flows.taken cycle goal (core_of self.old h)) }
        ensures gone { is_running (plain_of self.new) ≡ true → self.new.flow ≡ None }
        ensures can { CanGoOn self.new }
        ensures keeps { KeepsInterface self.old self.new }
    {
        match goal {
            Goal::Within { offset } => self.branch(offset, cycle),
            Goal::Call { target } => match self.place(target, 0) {
                Some(size) => {
                    self.regs.set_return(self.base, self.offset);
                    self.enter(target, 0, size);
                }
                None => self.stop(Trap::Flow, cycle),
            },
            Goal::Fill { target } => self.go(target, 0, cycle),
            Goal::Return { base, offset } => self.go(base, offset, cycle),
        }
    }

    // goes to an offset of the same function
    fn branch(&mut self, offset: u32, cycle: u64)
        requires can { CanGoOn self.old }
        ensures at { (h : History) → Shows self.old h
            → IsAt self.new (flows.taken cycle (Goal.Within offset) (core_of self.old h)) }
        ensures gone { is_running (plain_of self.new) ≡ true → self.new.flow ≡ None }
        ensures can { CanGoOn self.new }
        ensures keeps { KeepsInterface self.old self.new }
    {
        if offset < self.size {
            self.offset = offset;
            self.flow = None;
        } else {
            self.stop(Trap::Flow, cycle);
        }
    }

    // goes to an offset of the function that starts at the base
    fn go(&mut self, base: u32, offset: u32, cycle: u64)
        requires can { CanGoOn self.old }
        ensures at { (h : History) → Shows self.old h
            → IsAt self.new (flows.taken cycle (Goal.Return base offset) (core_of self.old h)) }
        ensures gone { is_running (plain_of self.new) ≡ true → self.new.flow ≡ None }
        ensures can { CanGoOn self.new }
        ensures keeps { KeepsInterface self.old self.new }
    {
        match self.place(base, offset) {
            Some(size) => self.enter(base, offset, size),
            None => self.stop(Trap::Flow, cycle),
        }
    }

    // the size of the function that starts at the base, if it has a word at the offset
    #[tactic(auto, using(crate::proofs::Places::found_start, crate::proofs::Places::no_start))]
    fn place(&self, base: u32, offset: u32) -> Option<u32>
        ensures size { SomeIff result (IsTrue (has_place self.now.image base offset)) (size_at self.now.image base) }
        ensures small { IfSome result (λ size. size ≤ MOST_IN_FUNCTION) }
        ensures inside { IfSome result (λ size. base + size ≤ length self.now.image.words) }
    {
        let size = self.image.function_size(base)?;
        if offset < size { Some(size) } else { None }
    }

    // goes to a place: the method cache is asked for its function, which has this size
    fn enter(&mut self, base: u32, offset: u32, size: u32)
        requires size { size ≡ size_at self.old.image base }
        requires small { size ≤ MOST_IN_FUNCTION }
        requires inside { base + size ≤ length self.old.image.words }
        requires near { self.old.free ≤ MOST_CYCLES + 64 }
        ensures at { (h : History) → Shows self.old h → IsAt self.new (flows.entered base offset (core_of self.old h)) }
        ensures gone { self.new.flow ≡ None }
        ensures can { CanGoOn self.new }
        ensures keeps { KeepsInterface self.old self.new }
    {
        let transactions = self.methods.touch(base, size);
        self.transfer = if transactions == 0 {
            Transfer::NOTHING
        } else {
            Transfer::read(size + 1, Then::Nothing)
        };
        self.base = base;
        self.size = size;
        self.offset = offset;
        self.flow = None;
    }
}
