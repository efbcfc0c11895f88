use crate::follow::has_few_words;
use crate::latches::Latches;
use crate::lone::Lone;
use patmos_alone::{do_branch, do_silent, has_no_slot_left, next_offset};
use patmos_instr::Guard;
use patmos_step::Class;
use slot_arbiter::MOST_CYCLES;

// Bundles that ask for nothing, and branches alone: most of all, which the core does by itself.

impl Lone {
    ghost use Rattle.std.specs.Prelude.{◌≡◌, ◌+◌, ◌<◌, true, false, IfSome};
    ghost use Rattle.patmos_sem.specs.declared.effects.Effect.TheVariants as effect;
    ghost use Rattle.patmos_model.specs.State.{Core, is_running, is_free};
    ghost use Rattle.patmos_alone.specs.Alone.{CanBegin, CanLand, IsPrivateIn};
    ghost use Rattle.patmos_alone.specs.AtOnce.{IsBranchIn};
    ghost use Rattle.patmos_step.specs.Shown.{plain_of};
    ghost use Rattle.pipe_five.specs.Lone.{RunsAs, IsNextBundle};

    /// Does the bundle that comes in the cycle, if it is one of these, and tells whether it did.
    #[inline(always)]
    #[tactic(auto, using(patmos_alone::proofs::AtOnce::silent_next, patmos_alone::proofs::AtOnce::branch_next))]
    pub fn do_at_once(&mut self, latches: &mut Latches) -> bool
        requires early { self.old.cycle < MOST_CYCLES }
        ensures runs { (x : Core) → RunsAs self.old x → RunsAs self.new x }
        ensures done { result ≡ true → (x : Core) → RunsAs self.old x
            → IsNextBundle x self.old.cycle self.new.cycle latches.old latches.new }
        ensures cycle { result ≡ true → self.new.cycle ≡ self.old.cycle + 1 }
        ensures same { result ≡ false → self.new ≡ self.old }
        ensures held { result ≡ false → latches.new ≡ latches.old }
    {
        let Some(offset) = self.next_offset() else {
            return false;
        };
        let Some(found) = self.body.decoded_at(offset) else {
            return false;
        };
        let words = found.words;
        match found.class {
            Class::Silent => {
                self.do_silent(latches, offset, words);
                true
            }
            Class::Branch { guard, by } if has_no_slot_left(&self.body) => {
                self.do_branch(latches, offset, words, guard, by);
                true
            }
            Class::Branch { .. } | Class::Other => false,
        }
    }

    // the offset of the bundle that comes in the cycle, where no flow is due but a branch to a place in the function
    #[inline(always)]
    #[tactic(auto, using(crate::proofs::AtOnce::can_begin))]
    fn next_offset(&self) -> Option<u32>
        ensures lands { IfSome result (λ offset. CanLand offset (plain_of self.now.body)) }
        ensures runs { IfSome result (λ offset. is_running (plain_of self.now.body) ≡ true) }
        ensures begins { IfSome result (λ offset. CanBegin self.now.cycle (plain_of self.now.body)) }
    {
        if !self.can_begin() {
            return None;
        }
        Some(next_offset(&self.body)?)
    }

    // whether the next bundle comes in the cycle
    #[inline(always)]
    fn can_begin(&self) -> bool
        ensures runs { result ≡ true → is_running (plain_of self.now.body) ≡ true }
        ensures free { result ≡ true → is_free self.now.cycle (plain_of self.now.body) ≡ true }
    {
        self.body.is_running() && self.body.transfer.words == 0 && self.body.free == self.cycle
    }

    // a bundle that asks for nothing
    #[inline(always)]
    fn do_silent(&mut self, latches: &mut Latches, offset: u32, words: u32)
        requires next { IsPrivateIn self.old.cycle self.old.body
            (record { offset = offset; words = words; effect = effect.Nothing }) }
        requires runs { is_running (plain_of self.old.body) ≡ true }
        requires early { self.old.cycle < MOST_CYCLES }
        ensures runs { (x : Core) → RunsAs self.old x → RunsAs self.new x }
        ensures done { (x : Core) → RunsAs self.old x
            → IsNextBundle x self.old.cycle self.new.cycle latches.old latches.new }
        ensures cycle { self.new.cycle ≡ self.old.cycle + 1 }
    {
        has_few_words(&self.body.image);
        latches.shift(self.body.base + offset, &self.body.regs);
        do_silent(&mut self.body, offset, words, self.cycle);
        self.cycle += 1;
    }

    // a branch alone
    #[inline(always)]
    fn do_branch(&mut self, latches: &mut Latches, offset: u32, words: u32, guard: Guard, by: i32)
        requires next { IsBranchIn self.old.cycle self.old.body offset words guard by }
        requires runs { is_running (plain_of self.old.body) ≡ true }
        requires early { self.old.cycle < MOST_CYCLES }
        ensures runs { (x : Core) → RunsAs self.old x → RunsAs self.new x }
        ensures done { (x : Core) → RunsAs self.old x
            → IsNextBundle x self.old.cycle self.new.cycle latches.old latches.new }
        ensures cycle { self.new.cycle ≡ self.old.cycle + 1 }
    {
        has_few_words(&self.body.image);
        latches.shift(self.body.base + offset, &self.body.regs);
        do_branch(&mut self.body, offset, words, guard, by, self.cycle);
        self.cycle += 1;
    }
}
