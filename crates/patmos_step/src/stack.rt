use crate::body::Body;
use patmos_instr::StackFunc;
use patmos_model::{Then, Transfer};
use slot_arbiter::MOST_CYCLES;

impl Body {
    ghost use Rattle.std.specs.Prelude.{◌≡◌, ◌≤◌, true, length, slice_index};
    ghost use Rattle.patmos_instr.specs.declared.functions.StackFunc.TheVariants.{Sres, Sens, Sfree};
    ghost use Rattle.stack_cache.specs.Stack.{IsStack, reserved, spilled, missing};
    ghost use Rattle.patmos_model.specs.Checks.{has_room};
    ghost use Rattle.patmos_model.specs.Bundle.{stacked, moves, ends, with_words, refilled};
    ghost use Rattle.patmos_step.specs.Ready.{IsAtRest, CanGoOn, CanMove};
    ghost use Rattle.patmos_step.specs.Shown.{SameBut, plain_of, OnlyPlain};

    /// Carries out a stack instruction that has room for so many words.
    pub fn stack_op(&mut self, func: StackFunc, count: u32, cycle: u64)
        requires stack { IsStack self.old.stack }
        requires room { has_room func count self.old.stack ≡ true }
        requires early { cycle ≤ MOST_CYCLES }
        requires rest { IsAtRest self.old }
        ensures plain { plain_of self.new ≡ stacked func count cycle (plain_of self.old) }
        ensures can { CanGoOn self.new }
        ensures only { OnlyPlain self.old self.new }
    {
        match func {
            StackFunc::Sres => self.reserve(count, cycle),
            StackFunc::Sens => self.ensure(count, cycle),
            StackFunc::Sfree => self.free_words(count, cycle),
        }
    }

    fn reserve(&mut self, count: u32, cycle: u64)
        requires stack { IsStack self.old.stack }
        requires room { has_room Sres count self.old.stack ≡ true }
        requires early { cycle ≤ MOST_CYCLES }
        requires rest { IsAtRest self.old }
        ensures plain { plain_of self.new ≡ stacked Sres count cycle (plain_of self.old) }
        ensures can { CanGoOn self.new }
        ensures only { OnlyPlain self.old self.new }
    {
        let moved = self.spill(count);
        self.moves(Transfer::write(moved, Then::Nothing), cycle);
    }

    // reserves words of the stack, and gives how many were spilled
    #[tactic(auto, using(crate::proofs::Spills::spilled_into))]
    fn spill(&mut self, count: u32) -> u32
        requires stack { IsStack self.old.stack }
        requires room { has_room Sres count self.old.stack ≡ true }
        ensures moved { result ≡ length (spilled count self.old.stack) }
        ensures stack { self.new.stack ≡ reserved count self.old.stack }
        ensures private { slice_index self.new.store.private
            ≡ with_words (reserved count self.old.stack).ss (spilled count self.old.stack)
            (slice_index self.old.store.private) }
        ensures same { SameBut self.old self.new }
        ensures rest { IsAtRest self.old → IsAtRest self.new }
    {
        let private = self.store.private();
        let Ok(moved) = self.stack.reserve(count, private) else {
            unreachable!()
        };
        moved
    }

    fn ensure(&mut self, count: u32, cycle: u64)
        requires stack { IsStack self.old.stack }
        requires room { has_room Sens count self.old.stack ≡ true }
        requires early { cycle ≤ MOST_CYCLES }
        requires rest { IsAtRest self.old }
        ensures plain { plain_of self.new ≡ stacked Sens count cycle (plain_of self.old) }
        ensures can { CanGoOn self.new }
        ensures only { OnlyPlain self.old self.new }
    {
        let moved = self.refill(count);
        self.moves(Transfer::read(moved, Then::Nothing), cycle);
    }

    // ensures that so many words of the stack are held, and gives how many were brought back
    #[tactic(auto, using(crate::proofs::Spills::filled_words, crate::proofs::Spills::lent_back))]
    fn refill(&mut self, count: u32) -> u32
        requires stack { IsStack self.old.stack }
        requires room { has_room Sens count self.old.stack ≡ true }
        ensures moved { result ≡ missing count self.old.stack }
        ensures stack { self.new.stack ≡ refilled count (slice_index self.old.store.private) self.old.stack }
        ensures private { slice_index self.new.store.private ≡ slice_index self.old.store.private }
        ensures same { SameBut self.old self.new }
        ensures rest { IsAtRest self.old → IsAtRest self.new }
    {
        let private = self.store.private();
        let Ok(moved) = self.stack.ensure(count, private) else {
            unreachable!()
        };
        moved
    }

    #[tactic(auto, using(crate::proofs::Rests::can_at_rest))]
    fn free_words(&mut self, count: u32, cycle: u64)
        requires stack { IsStack self.old.stack }
        requires room { has_room Sfree count self.old.stack ≡ true }
        requires early { cycle ≤ MOST_CYCLES }
        requires rest { IsAtRest self.old }
        ensures plain { plain_of self.new ≡ stacked Sfree count cycle (plain_of self.old) }
        ensures can { CanGoOn self.new }
        ensures only { OnlyPlain self.old self.new }
    {
        let Ok(()) = self.stack.free(count) else {
            unreachable!()
        };
        self.end(cycle);
    }

    /// The bundle ends with its cycle.
    pub fn end(&mut self, cycle: u64)
        requires early { cycle ≤ MOST_CYCLES }
        requires rest { IsAtRest self.old }
        ensures plain { plain_of self.new ≡ ends cycle (plain_of self.old) }
        ensures rest { IsAtRest self.new }
        ensures only { OnlyPlain self.old self.new }
    {
        self.free = cycle + 1;
    }

    /// The bundle ends with the last of its words, or with its cycle if it has none to move.
    #[tactic(auto, using(crate::proofs::Rests::can_at_rest))]
    pub fn moves(&mut self, transfer: Transfer, cycle: u64)
        requires early { cycle ≤ MOST_CYCLES }
        requires can { CanMove self.old.regs transfer.then }
        requires rest { IsAtRest self.old }
        ensures plain { plain_of self.new ≡ moves transfer cycle (plain_of self.old) }
        ensures can { CanGoOn self.new }
        ensures only { OnlyPlain self.old self.new }
    {
        if transfer.words == 0 {
            self.end(cycle);
        } else {
            self.transfer = transfer;
        }
    }
}
