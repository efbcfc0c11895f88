ghost use Rattle.std.specs.Prelude.{◌≡◌, ℕ, ◌+◌, ◌^◌, ◌<◌, ◌%◌, true, None};
ghost use Rattle.patmos_model.specs.Bundle as bundles;
ghost use Rattle.patmos_model.specs.Flows as flows;

use crate::body::Body;
use crate::check::cell_of;
use local_store::Space;
use patmos_instr::{Bundle, Mem, Reg, StoreWidth, Width};
use patmos_model::{Flow, Goal, PendingStore, Then, Transfer};
use patmos_sem::{Effect, FlowKind, Pending, arrive, asked_by, merge, pick, write_back};

impl Body {
    ghost use Rattle.shared_order.specs.Program.{fed};
    ghost use Rattle.patmos_sem.specs.declared.pending.Pending.TheVariants as pending;
    ghost use Rattle.patmos_sem.specs.Effects.{width_bytes, store_bytes};
    ghost use Rattle.patmos_model.specs.State.{History};
    ghost use Rattle.stack_cache.specs.Stack.{IsStack};
    ghost use Rattle.patmos_sem.specs.Bundles.{effect_of, OnLoad};
    ghost use Rattle.patmos_model.specs.declared.transfer.Then.TheVariants as then_on;
    ghost use Rattle.patmos_model.specs.Transfers.{writes};
    ghost use Rattle.patmos_model.specs.Checks.{load_fault, store_fault, is_held};
    ghost use Rattle.patmos_model.specs.Cells.{with_value};
    ghost use Rattle.patmos_step.specs.Plan.{passed};
    ghost use Rattle.patmos_step.specs.Ready.{StoresWithin, IsReady, IsGranted, IsAtRest, CanGoOn};
    ghost use Rattle.patmos_step.specs.Shown.{Shows, IsAt, IsActed, IsFramed, core_of, plain_of, OnlyPlain, KeepsInterface};

    /// Does a bundle of so many words, unless a check fails.
    pub fn perform(
        &mut self,
        bundle: &Bundle,
        words: u32,
        cycle: u64,
        values: &[u32],
    ) -> Option<PendingStore>
        requires within { self.old.offset + words < 2 ^ 32 }
        requires ready { IsReady cycle self.old.ni }
        requires unmoved { self.old.transfer.words ≡ 0 }
        requires can { CanGoOn self.old }
        ensures done { (s : ℕ) (h : History) → Shows self.old h
            → IsActed self.new result (fed s
            (bundles.performed words bundle.now cycle (core_of self.old h)) values.now).core }
        ensures ready { IsReady cycle self.new.ni }
        ensures can { CanGoOn self.new }
        ensures frame { IsFramed self.old self.new }
        ensures leaves { StoresWithin self.old.place result }
    {
        let effect = asked_by(&self.regs, bundle);
        if let Some(trap) = self.fault(&effect) {
            self.stop(trap, cycle);
            return None;
        }
        self.advance(bundle, words, &effect);
        self.answer(&effect, cycle, values)
    }

    /// The registers, the offset and the flow after a bundle of so many words, which asks for this.
    pub fn advance(&mut self, bundle: &Bundle, words: u32, effect: &Effect)
        requires within { self.old.offset + words < 2 ^ 32 }
        requires asks { effect.now ≡ effect_of bundle.now self.old.regs }
        ensures plain { plain_of self.new ≡ bundles.advanced words bundle.now (plain_of self.old) }
        ensures pending { OnLoad effect.now (self.new.regs.pending ≡ pending.Nothing) }
        ensures stack { self.new.stack ≡ self.old.stack }
        ensures held { IsStack self.new.stack }
        ensures rest { IsAtRest self.old → IsAtRest self.new }
        ensures only { OnlyPlain self.old self.new }
    {
        write_back(&mut self.regs, bundle, self.stack.st(), self.stack.ss());
        self.pass(words, effect);
    }

    /// The offset and the flow after a bundle of so many words, which asks for this.
    pub fn pass(&mut self, words: u32, effect: &Effect)
        requires within { self.old.offset + words < 2 ^ 32 }
        ensures plain { plain_of self.new ≡ passed words effect.now (plain_of self.old) }
        ensures regs { self.new.regs ≡ self.old.regs }
        ensures stack { self.new.stack ≡ self.old.stack }
        ensures rest { IsAtRest self.old → IsAtRest self.new }
        ensures only { OnlyPlain self.old self.new }
    {
        match &mut self.flow {
            Some(flow) => flow.slots = flow.slots.saturating_sub(1),
            None => {
                if let Effect::Flow { kind } = *effect {
                    self.flow = Some(asked_flow(self.offset, kind));
                }
            }
        }
        self.offset += words;
    }

    // does what the bundle asked for, which no check fails
    #[tactic(auto, using(crate::proofs::Rests::can_at_rest))]
    fn answer(&mut self, effect: &Effect, cycle: u64, values: &[u32]) -> Option<PendingStore>
        requires fits { IsGranted effect.now (plain_of self.old) }
        requires stack { IsStack self.old.stack }
        requires pending { OnLoad effect.now (self.old.regs.pending ≡ pending.Nothing) }
        requires ready { IsReady cycle self.old.ni }
        requires rest { IsAtRest self.old }
        ensures done { (s : ℕ) (h : History) → Shows self.old h
            → IsActed self.new result (fed s (bundles.answered effect.now cycle (core_of self.old h)) values.now).core }
        ensures ready { IsReady cycle self.new.ni }
        ensures can { CanGoOn self.new }
        ensures frame { IsFramed self.old self.new }
        ensures leaves { StoresWithin self.old.place result }
    {
        match *effect {
            Effect::Nothing | Effect::Flow { .. } => {
                self.end(cycle);
                None
            }
            Effect::Load {
                space,
                width,
                rd,
                address,
            } => {
                self.load(space, width, rd, address, cycle, values);
                None
            }
            Effect::Store {
                space,
                width,
                address,
                value,
            } => self.store(space, width, address, value, cycle, values),
            Effect::StackOp { func, count } => {
                self.stack_op(func, count, cycle);
                None
            }
        }
    }

    // a load
    #[tactic(auto, using(crate::proofs::Rests::can_at_rest))]
    fn load(&mut self, space: Mem, width: Width, rd: Reg, address: u32, cycle: u64, values: &[u32])
        requires fits { load_fault (plain_of self.old) space width address ≡ None }
        requires pending { self.old.regs.pending ≡ pending.Nothing }
        requires ready { IsReady cycle self.old.ni }
        requires rest { IsAtRest self.old }
        ensures done { (s : ℕ) (h : History) → Shows self.old h
            → IsActed self.new None (fed s
            (bundles.loaded space width rd address cycle (core_of self.old h)) values.now).core }
        ensures can { CanGoOn self.new }
        ensures keeps { KeepsInterface self.old self.new }
    {
        match space {
            Mem::S => {
                let word = self.stack.get(address / 4).unwrap_or(0);
                self.load_value(rd, width, address, word, cycle);
            }
            Mem::L => {
                let word = self.read(cell_of(Space::Local, address), values);
                self.load_value(rd, width, address, word, cycle);
            }
            Mem::C => self.load_cached(rd, width, address, cycle),
            Mem::M => {
                let then = Then::Load { rd, width, address };
                self.moves(Transfer::read(1, then), cycle);
            }
        }
    }

    // a load's value comes in the bundle's cycle
    fn load_value(&mut self, rd: Reg, width: Width, address: u32, word: u32, cycle: u64)
        requires aligned { address % width_bytes width ≡ 0 }
        requires pending { self.old.regs.pending ≡ pending.Nothing }
        requires ready { IsReady cycle self.old.ni }
        requires rest { IsAtRest self.old }
        ensures plain { plain_of self.new ≡ bundles.ends cycle (with_value rd width address word (plain_of self.old)) }
        ensures rest { IsAtRest self.new }
        ensures only { OnlyPlain self.old self.new }
    {
        arrive(&mut self.regs, rd, pick(width, address, word));
        self.end(cycle);
    }

    // a cached load: of a word that the cache has, or else of its line
    #[tactic(auto, using(crate::proofs::Rests::can_at_rest))]
    fn load_cached(&mut self, rd: Reg, width: Width, address: u32, cycle: u64)
        requires aligned { address % width_bytes width ≡ 0 }
        requires pending { self.old.regs.pending ≡ pending.Nothing }
        requires ready { IsReady cycle self.old.ni }
        requires rest { IsAtRest self.old }
        ensures done { (h : History) → Shows self.old h
            → IsAt self.new (bundles.cache_loaded rd width address cycle (core_of self.old h)) }
        ensures can { CanGoOn self.new }
        ensures keeps { KeepsInterface self.old self.new }
    {
        match self.cache.probe(address) {
            Some(word) => self.load_value(rd, width, address, word, cycle),
            None => {
                let then = Then::Line { rd, width, address };
                self.moves(Transfer::read(4, then), cycle);
            }
        }
    }

    // a store
    #[tactic(auto, using(crate::proofs::Rests::can_at_rest))]
    fn store(
        &mut self,
        space: Mem,
        width: StoreWidth,
        address: u32,
        value: u32,
        cycle: u64,
        values: &[u32],
    ) -> Option<PendingStore>
        requires fits { store_fault (plain_of self.old) space width address value ≡ None }
        requires ready { IsReady cycle self.old.ni }
        requires rest { IsAtRest self.old }
        ensures done { (s : ℕ) (h : History) → Shows self.old h
            → IsActed self.new result (fed s
            (bundles.stored space width address value cycle (core_of self.old h)) values.now).core }
        ensures ready { IsReady cycle self.new.ni }
        ensures can { CanGoOn self.new }
        ensures frame { IsFramed self.old self.new }
        ensures leaves { StoresWithin self.old.place result }
    {
        match space {
            Mem::S => {
                self.store_stack(width, address, value);
                self.end(cycle);
                None
            }
            Mem::L => {
                self.end(cycle);
                let cell = cell_of(Space::Local, address);
                self.write(cell, width, address, value, cycle, values)
            }
            Mem::C => {
                self.store_later(true, width, address, value, cycle);
                None
            }
            Mem::M => {
                self.store_later(false, width, address, value, cycle);
                None
            }
        }
    }

    // a store to main memory, whose word moves later
    fn store_later(&mut self, cached: bool, width: StoreWidth, address: u32, value: u32, cycle: u64)
        requires ready { IsReady cycle self.old.ni }
        requires aligned { address % store_bytes width ≡ 0 }
        requires rest { IsAtRest self.old }
        ensures plain { plain_of self.new
            ≡ bundles.moves (writes 1 (then_on.Store cached width address value)) cycle (plain_of self.old) }
        ensures can { CanGoOn self.new }
        ensures only { OnlyPlain self.old self.new }
    {
        let then = Then::Store {
            cached,
            width,
            address,
            value,
        };
        self.moves(Transfer::write(1, then), cycle);
    }

    /// A store to a word of the stack that is held.
    pub fn store_stack(&mut self, width: StoreWidth, address: u32, value: u32)
        requires aligned { address % store_bytes width ≡ 0 }
        requires held { is_held self.old.stack address ≡ true }
        ensures plain { plain_of self.new
            ≡ record (plain_of self.old) { stack = bundles.stack_set width address value self.old.stack } }
        ensures rest { IsAtRest self.old → IsAtRest self.new }
        ensures only { OnlyPlain self.old self.new }
    {
        let Some(old) = self.stack.get(address / 4) else {
            unreachable!()
        };
        let Some(()) = self
            .stack
            .set(address / 4, merge(width, address, old, value))
        else {
            unreachable!()
        };
    }
}

// a flow that a bundle at an offset asks for
fn asked_flow(offset: u32, kind: FlowKind) -> Flow
    ensures { result ≡ flows.flow_of offset kind }
{
    let (goal, slots) = match kind {
        FlowKind::Branch { offset: by } => {
            let offset = branch_target(offset, by);
            (Goal::Within { offset }, 2)
        }
        FlowKind::Call { target } => (Goal::Call { target }, 3),
        FlowKind::BranchFill { target } => (Goal::Fill { target }, 3),
        FlowKind::Return { base, offset } => (Goal::Return { base, offset }, 3),
    };
    Flow { goal, slots }
}

// the offset that a branch goes to
#[tactic(auto, using(crate::proofs::Branches::target_is))]
pub fn branch_target(offset: u32, by: i32) -> u32
    ensures { result ≡ flows.branch_target offset by }
{
    offset.wrapping_add(by.cast_unsigned())
}
