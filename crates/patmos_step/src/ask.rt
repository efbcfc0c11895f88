ghost use Rattle.std.specs.Prelude.{◌≡◌, IfSome};
ghost use Rattle.local_store.specs.Map.{IsInRange};
ghost use Rattle.patmos_step.specs.Asks as specs;

use crate::body::Body;
use crate::cells::comm_word;
use crate::check::cell_of;
use crate::plan::Plan;
use local_store::{Cell, Space};
use patmos_instr::{Bundle, Mem, Op, Reg, StoreWidth, Width};
use patmos_model::{Fetched, Then};
use patmos_sem::{Effect, asked_by};
use slot_arbiter::MOST_CYCLES;

/// What a core's own act in a cycle asks of the board.
#[derive(Clone, Copy, Debug, PartialEq, Eq)]
pub enum Ask {
    /// Nothing.
    Nothing,
    /// A word is loaded.
    Load { word: u32 },
    /// Four words are loaded, by rising number from this one on.
    Line { word: u32 },
    /// A value is stored in a word.
    Store { word: u32, value: u32 },
    /// A part of a word is stored: the word is loaded, and the store of what it is to hold is then pending.
    Change { word: u32 },
}

impl Body {
    ghost use Rattle.std.specs.Prelude.{◌≡◌, ◌≢◌, ℕ, ◌≤◌, true};
    ghost use Rattle.data_cache.specs.Lines.{word_at};
    ghost use Rattle.argo_ni.specs.Interface.{Interface};
    ghost use Rattle.argo_ni.specs.Packet as packets;
    ghost use Rattle.patmos_model.specs.State.{History};
    ghost use Rattle.patmos_model.specs.Cycle.{own, with_interface};
    ghost use Rattle.patmos_model.specs.Transaction.{is_due};
    ghost use Rattle.patmos_step.specs.declared.ask.Ask.TheVariants as asks;
    ghost use Rattle.patmos_step.specs.Moving.{HasToMove};
    ghost use Rattle.patmos_step.specs.Plan.{planned, carried_out};
    ghost use Rattle.patmos_step.specs.Asks.{FollowsAsk, AskFits, then_ask};
    ghost use Rattle.patmos_step.specs.Ready.{HasRegisters};
    ghost use Rattle.patmos_step.specs.Shown.{Shows, core_of, plain_of};

    /// What the core asks for in its own act in the cycle, by its plan.
    #[tactic(auto, using(crate::proofs::PlanAsks::plan_follows, crate::proofs::PlanAsks::plan_within))]
    pub fn ask(&self, plan: &Plan, cycle: u64) -> Ask
        requires plan { plan.now ≡ planned cycle (plain_of self.now) }
        requires early { cycle ≤ MOST_CYCLES }
        ensures follows { (h : History) (i : Interface) → Shows self.now h → HasRegisters i self.now.ni.interface
            → FollowsAsk result (carried_out plan.now cycle (with_interface (core_of self.now h) i)) }
        ensures within { AskFits (packets.comm_word self.now.place.cores 0) result }
    {
        self.ask_of_plan(plan, cycle)
    }

    /// What words that are to be moved ask for in the cycle in which they move, known without a plan.
    #[inline(always)]
    #[tactic(auto, using(crate::proofs::PlanAsks::moved_follows, crate::proofs::PlanAsks::moved_within))]
    pub fn ask_of_moved(&self) -> Ask
        ensures asks { HasToMove (plain_of self.now) → result
            ≡ then_ask (plain_of self.now).site self.now.transfer.then }
        ensures some { result ≢ asks.Nothing → HasToMove (plain_of self.now) }
        ensures follows { result ≢ asks.Nothing → (cycle : ℕ) (h : History) (i : Interface)
            → is_due cycle (plain_of self.now) ≡ true
            → FollowsAsk result (own cycle (with_interface (core_of self.now h) i)) }
        ensures within { AskFits (packets.comm_word self.now.place.cores 0) result }
    {
        if !self.is_moving() {
            return Ask::Nothing;
        }
        self.ask_of_then(&self.transfer.then)
    }

    // what the plan asks for
    fn ask_of_plan(&self, plan: &Plan, cycle: u64) -> Ask
        requires early { cycle ≤ MOST_CYCLES }
        ensures { result ≡ specs.plan_ask plan.now cycle (plain_of self.now) (word_at self.now.cache) }
    {
        match *plan {
            Plan::Nothing | Plan::Does(Fetched::Outside | Fetched::NoBundle) => Ask::Nothing,
            Plan::Waits => self.ask_of_wait(cycle),
            Plan::Does(Fetched::Found { bundle, .. }) => self.ask_of_bundle(&bundle, cycle),
        }
    }

    // what words that are still to be moved ask for
    fn ask_of_wait(&self, cycle: u64) -> Ask
        requires early { cycle ≤ MOST_CYCLES }
        ensures { result ≡ specs.wait_ask cycle (plain_of self.now) }
    {
        match self.ask_of_then(&self.transfer.then) {
            Ask::Nothing => Ask::Nothing,
            ask => {
                if self.is_due(cycle) {
                    ask
                } else {
                    Ask::Nothing
                }
            }
        }
    }

    // what a bundle asks for: only its first operation can, and its checks come first
    fn ask_of_bundle(&self, bundle: &Bundle, cycle: u64) -> Ask
        requires early { cycle ≤ MOST_CYCLES }
        ensures { result ≡ specs.bundle_ask cycle (plain_of self.now) (word_at self.now.cache) bundle.now }
    {
        if !is_access(&bundle.first_slot().op) {
            return Ask::Nothing;
        }
        let effect = asked_by(&self.regs, bundle);
        match self.fault(&effect) {
            None => self.ask_of_effect(&effect, cycle),
            Some(_) => Ask::Nothing,
        }
    }

    // what comes of a bundle that passes its checks
    fn ask_of_effect(&self, effect: &Effect, cycle: u64) -> Ask
        requires early { cycle ≤ MOST_CYCLES }
        ensures { result ≡ specs.effect_ask cycle (plain_of self.now).site (word_at self.now.cache) effect.now }
    {
        match *effect {
            Effect::Load {
                space,
                width,
                rd,
                address,
            } => self.ask_of_load(space, width, rd, address, cycle),
            Effect::Store {
                space,
                width,
                address,
                value,
            } => self.ask_of_store(space, width, address, value, cycle),
            Effect::Nothing | Effect::Flow { .. } | Effect::StackOp { .. } => Ask::Nothing,
        }
    }

    // what a load asks for
    fn ask_of_load(&self, space: Mem, width: Width, rd: Reg, address: u32, cycle: u64) -> Ask
        requires early { cycle ≤ MOST_CYCLES }
        ensures { result ≡ specs.loaded_ask cycle (plain_of self.now).site
            (word_at self.now.cache) space width rd address }
    {
        match space {
            Mem::S => Ask::Nothing,
            Mem::L => self.ask_of_cell_load(cell_of(Space::Local, address)),
            Mem::C => match self.cache.probe(address) {
                Some(_) => Ask::Nothing,
                None => self.ask_in_slot(&Then::Line { rd, width, address }, cycle),
            },
            Mem::M => self.ask_in_slot(&Then::Load { rd, width, address }, cycle),
        }
    }

    // what a store asks for
    fn ask_of_store(
        &self,
        space: Mem,
        width: StoreWidth,
        address: u32,
        value: u32,
        cycle: u64,
    ) -> Ask
        requires early { cycle ≤ MOST_CYCLES }
        ensures { result ≡ specs.stored_ask cycle (plain_of self.now).site space width address value }
    {
        let cached = match space {
            Mem::S => return Ask::Nothing,
            Mem::L => return self.ask_of_cell_store(cell_of(Space::Local, address), width, value),
            Mem::C => true,
            Mem::M => false,
        };
        let then = Then::Store {
            cached,
            width,
            address,
            value,
        };
        self.ask_in_slot(&then, cycle)
    }

    // what words that a bundle leaves to be moved ask for in its own cycle
    fn ask_in_slot(&self, then: &Then, cycle: u64) -> Ask
        requires early { cycle ≤ MOST_CYCLES }
        ensures { result ≡ specs.slot_ask cycle (plain_of self.now).site then.now }
    {
        match self.ask_of_then(then) {
            Ask::Nothing => Ask::Nothing,
            ask => {
                if self.is_slot_start(cycle) {
                    ask
                } else {
                    Ask::Nothing
                }
            }
        }
    }

    // what words that are moved ask for
    fn ask_of_then(&self, then: &Then) -> Ask
        ensures { result ≡ specs.then_ask (plain_of self.now).site then.now }
    {
        match *then {
            Then::Nothing => Ask::Nothing,
            Then::Load { address, .. } => self.ask_of_cell_load(cell_of(Space::Main, address)),
            Then::Line { address, .. } => ask_of_line(cell_of(Space::Main, address / 16 * 16)),
            Then::Store {
                width,
                address,
                value,
                ..
            } => self.ask_of_cell_store(cell_of(Space::Main, address), width, value),
        }
    }

    // what a load from a cell asks for
    fn ask_of_cell_load(&self, cell: Option<Cell>) -> Ask
        requires { IfSome cell IsInRange }
        ensures { result ≡ specs.load_ask (plain_of self.now).site cell }
    {
        match cell {
            Some(Cell::Comm(word)) => Ask::Load {
                word: comm_word(self.place.core, word),
            },
            Some(Cell::Shared(word)) => Ask::Load { word },
            None | Some(Cell::Scratch(_) | Cell::Private(_) | Cell::Port { .. }) => Ask::Nothing,
        }
    }

    // what a store in a cell asks for
    fn ask_of_cell_store(&self, cell: Option<Cell>, width: StoreWidth, value: u32) -> Ask
        requires { IfSome cell IsInRange }
        ensures { result ≡ specs.store_ask (plain_of self.now).site cell width value }
    {
        match cell {
            Some(Cell::Comm(word)) => ask_of_word(comm_word(self.place.core, word), width, value),
            Some(Cell::Shared(word)) => ask_of_word(word, width, value),
            None | Some(Cell::Scratch(_) | Cell::Private(_) | Cell::Port { .. }) => Ask::Nothing,
        }
    }
}

// what a load of the line of which this is the first cell asks for
fn ask_of_line(cell: Option<Cell>) -> Ask
    ensures { result ≡ specs.line_ask cell }
{
    match cell {
        Some(Cell::Shared(word)) => Ask::Line { word },
        None | Some(Cell::Scratch(_) | Cell::Comm(_) | Cell::Private(_) | Cell::Port { .. }) => {
            Ask::Nothing
        }
    }
}

// what a store in a word of the board asks for
fn ask_of_word(word: u32, width: StoreWidth, value: u32) -> Ask
    ensures { result ≡ specs.word_ask word width value }
{
    match width {
        StoreWidth::Word => Ask::Store { word, value },
        StoreWidth::Half | StoreWidth::Byte => Ask::Change { word },
    }
}

// whether an operation is a load or a store
fn is_access(op: &Op) -> bool
    ensures { result ≡ specs.is_access op.now }
{
    matches!(op, Op::Load { .. } | Op::Store { .. })
}
