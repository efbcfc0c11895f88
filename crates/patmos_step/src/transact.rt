ghost use Rattle.std.specs.Prelude.{◌≡◌, ℕ, ◌%◌, ◌≤◌, List, [], ◌∷◌, IfSome, slice_index};
ghost use Rattle.slot_arbiter.specs.declared.place.Place.{Place};
ghost use Rattle.local_store.specs.declared.map.Space.TheVariants.{Main};
ghost use Rattle.patmos_model.specs.Cells.{Acted, cell_of};
ghost use Rattle.patmos_model.specs.Transaction.{line_address};
ghost use Rattle.patmos_step.specs.Ready.{IsReadable, IsLine};
ghost use Rattle.shared_order.specs.Program.{fed, first, others};

use crate::body::Body;
use crate::check::cell_of;
use crate::values::{first, others};
use local_store::{Cell, Space};
use patmos_instr::{Reg, StoreWidth, Width};
use patmos_model::{PendingStore, Then};
use patmos_sem::{arrive, merge, pick};
use slot_arbiter::{Access, MOST_CYCLES, start_of};

/// The most words that a slot moves.
const BURST: u32 = 4;

impl Body {
    ghost use Rattle.patmos_sem.specs.Effects.{width_bytes, store_bytes};
    ghost use Rattle.patmos_model.specs.State.{History};
    ghost use Rattle.shared_order.specs.Program.{Prog};
    ghost use Rattle.data_cache.specs.Accesses.{place_of};
    ghost use Rattle.patmos_model.specs.Cells.{reading_line, with_value};
    ghost use Rattle.patmos_model.specs.Transaction as specs;
    ghost use Rattle.patmos_step.specs.Ready.{StoresWithin, IsReady, IsAwaited, CanMove, IsAtRest, CanGoOn};
    ghost use Rattle.patmos_step.specs.Shown.{Shows, IsAt, IsActed, IsFramed, core_of, plain_of, OnlyPlain, KeepsInterface};

    /// Moves the words of a slot that starts in this cycle.
    #[tactic(auto, using(crate::proofs::Rests::can_at_rest), unfolding(patmos_model::specs::Transaction::transaction))]
    pub fn transact(&mut self, cycle: u64, values: &[u32]) -> Option<PendingStore>
        requires can { CanGoOn self.old }
        requires ready { IsReady cycle self.old.ni }
        ensures done { (s : ℕ) (h : History) → Shows self.old h
            → IsActed self.new result (fed s (specs.transaction cycle (core_of self.old h)) values.now).core }
        ensures ready { IsReady cycle self.new.ni }
        ensures can { CanGoOn self.new }
        ensures frame { IsFramed self.old self.new }
        ensures leaves { StoresWithin self.old.place result }
    {
        let then = self.transfer.then;
        self.transact_then(&then, cycle, values)
    }

    fn transact_then(&mut self, then: &Then, cycle: u64, values: &[u32]) -> Option<PendingStore>
        requires can { CanMove self.old.regs then.now }
        requires ready { IsReady cycle self.old.ni }
        ensures done { (s : ℕ) (h : History) → Shows self.old h
            → IsActed self.new result (fed s
            (specs.transaction_then then.now cycle (core_of self.old h)) values.now).core }
        ensures ready { IsReady cycle self.new.ni }
        ensures rest { IsAtRest self.new }
        ensures frame { IsFramed self.old self.new }
        ensures leaves { StoresWithin self.old.place result }
    {
        match *then {
            Then::Nothing => {
                self.count(cycle);
                None
            }
            Then::Load { rd, width, address } => {
                let word = self.read(main_cell(address), values);
                self.count(cycle);
                self.arrive(rd, width, address, word);
                None
            }
            Then::Line { rd, width, address } => {
                let words = self.read_line(line_cell(address), values);
                self.take_line(rd, width, address, words, cycle);
                None
            }
            Then::Store {
                cached,
                width,
                address,
                value,
            } => {
                self.count(cycle);
                self.write_line(cached, width, address, value);
                self.write(main_cell(address), width, address, value, cycle, values)
            }
        }
    }

    /// The transaction counts among the core's, and the core goes on when its slot ends.
    #[tactic(auto, using(crate::proofs::Traces::trace_grows, crate::proofs::Traces::trace_full))]
    #[inline(always)]
    pub fn count(&mut self, cycle: u64)
        requires early { cycle ≤ MOST_CYCLES }
        ensures plain { plain_of self.new ≡ specs.moved cycle (plain_of self.old) }
        ensures shows { (h : History) → Shows self.old h → Shows self.new (specs.accessed self.old.transfer cycle h) }
        ensures regs { self.new.regs ≡ self.old.regs }
        ensures rest { IsAtRest self.new }
        ensures keeps { KeepsInterface self.old self.new }
    {
        if self.trace.len() < self.room {
            let access = Access {
                cycle,
                write: self.transfer.write,
                words: self.transfer.words.min(BURST),
            };
            self.trace.push_reserved(access);
        }
        self.transfer.words = self.transfer.words.saturating_sub(BURST);
        self.transfer.then = Then::Nothing;
        self.free = cycle + u64::from(self.place.slot);
    }

    /// A load's value is on its way into its register.
    pub fn arrive(&mut self, rd: Reg, width: Width, address: u32, word: u32)
        requires awaited { IsAwaited self.old.regs (width_bytes width) address }
        ensures plain { plain_of self.new ≡ with_value rd width address word (plain_of self.old) }
        ensures rest { IsAtRest self.old → IsAtRest self.new }
        ensures only { OnlyPlain self.old self.new }
    {
        arrive(&mut self.regs, rd, pick(width, address, word));
    }

    // the four words of the line of which this is the first cell: those of the board are heard
    fn read_line(&self, cell: Option<Cell>, values: &[u32]) -> [u32; 4]
        requires cell { IfSome cell IsLine }
        ensures { (s : ℕ) (go_on : List ℕ → Prog Acted)
            → ((words : List ℕ) (more more' : List ℕ)
            → (fed s (go_on words) more).core ≡ (fed s (go_on words) more').core)
            → (fed s (reading_line cell (plain_of self.now) go_on) values.now).core
            ≡ (fed s (go_on result) values.now).core }
    {
        match cell {
            Some(Cell::Private(word)) => [
                self.store.read(Cell::Private(word)),
                self.store.read(Cell::Private(word + 1)),
                self.store.read(Cell::Private(word + 2)),
                self.store.read(Cell::Private(word + 3)),
            ],
            Some(Cell::Shared(_)) => first_four(values),
            None | Some(Cell::Scratch(_) | Cell::Comm(_) | Cell::Port { .. }) => [0; 4],
        }
    }

    // the line comes into the data cache, and with it a load's value
    fn fill_line(&mut self, rd: Reg, width: Width, address: u32, words: [u32; 4])
        requires awaited { IsAwaited self.old.regs (width_bytes width) address }
        ensures plain { plain_of self.new
            ≡ with_value rd width address (slice_index words (place_of address)) (plain_of self.old) }
        ensures shows { (h : History) → Shows self.old h → Shows self.new (specs.with_line address words h) }
        ensures rest { IsAtRest self.old → IsAtRest self.new }
        ensures keeps { KeepsInterface self.old self.new }
    {
        self.arrive(rd, width, address, words[(address / 4 % 4) as usize]);
        self.cache.fill(address, words);
    }

    // the transaction brings a line
    fn take_line(&mut self, rd: Reg, width: Width, address: u32, words: [u32; 4], cycle: u64)
        requires awaited { IsAwaited self.old.regs (width_bytes width) address }
        requires ready { IsReady cycle self.old.ni }
        ensures at { (h : History) → Shows self.old h
            → IsAt self.new (specs.line_taken rd width address words (specs.counted cycle (core_of self.old h))) }
        ensures rest { IsAtRest self.new }
        ensures keeps { KeepsInterface self.old self.new }
    {
        self.count(cycle);
        self.fill_line(rd, width, address, words);
    }

    // a cached store changes the line where it is present
    fn write_line(&mut self, cached: bool, width: StoreWidth, address: u32, value: u32)
        requires aligned { address % store_bytes width ≡ 0 }
        ensures plain { plain_of self.new ≡ plain_of self.old }
        ensures shows { (h : History) → Shows self.old h
            → Shows self.new (specs.with_store cached width address value h) }
        ensures place { self.new.place ≡ self.old.place }
        ensures rest { IsAtRest self.old → IsAtRest self.new }
        ensures keeps { KeepsInterface self.old self.new }
    {
        if cached {
            let old = self.cache.probe(address).unwrap_or(0);
            self.cache.write(address, merge(width, address, old, value));
        }
    }
}

// the cell of the word of main memory that holds an address
#[tactic(auto, using(crate::proofs::MainCells::main_readable))]
fn main_cell(address: u32) -> Option<Cell>
    ensures cell { result ≡ cell_of Main address }
    ensures readable { (place : Place) → IfSome result (IsReadable place) }
{
    cell_of(Space::Main, address)
}

// the first cell of the line of main memory that holds an address
#[tactic(auto, using(crate::proofs::MainCells::main_line))]
fn line_cell(address: u32) -> Option<Cell>
    ensures cell { result ≡ cell_of Main (line_address address) }
    ensures line { IfSome result IsLine }
{
    cell_of(Space::Main, address / 16 * 16)
}

// the values of the next four loads
fn first_four(values: &[u32]) -> [u32; 4]
    ensures { result ≡ first values.now ∷ first (others values.now) ∷ first (others (others values.now))
        ∷ first (others (others (others values.now))) ∷ [] }
{
    let second = others(values);
    let third = others(second);
    [
        first(values),
        first(second),
        first(third),
        first(others(third)),
    ]
}
