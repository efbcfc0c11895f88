ghost use Rattle.std.specs.Prelude.{◌≡◌, ℕ, ◌%◌, ◌<◌, List, IfSome, slice_index};
ghost use Rattle.shared_order.specs.Program.{fed};
ghost use Rattle.argo_ni.specs.Packet as packets;
ghost use Rattle.patmos_sem.specs.Effects.{store_bytes};
ghost use Rattle.patmos_model.specs.State.{Core};
ghost use Rattle.patmos_model.specs.Cells as cells;
ghost use Rattle.slot_arbiter.specs.declared.table.TheConstants.{MOST_CORES};

use crate::body::Body;
use crate::values::first;
use local_store::{COMM_WORDS, Cell, PRIVATE_WORDS, SCRATCH_WORDS, SHARED_WORDS};
use patmos_instr::StoreWidth;
use patmos_model::PendingStore;
use patmos_sem::merge;

impl Body {
    ghost use Rattle.shared_order.specs.Words.{put};
    ghost use Rattle.shared_order.specs.Program.{Prog};
    ghost use Rattle.patmos_model.specs.State.{History};
    ghost use Rattle.patmos_model.specs.Cells.{Acted};
    ghost use Rattle.patmos_step.specs.Ready.{StoresWithin, IsReadable, IsReady, IsOther, IsAtRest};
    ghost use Rattle.patmos_step.specs.Shown.{Shows, IsAt, IsActed, IsFramed, core_of, plain_of, OnlyPlain};

    /// The word in a cell: that of the board is the first of the values heard.
    pub fn read(&self, cell: Option<Cell>, values: &[u32]) -> u32
        requires { IfSome cell (IsReadable self.now.place) }
        ensures { (s : ℕ) (go_on : ℕ → Prog Acted)
            → ((word : ℕ) (more more' : List ℕ) → (fed s (go_on word) more).core ≡ (fed s (go_on word) more').core)
            → (fed s (cells.reading cell (plain_of self.now) go_on) values.now).core
            ≡ (fed s (go_on result) values.now).core }
    {
        match cell {
            None => 0,
            Some(Cell::Scratch(word)) => self.store.read(Cell::Scratch(word)),
            Some(Cell::Private(word)) => self.store.read(Cell::Private(word)),
            Some(Cell::Comm(_) | Cell::Shared(_)) => first(values),
            Some(Cell::Port { core, .. }) => self.ni.remaining(core),
        }
    }

    /// Stores a value in a cell, or answers the store to a word of the board that is pending, of which the first value
    /// heard is the old one.
    pub fn write(
        &mut self,
        cell: Option<Cell>,
        width: StoreWidth,
        address: u32,
        value: u32,
        cycle: u64,
        values: &[u32],
    ) -> Option<PendingStore>
        requires aligned { address % store_bytes width ≡ 0 }
        requires cell { IfSome cell (IsReadable self.old.place) }
        requires ready { IsReady cycle self.old.ni }
        ensures stored { (s : ℕ) (h : History) → Shows self.old h
            → IsActed self.new result (fed s
            (cells.writing cell width address value (core_of self.old h)) values.now).core }
        ensures ready { IsReady cycle self.new.ni }
        ensures rest { IsAtRest self.old → IsAtRest self.new }
        ensures frame { IsFramed self.old self.new }
        ensures leaves { StoresWithin self.old.place result }
    {
        match cell {
            None => None,
            Some(Cell::Scratch(word)) => {
                let old = self.store.read(Cell::Scratch(word));
                self.put_scratch(word, merge(width, address, old, value));
                None
            }
            Some(Cell::Private(word)) => {
                let old = self.store.read(Cell::Private(word));
                self.put_private(word, merge(width, address, old, value));
                None
            }
            Some(Cell::Comm(word)) => {
                let board = comm_word(self.place.core, word);
                pending_store(board, width, address, value, values)
            }
            Some(Cell::Shared(word)) => pending_store(word, width, address, value, values),
            Some(Cell::Port { core, register }) => {
                self.set_port(core, register, value, cycle);
                None
            }
        }
    }

    /// Stores a word of the scratchpad.
    #[tactic(auto, using(shared_order::proofs::Words::words_put))]
    pub fn put_scratch(&mut self, word: u32, value: u32)
        requires { word < SCRATCH_WORDS }
        ensures plain { plain_of self.new
            ≡ record (plain_of self.old) { scratch = put word value (slice_index self.old.store.scratch) } }
        ensures rest { IsAtRest self.old → IsAtRest self.new }
        ensures only { OnlyPlain self.old self.new }
    {
        self.store.write(Cell::Scratch(word), value);
    }

    /// Stores a word of private memory.
    #[tactic(auto, using(shared_order::proofs::Words::words_put))]
    pub fn put_private(&mut self, word: u32, value: u32)
        requires { word < PRIVATE_WORDS }
        ensures plain { plain_of self.new
            ≡ record (plain_of self.old) { private = put word value (slice_index self.old.store.private) } }
        ensures rest { IsAtRest self.old → IsAtRest self.new }
        ensures only { OnlyPlain self.old self.new }
    {
        self.store.write(Cell::Private(word), value);
    }

    // stores a value in a register of the interface for another core
    fn set_port(&mut self, core: u32, register: u32, value: u32, cycle: u64)
        requires other { IsOther self.old.place core }
        requires ready { IsReady cycle self.old.ni }
        ensures set { (h : History) → Shows self.old h
            → IsAt self.new (cells.port_set core register value (core_of self.old h)) }
        ensures ready { IsReady cycle self.new.ni }
        ensures rest { IsAtRest self.old → IsAtRest self.new }
        ensures frame { IsFramed self.old self.new }
    {
        match register {
            0 => self.ni.set_source(core, value),
            4 => self.ni.set_target(core, value),
            _ => {
                let _started = self.ni.start(core, value, cycle);
            }
        }
    }
}

/// The number on the board of a word of a core's communication memory.
pub fn comm_word(core: u32, word: u32) -> u32
    requires core { core < MOST_CORES }
    requires word { word < COMM_WORDS }
    ensures { result ≡ packets.comm_word core word }
{
    SHARED_WORDS + COMM_WORDS * core + word
}

// what is still to be stored in a word of the board, of which the first value heard is the old one
fn pending_store(
    word: u32,
    width: StoreWidth,
    address: u32,
    value: u32,
    values: &[u32],
) -> Option<PendingStore>
    requires aligned { address % store_bytes width ≡ 0 }
    ensures leaves { (s : ℕ) (c : Core)
        → (fed s (cells.storing word width address value c) values.now).core
        ≡ record { core = c; pending_store = result } }
    ensures within { IfSome result (λ o. o.word ≡ word) }
{
    match width {
        StoreWidth::Word => None,
        StoreWidth::Half | StoreWidth::Byte => {
            let value = merge(width, address, first(values), value);
            Some(PendingStore { word, value })
        }
    }
}
