ghost use Rattle.std.specs.Prelude.{◌≡◌, ◌+◌, ◌≤◌, length, vec_capacity};
ghost use Rattle.patmos_model.specs.Site.{size_at};
ghost use Rattle.patmos_step.specs.Code.{IsCodeOf};
ghost use Rattle.patmos_step.specs.Sound.{IsPortOf, HasAllWords};

use crate::code::Decoded;
use argo_ni::Ni;
use data_cache::DataCache;
use local_store::Store;
use method_cache::MethodCache;
use patmos_code::Image;
use patmos_model::{Flow, Status, Transfer, Trap};
use patmos_sem::Regs;
use slot_arbiter::{Access, Place};
use stack_cache::StackCache;

/// All that a core with a task is between two of its acts: its registers, memories, caches and interface, where
/// it is in its code, what it still has to move, and its first transactions.
#[derive(Drop)]
pub struct Body {
    pub place: Place,
    pub image: Image,
    /// What begins at each word of the image.
    pub code: Vec<Decoded>,
    pub regs: Regs,
    pub stack: StackCache,
    pub store: Store,
    pub ni: Ni,
    pub methods: MethodCache,
    pub cache: DataCache,
    /// The place at which the core's function starts, and its size in words.
    pub base: u32,
    pub size: u32,
    /// The offset of the next bundle in the function.
    pub offset: u32,
    pub flow: Option<Flow>,
    pub transfer: Transfer,
    /// The cycle from which on the core goes on.
    pub free: u64,
    pub status: Status,
    /// The first transactions, at most `room` of them.
    pub trace: Vec<Access>,
    pub room: usize,
    ghost words: { HasAllWords store },
    ghost port: { IsPortOf place ni },
    ghost decoded: { IsCodeOf image.words code.items },
    ghost sized: { size ≡ size_at image base },
    ghost inside: { base + size ≤ length image.words },
    ghost roomy: { room ≤ vec_capacity trace },
}

impl Body {
    ghost use Rattle.patmos_model.specs.State.{stopped};
    ghost use Rattle.patmos_step.specs.Ready.{CanGoOn};
    ghost use Rattle.patmos_step.specs.Shown.{plain_of, OnlyPlain};

    /// Stops the core in a cycle.
    pub fn stop(&mut self, trap: Trap, cycle: u64)
        ensures stopped { plain_of self.new ≡ stopped trap cycle (plain_of self.old) }
        ensures can { CanGoOn self.old → CanGoOn self.new }
        ensures only { OnlyPlain self.old self.new }
    {
        self.status = Status::Trapped { trap, at: cycle };
    }
}
