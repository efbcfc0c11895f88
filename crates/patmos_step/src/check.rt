ghost use Rattle.std.specs.Prelude.{◌≡◌, None, IfSome};
ghost use Rattle.local_store.specs.Map.{IsInRange};
ghost use Rattle.patmos_model.specs.Cells.{cell_of};
ghost use Rattle.patmos_model.specs.Checks as specs;

use crate::body::Body;
use local_store::{Cell, Space, where_is};
use patmos_instr::{Mem, StackFunc, StoreWidth, Width};
use patmos_model::Trap;
use patmos_sem::{Effect, load_bytes, store_bytes};
use stack_cache::{STACK_CACHE_WORDS, STACK_END, STACK_LOWEST};

impl Body {
    ghost use Rattle.std.specs.Prelude.{◌≡◌, ◌*◌, ◌/◌};
    ghost use Rattle.patmos_step.specs.Shown.{plain_of};

    /// The check that what a bundle asks for fails, if one does.
    #[tactic(auto, unfolding(patmos_model::specs::Checks::fault_of))]
    pub fn fault(&self, effect: &Effect) -> Option<Trap>
        ensures { result ≡ specs.fault_of (plain_of self.now) effect.now }
    {
        match *effect {
            Effect::Nothing => None,
            Effect::Flow { .. } => check(self.flow.is_none(), Trap::Flow),
            Effect::Load {
                space,
                width,
                address,
                ..
            } => self.load_fault(space, width, address),
            Effect::Store {
                space,
                width,
                address,
                value,
            } => self.store_fault(space, width, address, value),
            Effect::StackOp { func, count } => check(self.has_room(func, count), Trap::Stack),
        }
    }

    /// The check on a load that fails, if one does.
    #[inline(always)]
    pub fn load_fault(&self, space: Mem, width: Width, address: u32) -> Option<Trap>
        ensures { result ≡ specs.load_fault (plain_of self.now) space width address }
    {
        if address % load_bytes(width) != 0 {
            return Some(Trap::Align);
        }
        match space {
            Mem::S => check(self.is_held(address), Trap::Stack),
            Mem::L => self.load_cell_fault(width, cell_of(Space::Local, address)),
            Mem::C | Mem::M => self.load_cell_fault(width, cell_of(Space::Main, address)),
        }
    }

    /// The check on a store that fails, if one does.
    #[inline(always)]
    pub fn store_fault(
        &self,
        space: Mem,
        width: StoreWidth,
        address: u32,
        value: u32,
    ) -> Option<Trap>
        ensures { result ≡ specs.store_fault (plain_of self.now) space width address value }
    {
        if address % store_bytes(width) != 0 {
            return Some(Trap::Align);
        }
        match space {
            Mem::S => check(self.is_held(address), Trap::Stack),
            Mem::L => self.store_cell_fault(width, value, cell_of(Space::Local, address)),
            Mem::C | Mem::M => self.store_cell_fault(width, value, cell_of(Space::Main, address)),
        }
    }

    fn load_cell_fault(&self, width: Width, cell: Option<Cell>) -> Option<Trap>
        ensures { result ≡ specs.load_cell_fault (plain_of self.now).site width cell }
    {
        match cell {
            None => Some(Trap::Access),
            Some(Cell::Port { core, register }) => check(
                self.is_other(core) && width == Width::Word && register == 12,
                Trap::Interface,
            ),
            Some(Cell::Scratch(_) | Cell::Comm(_) | Cell::Private(_) | Cell::Shared(_)) => None,
        }
    }

    fn store_cell_fault(&self, width: StoreWidth, value: u32, cell: Option<Cell>) -> Option<Trap>
        ensures { result ≡ specs.store_cell_fault (plain_of self.now) width value cell }
    {
        match cell {
            None => Some(Trap::Access),
            Some(Cell::Port { core, register }) => {
                check(
                    self.may_store(width, core, register, value),
                    Trap::Interface,
                )
            }
            Some(Cell::Scratch(_) | Cell::Comm(_) | Cell::Private(_) | Cell::Shared(_)) => None,
        }
    }

    // whether a value may be stored in a register of the interface
    fn may_store(&self, width: StoreWidth, core: u32, register: u32, value: u32) -> bool
        ensures { result ≡ specs.may_store (plain_of self.now) width core register value }
    {
        self.is_other(core)
            && width == StoreWidth::Word
            && register != 12
            && (register != 8 || self.ni.accepts(core, value))
    }

    // whether this is another core of the platform
    fn is_other(&self, core: u32) -> bool
        ensures { result ≡ specs.is_other (plain_of self.now).site core }
    {
        core < self.place.cores && core != self.place.core
    }

    // whether a word of the stack is held, counted in bytes from the top
    fn is_held(&self, address: u32) -> bool
        ensures { result ≡ specs.is_held self.now.stack address }
    {
        self.stack.st() + address / 4 < self.stack.ss()
    }

    // whether a stack instruction has room for so many words
    fn has_room(&self, func: StackFunc, count: u32) -> bool
        ensures { result ≡ specs.has_room func count self.now.stack }
    {
        count <= STACK_CACHE_WORDS
            && match func {
                StackFunc::Sres => STACK_LOWEST + count <= self.stack.st(),
                StackFunc::Sens | StackFunc::Sfree => self.stack.st() + count <= STACK_END,
            }
    }
}

// the trap, unless the check holds
fn check(holds: bool, trap: Trap) -> Option<Trap>
    ensures { result ≡ specs.check holds trap None }
{
    if holds { None } else { Some(trap) }
}

/// The cell of the word that holds an address, where there is one.
pub fn cell_of(space: Space, address: u32) -> Option<Cell>
    ensures cell { result ≡ cell_of space address }
    ensures within { IfSome result IsInRange }
{
    where_is(space, address / 4 * 4)
}
