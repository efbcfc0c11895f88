ghost use Rattle.std.specs.Prelude.{IsTrue};
ghost use Rattle.patmos_syntax.specs.Beside.{fits_beside};

use patmos_forms::JumpKind;
use patmos_instr::{Bundle, Guard, Instr, Op};

/// An operation, or a jump to what has this name.
#[derive(Drop)]
pub enum Draft {
    Ready { op: Op },
    To { flow: JumpKind, name: Vec<u8> },
}

/// An instruction whose target may still be a name.
#[derive(Drop)]
pub struct DraftInstr {
    pub guard: Guard,
    pub draft: Draft,
}

/// A bundle whose first instruction jumps to a name. The one beside it is of a kind for its slot.
#[derive(Drop)]
pub struct Jump {
    pub guard: Guard,
    pub flow: JumpKind,
    pub name: Vec<u8>,
    pub beside: Option<Instr>,
    ghost fits: { IsTrue (fits_beside beside) },
}

/// A bundle whose target may still be a name.
#[derive(Drop)]
pub enum DraftBundle {
    Ready { bundle: Bundle },
    Waiting { jump: Jump },
}
