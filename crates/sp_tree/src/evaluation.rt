//! The values of expressions.
ghost use Rattle.std.specs.Prelude.{◌≡◌, List, slice_index};
ghost use Rattle.c_world.specs.World.{Sending};
ghost use Rattle.c_world.specs.Shown.{shown};
ghost use Rattle.sp_tree.specs.Plain.{plain_sp};
ghost use Rattle.sp_tree.specs.Values.{sp_value};

use crate::expressions::SpExpr;
use c_world::Memory;

/// What an expression is worth over these words of the frame and these memories. A word that is not there is 0.
/// An operand that is a variable or a number, as most are, is read where its operator stands.
#[cycle(value)]
#[inline(always)]
#[tactic(auto, using(crate::proofs::Parts::const_worth, crate::proofs::Parts::slot_worth))]
pub fn value(e: &SpExpr, frame: &[u32], memory: &Memory) -> u32
    ensures { (sends : List Sending)
        → result ≡ sp_value (slice_index frame.now) (shown memory.now sends) (plain_sp e.now) }
{
    if let SpExpr::Frame { slot } = e {
        return slot_word(frame, *slot as usize);
    }
    if let SpExpr::Const { value } = e {
        return *value;
    }
    applied(e, frame, memory)
}

// what an expression is worth that is gone down to
#[cycle(value)]
#[tactic(auto, using(crate::proofs::Parts::const_worth, crate::proofs::Parts::slot_worth))]
fn applied(e: &SpExpr, frame: &[u32], memory: &Memory) -> u32
    ensures { (sends : List Sending)
        → result ≡ sp_value (slice_index frame.now) (shown memory.now sends) (plain_sp e.now) }
{
    match e {
        SpExpr::Element { array, index } => {
            let index = value(index, frame, memory);
            memory.element(array.region, array.first, array.length, index)
        }
        SpExpr::Unary { op, of } => op.apply(value(of, frame, memory)),
        SpExpr::Binary { op, a, b } => op.apply(value(a, frame, memory), value(b, frame, memory)),
        SpExpr::Scalar { cell } => memory.word(cell.region, cell.word as usize),
        SpExpr::Const { value } => *value,
        SpExpr::Frame { slot } => slot_word(frame, *slot as usize),
    }
}

/// A word of the frame; 0 where there is none.
#[tactic(auto, using(tc_word::proofs::Items::past_all))]
pub fn slot_word(frame: &[u32], slot: usize) -> u32
    ensures { result ≡ slice_index frame.now slot }
{
    if slot < frame.len() { frame[slot] } else { 0 }
}
