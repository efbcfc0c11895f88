//! Bundles and parts of small shapes, and a small tree.
ghost use Rattle.std.specs.Prelude.{◌≡◌, IfOk};
ghost use Rattle.c_compile.specs.Examples as examples;
ghost use Rattle.sp_shape.specs.Parts.{calls_to, leaves, one, repeats};
ghost use Rattle.sp_shape.specs.Shown.{plain_part};
ghost use Rattle.sp_shape.specs.Small as small;
ghost use Rattle.sp_tree.specs.Shown.{plain_unit};

use patmos_instr::{Addr22, Bundle, Guard, Instr, Off22, Op};
use sp_shape::Part;
use sp_tree::{SpExpr, SpFunction, SpStmt, SpUnit};
use std::alloc::{AllocError, Global};
use tc_word::List;

/// An instruction that is always done, alone.
pub fn alone(op: Op) -> Bundle
    ensures { result ≡ small.under small.always op }
{
    Bundle::single(Instr {
        guard: Guard::low(0),
        op,
    })
}

/// The bundle that does nothing.
pub fn idle() -> Bundle
    ensures { result ≡ small.idle }
{
    Bundle::single(Instr::nop())
}

/// A branch back, and its delay slots.
pub fn again(alloc: Global) -> Result<List<Bundle>, AllocError>
    ensures { IfOk result (λ bs. bs ≡ small.again) }
{
    let branch = Bundle::single(Instr {
        guard: Guard::low(1),
        op: Op::Branch {
            offset: Off22::low(0),
        },
    });
    Ok(List::of(vec![in alloc; branch, idle(), idle()]?))
}

/// A return, and its delay slots.
#[tactic(auto, unfolding(sp_shape::specs::Shown::plain_part))]
pub fn leave(alloc: Global) -> Result<Part, AllocError>
    ensures { IfOk result (λ p. plain_part p ≡ leaves small.return) }
{
    let way_back = alone(Op::Return);
    Ok(Part::Leave {
        tail: List::of(vec![in alloc; way_back, idle(), idle(), idle()]?),
    })
}

// a call of the first function, and its delay slots
#[tactic(auto, unfolding(sp_shape::specs::Shown::plain_part))]
fn call(alloc: Global) -> Result<Part, AllocError>
    ensures { IfOk result (λ p. plain_part p ≡ calls_to 0 small.call) }
{
    let way = alone(Op::Call {
        target: Addr22::low(0),
    });
    Ok(Part::CallTo {
        function: 0,
        tail: List::of(vec![in alloc; way, idle(), idle(), idle()]?),
    })
}

/// Three iterations with a call in each.
pub fn iterations(alloc: Global) -> Result<Part, AllocError>
    ensures { IfOk result (λ p. plain_part p ≡ repeats 3 (one (calls_to 0 small.call)) small.again) }
{
    let call = call(alloc)?;
    let body = List::of(vec![in alloc; call]?);
    let tail = again(alloc)?;
    Ok(Part::Repeat {
        count: 3,
        body,
        tail,
    })
}

/// `int main() { return 9; }`, of one statement that sets word 1 of the frame.
#[tactic(auto, unfolding(sp_tree::specs::Shown::plain_stmt, sp_tree::specs::Plain::plain_sp))]
pub fn nine(alloc: Global) -> Result<SpUnit, AllocError>
    ensures { IfOk result (λ u. plain_unit u ≡ examples.nine) }
{
    let nine = SpStmt::Mask {
        slot: 1,
        value: SpExpr::Const { value: 9 },
    };
    let main = SpFunction {
        frame: 4,
        parameters: 0,
        mask: 0,
        result: 1,
        body: List::of(vec![in alloc; nine]?),
    };
    Ok(SpUnit {
        functions: List::of(vec![in alloc; main]?),
        entry: 0,
        initial: List::of(Vec::new(alloc)),
        input_at: 4,
        input_room: 0,
    })
}
