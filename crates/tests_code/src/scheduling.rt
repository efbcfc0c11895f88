//! That a shape is scheduled where memory is there, which no clause can say.
ghost use Rattle.std.specs.Prelude.{◌≡◌, [], ◌∷◌, IfOk};
ghost use Rattle.sp_shape.specs.Parts.{part, straight};
ghost use Rattle.sp_shape.specs.Shown.{plain_shape};
ghost use Rattle.sp_shape.specs.Small as small;

use crate::expect::expect_same;
use crate::making::{alone, idle, leave};
use bundle_sched::schedule;
use patmos_instr::{Bundle, Imm7, Imm12, ImmFunc, Mem, Op, Reg, Width};
use sp_shape::{Part, Shape};
use std::alloc::{AllocError, Global};
use std::test::Fail;
use tc_word::List;

// r1 = the first word of the scratchpad
fn load() -> Bundle
    ensures { result ≡ small.load }
{
    alone(Op::Load {
        space: Mem::L,
        width: Width::Word,
        rd: Reg::low(1),
        ra: Reg::low(0),
        imm: Imm7::low(0),
    })
}

// r1 = r1 + 1
fn add() -> Bundle
    ensures { result ≡ small.add 1 }
{
    alone(Op::AluImm {
        func: ImmFunc::Add,
        rd: Reg::low(1),
        ra: Reg::low(1),
        imm: Imm12::low(1),
    })
}

// a word is loaded, and the next bundle adds to it
#[tactic(auto, unfolding(sp_shape::specs::Shown::plain_part))]
fn loading(alloc: Global) -> Result<Shape, AllocError>
    ensures { IfOk result (λ s. plain_shape s
        ≡ small.shape_of (part (straight (small.load ∷ small.add 1 ∷ [])) small.empty ∷ []) 0) }
{
    let leave = leave(alloc)?;
    let straight = Part::Straight {
        bundles: List::of(vec![in alloc; load(), add()]?),
    };
    let function = List::of(vec![in alloc; straight, leave]?);
    Ok(Shape {
        functions: List::of(vec![in alloc; function]?),
        entry: 0,
        initial: List::of(Vec::new(alloc)),
        input_at: 4,
        input_room: 0,
    })
}

// the bundles of straight code, or those of a return and its delay slots
fn bundles_of(part: Option<&Part>) -> Option<&[Bundle]> {
    match part {
        Some(Part::Straight { bundles } | Part::Leave { tail: bundles }) => Some(
            bundles.as_slice(),
        ),
        _ => None,
    }
}

// the addition goes into the return's first delay slot; the load is the last of its piece, so that its value is awaited
#[test]
fn an_addition_fills_a_delay_slot(rt: HostRuntime) -> Result<(), Fail> {
    let shape = loading(rt.alloc())?;
    let shape = schedule(rt.alloc(), shape)?;
    let functions = shape.functions.as_slice();
    expect_same(&rt, functions.len(), 1);
    let parts = functions.first().expect(&rt, "a function").as_slice();
    expect_same(&rt, parts.len(), 2);
    let before = [load(), idle()];
    expect_same(&rt, bundles_of(parts.first()), Some(before.as_slice()));
    let way = [alone(Op::Return), add(), idle(), idle()];
    expect_same(&rt, bundles_of(parts.get(1)), Some(way.as_slice()));
    Ok(())
}
