//! That a shape is linked where memory is there, which no clause can say.
ghost use Rattle.std.specs.Prelude.{◌≡◌, ◌<◌, [], ◌∷◌, IfOk};
ghost use Rattle.sp_shape.specs.Parts.{straight};
ghost use Rattle.sp_shape.specs.Shown.{parts_of, plain_part, plain_shape};
ghost use Rattle.sp_shape.specs.Small as small;
ghost use Rattle.tc_link.specs.Examples.{second_run};

use crate::expect::expect_same;
use crate::making::{alone, iterations, leave};
use patmos_instr::{Imm12, ImmFunc, Op, Reg};
use sp_shape::{Part, Shape};
use std::alloc::{AllocError, Global};
use std::test::Fail;
use tc_link::link;
use tc_word::List;

// r1 = r1 + n, as a part
#[tactic(auto, unfolding(sp_shape::specs::Shown::plain_part))]
fn add(alloc: Global, n: u32) -> Result<Part, AllocError>
    requires { n < 4096 }
    ensures { IfOk result (λ p. plain_part p ≡ straight (small.add n ∷ [])) }
{
    let bundle = alone(Op::AluImm {
        func: ImmFunc::Add,
        rd: Reg::low(1),
        ra: Reg::low(1),
        imm: Imm12::low(n),
    });
    Ok(Part::Straight {
        bundles: List::of(vec![in alloc; bundle]?),
    })
}

// the function that calls
fn caller(alloc: Global) -> Result<List<Part>, AllocError>
    ensures { IfOk result (λ ps. parts_of ps ≡ small.caller 0) }
{
    let before = add(alloc, 1)?;
    let iterations = iterations(alloc)?;
    let after = add(alloc, 2)?;
    let leave = leave(alloc)?;
    Ok(List::of(vec![in alloc; before, iterations, after, leave]?))
}

// a function that returns at once, and one that calls it, which is run
fn calling(alloc: Global) -> Result<Shape, AllocError>
    ensures { IfOk result (λ s. plain_shape s ≡ second_run) }
{
    let leave = leave(alloc)?;
    let empty = List::of(vec![in alloc; leave]?);
    let caller = caller(alloc)?;
    Ok(Shape {
        functions: List::of(vec![in alloc; empty, caller]?),
        entry: 1,
        initial: List::of(Vec::new(alloc)),
        input_at: 4,
        input_room: 0,
    })
}

// the words as they were worked out by hand: the one that is run stands first
#[test]
fn words_are_those_by_hand(rt: HostRuntime) -> Result<(), Fail> {
    let shape = calling(rt.alloc())?;
    let image = link(rt.alloc(), &shape)?;
    let want = [
        13,
        0x2_1001,
        0x04c0_000f,
        0,
        0,
        0,
        0x0cbf_fffc,
        0,
        0,
        0x2_1002,
        0x0540_0000,
        0,
        0,
        0,
        4,
        0x0540_0000,
        0,
        0,
        0,
    ];
    expect_same(&rt, image.words(), &want);
    expect_same(&rt, image.starts(), &[1, 15]);
    Ok(())
}
