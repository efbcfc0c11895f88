ghost use Rattle.std.specs.Prelude.{◌≡◌, IfOk};
ghost use Rattle.pipe_five.specs.Pipe.{limit_of};

use crate::cores::image_of;
use crate::expect::expect_same;
use patmos_instr::Reg;
use pipe_five::{Beat, CoreState, PipeCore, worked_ends, worked_flows, worked_load, worked_steps};
use slot_arbiter::Place;
use std::alloc::{AllocError, Global};
use std::test::Fail;

/// The only core of a platform, whose task is `addi r1 = r0, 7; ret; nop; nop; nop`.
fn seven(alloc: Global, place: Place) -> Result<PipeCore, AllocError>
    requires alone { place.cores ≡ 1 }
    ensures limit { IfOk result (λ core. limit_of core ≡ 0) }
{
    let image = image_of(alloc, &[5, 0x0002_0007, 0x0540_0000, 0, 0, 0])?;
    PipeCore::new(alloc, place, &image, &[])
}

// six words are fetched in the slots at 0 and 6, and five bundles follow; r1 is written when its bundle is written back
#[test]
fn a_task_goes_through_the_stages(rt: HostRuntime) -> Result<(), Fail> {
    let place = Place::new(1, 0, 6, 0).expect(&rt, "a place");
    let mut core = seven(rt.alloc(), place)?;
    assert_eq!(rt; core.advance(12), Beat::Stopped);
    expect_same(&rt, core.state(), CoreState::Running);
    for (cycle, stages, r1) in [
        (12, [Some(3), Some(2), Some(1), None, None], 0),
        (13, [Some(4), Some(3), Some(2), Some(1), None], 0),
        (14, [Some(5), Some(4), Some(3), Some(2), Some(1)], 7),
        (15, [None, Some(5), Some(4), Some(3), Some(2)], 7),
        (16, [None, None, Some(5), Some(4), Some(3)], 7),
    ] {
        expect_same(&rt, core.advance(20), Beat::Step { cycle, stages });
        expect_same(&rt, core.file(Reg::low(1)), r1);
    }
    assert_eq!(rt; core.advance(20), Beat::Stopped);
    let done = CoreState::Done {
        value: 7,
        flag: 0,
        cycles: 17,
    };
    expect_same(&rt, core.state(), done);
    Ok(())
}

#[test]
fn worked_pipelines_are_called() {
    worked_steps();
    worked_flows();
    worked_load();
    worked_ends();
}
