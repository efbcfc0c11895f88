use crate::expect::expect_same;
use shared_order::{
    Operation, Ranged, core_goes_on, core_is_its_run_apart, core_skips, core_stands, event_is_next,
    machine_by_stamps, machine_is_a_course, merge_goes_on, merge_is_the_machines,
    next_is_determined, operation_is_next, operations_in_order, program_is_heard_again,
    ranges_are_kept, turn_in_parts,
};
use slot_arbiter::WordOp;

#[test]
fn an_operation_is_its_stamp_and_act(rt: HostRuntime) {
    let act = WordOp {
        word: 5,
        write: true,
        value: 7,
    };
    let stored = Operation { stamp: 8, act };
    let (copy, later) = (stored, Operation { stamp: 10, act });
    expect_same(&rt, (copy == stored, later != stored), (true, true));
}

/// A core whose whole state is a word that it loaded.
#[derive(Clone, Copy)]
struct Held {
    value: u32,
}

impl Ranged for Held {
    ghost use Rattle.std.specs.Prelude.{◌<◌, ◌^◌};

    ghost in_range = { λ x. x.value < 2 ^ 32 };
}

#[test]
fn laws_at_a_kind_of_core(rt: HostRuntime) {
    let held = Held { value: 7 };
    expect_same(&rt, held.value, 7);
    program_is_heard_again::<Held>();
    turn_in_parts::<Held, Held>();
    machine_by_stamps::<Held>();
    core_is_its_run_apart::<Held>();
    operations_in_order::<Held>();
    merge_is_the_machines::<Held>();
    merge_goes_on::<Held>();
    next_is_determined::<Held>();
    machine_is_a_course::<Held>();
    ranges_are_kept::<Held>();
    core_goes_on::<Held, Held>();
    core_skips::<Held>();
    core_stands::<Held>();
    event_is_next::<Held>();
    operation_is_next::<Held, Held>();
}
