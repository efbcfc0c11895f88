use crate::expect::expect_same;
use core_pace::{
    place_has_slots, worked_bundles, worked_events, worked_growth, worked_stack, worked_starts,
    worked_words,
};
use patmos_model::{
    Trap, core_keeps_ranges, run_apart_is_followed, transfer_is_its_bursts, worked_flows,
    worked_memory, worked_task, worked_traps,
};
use slot_arbiter::Place;

#[test]
fn laws_are_called_and_traps_have_their_numbers(rt: HostRuntime) {
    worked_task();
    worked_flows();
    worked_memory();
    worked_traps();
    run_apart_is_followed();
    transfer_is_its_bursts();
    core_keeps_ranges();
    expect_same(&rt, (Trap::Access.number(), Trap::Align.number()), (1, 2));
    expect_same(&rt, (Trap::Decode.number(), Trap::Flow.number()), (3, 4));
    expect_same(
        &rt,
        (Trap::Stack.number(), Trap::Interface.number()),
        (5, 6),
    );
}

#[test]
fn worked_values_are_called(rt: HostRuntime) {
    worked_starts();
    worked_bundles();
    worked_events();
    worked_growth();
    worked_stack();
    worked_words();
    place_has_slots(&Place::new(4, 2, 6, 0).expect(&rt, "a place"));
}
