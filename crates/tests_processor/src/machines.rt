use crate::expect::expect_same;
use global_step::{
    Loaded, LoadedCore, machine_is_a_course, machine_keeps_ranges, worked_network, worked_platform,
    worked_shared,
};
use slot_arbiter::Place;
use std::alloc::{AllocError, Global};
use std::test::Fail;
use tc_word::List;

/// Idle cores at places given by their number of cores, own number and slot length.
fn idle_cores(alloc: Global, places: &[(u32, u32, u32)]) -> Result<List<LoadedCore>, AllocError> {
    let mut cores = Vec::new(alloc);
    for (count, core, slot) in places {
        if let Some(place) = Place::new(*count, *core, *slot, 0) {
            let input = List::of(Vec::new(alloc));
            cores.push(LoadedCore {
                place,
                image: None,
                input,
            })?;
        }
    }
    Ok(List::of(cores))
}

#[test]
fn cores_of_one_platform_are_loaded(rt: HostRuntime) -> Result<(), Fail> {
    worked_platform();
    worked_shared();
    worked_network();
    machine_keeps_ranges();
    machine_is_a_course();
    let two = [(2, 0, 6), (2, 1, 6)];
    for (places, limit, trace, workers, want) in [
        (two.as_slice(), 20_000_000, 65_536, 2, true),
        (two.as_slice(), 1, 0, 1, true),
        (two.as_slice(), 0, 0, 1, false),
        (two.as_slice(), 20_000_001, 0, 1, false),
        (two.as_slice(), 1, 65_537, 1, false),
        (two.as_slice(), 1, 0, 0, false),
        (two.as_slice(), 1, 0, 3, false),
        ([(2, 0, 6)].as_slice(), 1, 0, 1, false),
        ([(2, 1, 6), (2, 0, 6)].as_slice(), 1, 0, 1, false),
        ([(2, 0, 6), (2, 1, 7)].as_slice(), 1, 0, 1, false),
    ] {
        let cores = idle_cores(rt.alloc(), places)?;
        let loaded = Loaded::new(cores, limit, trace, workers);
        expect_same(&rt, loaded.is_some(), want);
    }
    Ok(())
}
