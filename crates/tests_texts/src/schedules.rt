use crate::expect::expect_same;
use argo_grid::{
    Entry, Grid, GridFault, check_grid, grid_report, latency, read_grid, routes_worked,
    schedules_worked, transfers_worked,
};
use std::test::Fail;

#[test]
fn tells_what_a_schedule_is(rt: HostRuntime) -> Result<(), Fail> {
    let text = b"columns = 2\nrows = 1\nlength = 1\nentries = [[0, 0, 1, 6]]";
    let report = grid_report(rt.alloc(), text)?;
    expect_same(&rt, report.status, 2);
    expect_same(&rt, report.text.as_slice(), b"grid: Late 0 needs 9\n");
    Ok(())
}

#[test]
fn reads_a_schedule_and_checks_it(rt: HostRuntime) {
    let text = b"columns = 2\nrows = 2\nlength = 3\nentries = [[0, 1, 2, 12], [1, 0, 2, 9]]";
    let job = read_grid(rt.alloc(), text).expect(&rt, "a schedule");
    let grid = Grid {
        columns: 2,
        rows: 2,
    };
    expect_same(&rt, (job.grid, job.length), (grid, 3));
    let second = Entry {
        slot: 1,
        from: 0,
        to: 2,
        arrive: 9,
    };
    expect_same(&rt, job.entries.as_slice().get(1), Some(&second));
    let fault = GridFault::Shared { entry: 1, other: 0 };
    expect_same(&rt, check_grid(&job), Err(fault));
}

#[test]
fn bounds_transfers(rt: HostRuntime) {
    for (cores, count, bound) in [(2, 1, 12), (2, 512, 777), (3, 2, 15), (16, 512, 11_529)] {
        expect_same(&rt, latency(cores, count), bound);
    }
    routes_worked();
    schedules_worked();
    transfers_worked();
}
