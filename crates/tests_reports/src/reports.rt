use crate::expect::expect_same;
use slot_arbiter::Access;
use std::alloc::{AllocError, Global};
use std::test::Fail;
use tc_report::{Row, RowState, Rows, report};
use tc_word::List;

/// A core in a state, of which nothing else is reported.
fn core_in(alloc: Global, state: RowState) -> Row {
    Row {
        state,
        bound: None,
        alone: false,
        overrun: false,
        outs: List::of(Vec::new(alloc)),
        outs_unsigned: false,
        dropped: 0,
        accesses: List::of(Vec::new(alloc)),
    }
}

/// The report of one core under a platform of slots of 6 cycles.
fn reported(alloc: Global, row: Row) -> Result<Vec<u8>, AllocError> {
    let rows = Rows {
        cores: 1,
        slot: 6,
        period: 6,
        rows: List::of(vec![in alloc; row]?),
    };
    report(alloc, &rows)
}

/// A fetch of so many words from a cycle on.
fn fill(cycle: u64, words: u32) -> Access {
    Access {
        cycle,
        write: false,
        words,
    }
}

/// Four cores, of which one is done after two fetches, and the others have no task.
fn one_of_four(alloc: Global) -> Result<Rows, AllocError> {
    let ended = RowState::Done {
        value: 7,
        cycles: 47,
    };
    let mut done = core_in(alloc, ended);
    done.accesses = List::of(Vec::from_slice(alloc, &[fill(12, 4), fill(36, 2)])?);
    let idle = RowState::Idle;
    let rows = vec![in alloc;
        core_in(alloc, idle),
        core_in(alloc, idle),
        done,
        core_in(alloc, idle),
    ]?;
    Ok(Rows {
        cores: 4,
        slot: 6,
        period: 24,
        rows: List::of(rows),
    })
}

#[test]
fn tells_the_transactions_of_a_core_of_four(rt: HostRuntime) -> Result<(), Fail> {
    let rows = one_of_four(rt.alloc())?;
    let text = "platform cores 4 slot 6 period 24\n\
        core 0 idle\n\
        core 1 idle\n\
        core 2 done 7 cycles 47\n\
        core 2 access 12 read 4\n\
        core 2 access 36 read 2\n\
        core 3 idle\n";
    let told = report(rt.alloc(), &rows)?;
    expect_same(&rt, told.as_slice(), text.as_bytes());
    Ok(())
}

/// A core that is done, which has stored a word once, and did so once more, which is not listed.
fn storing(alloc: Global) -> Result<Row, AllocError> {
    let ended = RowState::Done {
        value: 0,
        cycles: 40,
    };
    let mut done = core_in(alloc, ended);
    done.dropped = 1;
    let store = Access {
        cycle: 0,
        write: true,
        words: 1,
    };
    done.accesses = List::of(vec![in alloc; store]?);
    Ok(done)
}

#[test]
fn tells_what_was_dropped_before_the_transactions(rt: HostRuntime) -> Result<(), Fail> {
    let text = "platform cores 1 slot 6 period 6\n\
        core 0 done 0 cycles 40\n\
        core 0 dropped 1\n\
        core 0 access 0 write 1\n";
    let told = reported(rt.alloc(), storing(rt.alloc())?)?;
    expect_same(&rt, told.as_slice(), text.as_bytes());
    Ok(())
}

#[test]
fn tells_a_task_that_is_not_done(rt: HostRuntime) -> Result<(), Fail> {
    let cases = [
        (RowState::Trap { trap: 2, at: 7 }, "core 0 trap 2 at 7\n"),
        (RowState::Limit, "core 0 limit\n"),
        (
            RowState::Done {
                value: 0xffff_fff9,
                cycles: 20_000_000,
            },
            "core 0 done -7 cycles 20000000\n",
        ),
    ];
    for (state, line) in cases {
        let alloc = rt.alloc();
        let text = format!(in alloc; "platform cores 1 slot 6 period 6\n{line}")?;
        let told = reported(alloc, core_in(alloc, state))?;
        expect_same(&rt, told.as_slice(), text.as_bytes());
    }
    Ok(())
}

/// A task in C that is done after its loops were cut off, is alone, and has two words of `out`.
fn program(alloc: Global, unsigned: bool) -> Result<Row, AllocError> {
    let ended = RowState::Done {
        value: 10,
        cycles: 99,
    };
    let mut row = core_in(alloc, ended);
    row.bound = Some(4_611_686_018_427_387_904);
    row.alone = true;
    row.overrun = true;
    row.outs = List::of(vec![in alloc; 0xffff_fffd, 5]?);
    row.outs_unsigned = unsigned;
    Ok(row)
}

#[test]
fn tells_a_task_in_c(rt: HostRuntime) -> Result<(), Fail> {
    let cases = [
        (false, "core 0 out 0 -3\ncore 0 out 1 5\n"),
        (true, "core 0 out 0 4294967293\ncore 0 out 1 5\n"),
    ];
    for (unsigned, outs) in cases {
        let alloc = rt.alloc();
        let told = reported(alloc, program(alloc, unsigned)?)?;
        let text = format!(in alloc;
            "platform cores 1 slot 6 period 6\n\
            core 0 done 10 cycles 99 bound 4611686018427387904 alone overrun\n{outs}"
        )?;
        expect_same(&rt, told.as_slice(), text.as_bytes());
    }
    Ok(())
}

/// A task with a bound, an overrun and a word of `out` that is not done.
fn cut_off(alloc: Global) -> Result<Row, AllocError> {
    let mut row = core_in(alloc, RowState::Limit);
    row.bound = Some(45);
    row.overrun = true;
    row.outs = List::of(vec![in alloc; 1]?);
    Ok(row)
}

#[test]
fn tells_a_bound_of_a_task_that_is_not_done(rt: HostRuntime) -> Result<(), Fail> {
    let told = reported(rt.alloc(), cut_off(rt.alloc())?)?;
    let text = "platform cores 1 slot 6 period 6\ncore 0 limit bound 45\n";
    expect_same(&rt, told.as_slice(), text.as_bytes());
    Ok(())
}
