use crate::expect::expect_same;
use core_worker::{one_core_awaited, two_idle_cores, two_idle_cores_at_once};
use std::test::Fail;

#[test]
fn idle_cores_end(rt: HostRuntime) -> Result<(), Fail> {
    let words = two_idle_cores(&rt, rt.alloc(), 6, 5000)?;
    expect_same(&rt, words.as_slice(), &[0; 6]);
    Ok(())
}

#[test]
fn idle_cores_end_in_two_threads(rt: HostRuntime) -> Result<(), Fail> {
    let words = two_idle_cores_at_once(&rt, rt.alloc(), 6, 5000)?;
    expect_same(&rt, words.as_slice(), &[0; 6]);
    Ok(())
}

#[test]
fn a_thread_that_sleeps_for_a_piece_is_woken(rt: HostRuntime) -> Result<(), Fail> {
    for peeks_first in [false, true] {
        let (board, waiting) = one_core_awaited(&rt, rt.alloc(), peeks_first)?;
        expect_same(&rt, board.peek(0), Some(0));
        expect_same(&rt, board.peek(1), Some(20_000));
        expect_same(&rt, board.peek(2), None);
        // nobody sleeps for core 0
        expect_same(
            &rt,
            (peeks_first, waiting.is_awaited(0)),
            (peeks_first, false),
        );
    }
    Ok(())
}
