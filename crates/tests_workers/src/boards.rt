use crate::expect::expect_same;
use clock_board::{two_cores_at_once, two_cores_by_turns};
use std::test::Fail;

#[test]
fn course_of_two(rt: HostRuntime) -> Result<(), Fail> {
    let (first, second, words) = two_cores_by_turns(&rt, rt.alloc())?;
    expect_same(&rt, (first, second), (0, 7));
    expect_same(&rt, words.as_slice(), &[0, 0, 0, 0, 0, 7]);
    Ok(())
}

#[test]
fn course_of_two_in_two_threads(rt: HostRuntime) -> Result<(), Fail> {
    let (first, second, words) = two_cores_at_once(&rt, rt.alloc())?;
    expect_same(&rt, (first, second), (0, 7));
    expect_same(&rt, words.as_slice(), &[0, 0, 0, 0, 0, 7]);
    Ok(())
}
