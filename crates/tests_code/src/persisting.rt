//! Persistent bounds of compiled tasks: functions that stay in the method cache are fetched once.
ghost use Rattle.std.specs.Prelude.{◌≤◌, ◌^◌};

use crate::expect::expect_same;
use c_compile::{Compiled, compile};
use patmos_core::{Core, CoreState, Next};
use slot_arbiter::{MOST_CYCLES, Place};
use std::alloc::{AllocError, Global};
use std::test::Fail;

/// A function that is called twice, and the one that calls it.
const TWICE: &str = "int f(int x) { return x; } int main() { int a = f(1); a = f(a); return a; }";

/// How many transactions fetch the function of a number, the entry's being 0: its words and its size, four at a time.
fn fetch_of(words: &[u32], starts: &[u32], number: usize) -> u64
    ensures { result ≤ 2 ^ 32 }
{
    let start = starts.get(number).copied().unwrap_or(0) as usize;
    let size = words.get(start.saturating_sub(1)).copied().unwrap_or(0);
    (u64::from(size) + 1).div_ceil(4)
}

/// The value with which a task without an input ends, and its cycles.
fn end_of(
    alloc: Global,
    compiled: &Compiled,
    place: Place,
) -> Result<Option<(u32, u64)>, AllocError> {
    let mut core = Core::new(alloc, place, &compiled.image, &[], 0)?;
    match (core.next(MOST_CYCLES), core.state()) {
        (Next::Ended, CoreState::Done { value, cycles, .. }) => Ok(Some((value, cycles))),
        _ => Ok(None),
    }
}

// The bound counts f's fetch twice and that of main three times, the persistent bound each once. On one core with slots
// of 6 cycles a transaction takes at most 6 + 6 - 1 of them.
#[test]
fn what_stays_is_fetched_once(rt: HostRuntime) -> Result<(), Fail> {
    let place = Place::new(1, 0, 6, 0).expect(&rt, "a place");
    let compiled = compile(rt.alloc(), TWICE, &place)?;
    let (words, starts) = (compiled.image.words(), compiled.image.starts());
    let main = fetch_of(words, starts, 0);
    let f = fetch_of(words, starts, 1);
    expect_same(&rt, (main > 1, f > 1), (true, true));
    let less = compiled.bound.saturating_sub(compiled.persist);
    expect_same(&rt, less, 11 * (f + 2 * main));
    let end = end_of(rt.alloc(), &compiled, place)?;
    let (value, cycles) = end.expect(&rt, "its end");
    expect_same(&rt, (value, cycles <= compiled.persist), (1, true));
    Ok(())
}

// one function is fetched once by both bounds
#[test]
fn a_function_alone_is_fetched_once(rt: HostRuntime) -> Result<(), Fail> {
    let place = Place::new(1, 0, 6, 0).expect(&rt, "a place");
    let compiled = compile(rt.alloc(), "int main() { return 7; }", &place)?;
    expect_same(&rt, compiled.persist, compiled.bound);
    Ok(())
}
