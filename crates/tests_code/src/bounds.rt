//! Bounds of shapes in memory, the persistent one too, worked out by hand for a place where a transaction takes 29
//! cycles at most.
ghost use Rattle.std.specs.Prelude.{◌≡◌, ℕ, ◌<◌, [], ◌∷◌, IfOk, true};
ghost use Rattle.bound_persist.specs.Examples as example;
ghost use Rattle.sp_shape.specs.Formed.{is_formed, part_formed, function_formed};
ghost use Rattle.sp_shape.specs.Shown.{parts_of, plain_part, plain_shape};
ghost use Rattle.sp_shape.specs.Small as small;

use crate::expect::expect_same;
use crate::making::{again, idle, iterations, leave};
use bound_persist::persist_bound_uncounted;
use cycle_bound::{Long, bound_uncounted};
use slot_arbiter::Place;
use sp_shape::{Part, Shape};
use std::alloc::{AllocError, Global};
use std::test::Fail;
use tc_word::List;

// one bundle
#[tactic(auto, unfolding(sp_shape::specs::Shown::plain_part))]
fn bundle(alloc: Global) -> Result<Part, AllocError>
    ensures { IfOk result (λ p. (n : ℕ) → part_formed n (plain_part p) ≡ true) }
{
    Ok(Part::Straight {
        bundles: List::of(vec![in alloc; idle()]?),
    })
}

// a part in a million iterations
fn million_iterations(alloc: Global, body: Part) -> Result<Part, AllocError>
    requires body { (n : ℕ) → part_formed n (plain_part body) ≡ true }
    ensures { IfOk result (λ p. (n : ℕ) → part_formed n (plain_part p) ≡ true) }
{
    let tail = again(alloc)?;
    Ok(Part::Repeat {
        count: 1_000_000,
        body: List::of(vec![in alloc; body]?),
        tail,
    })
}

// a function of one part and its return
fn function(alloc: Global, body: Part) -> Result<List<Part>, AllocError>
    requires body { (n : ℕ) → part_formed n (plain_part body) ≡ true }
    ensures { IfOk result (λ f. (n : ℕ) → function_formed n (parts_of f) ≡ true) }
{
    let leave = leave(alloc)?;
    Ok(List::of(vec![in alloc; body, leave]?))
}

// a function of five loops inside one another
fn five_loops(alloc: Global) -> Result<List<Part>, AllocError>
    ensures { IfOk result (λ f. (n : ℕ) → function_formed n (parts_of f) ≡ true) }
{
    let bundle = bundle(alloc)?;
    let fifth = million_iterations(alloc, bundle)?;
    let fourth = million_iterations(alloc, fifth)?;
    let third = million_iterations(alloc, fourth)?;
    let second = million_iterations(alloc, third)?;
    let first = million_iterations(alloc, second)?;
    function(alloc, first)
}

// a function of one bundle and the return
fn one_bundle(alloc: Global) -> Result<List<Part>, AllocError>
    ensures { IfOk result (λ f. (n : ℕ) → function_formed n (parts_of f) ≡ true) }
{
    let bundle = bundle(alloc)?;
    function(alloc, bundle)
}

// a shape of two functions, of which the one of a number is run
fn shape_of(
    alloc: Global,
    first: List<Part>,
    second: List<Part>,
    entry: u32,
) -> Result<Shape, AllocError>
    requires first { (n : ℕ) → function_formed n (parts_of first) ≡ true }
    requires second { (n : ℕ) → function_formed n (parts_of second) ≡ true }
    requires entry { entry < 2 }
    ensures { IfOk result (λ s. is_formed (plain_shape s) ≡ true) }
{
    Ok(Shape {
        functions: List::of(vec![in alloc; first, second]?),
        entry,
        initial: List::of(Vec::new(alloc)),
        input_at: 4,
        input_room: 0,
    })
}

// a shape of those two, of which the second has one bundle
fn long_and_short(alloc: Global, entry: u32) -> Result<Shape, AllocError>
    requires entry { entry < 2 }
    ensures { IfOk result (λ s. is_formed (plain_shape s) ≡ true) }
{
    let long = five_loops(alloc)?;
    let short = one_bundle(alloc)?;
    shape_of(alloc, long, short, entry)
}

// Of the function that is run, 1 + 5 words are 2 transactions of 29 cycles, and 5 bundles are run. The other is never
// called, and its bound of more than 10^30 cycles counts only where it is the one that is run.
#[test]
fn only_what_is_run_counts(rt: HostRuntime) -> Result<(), Fail> {
    let place = Place::new(4, 2, 6, 0).expect(&rt, "a place");
    for (entry, want) in [(0, Err(Long)), (1, Ok(63))] {
        let shape = long_and_short(rt.alloc(), entry)?;
        let bound = bound_uncounted(&shape, &place);
        expect_same(&rt, (entry, bound), (entry, want));
    }
    Ok(())
}

// a function that returns at once, and one that calls it three times, which is run
fn calling(alloc: Global) -> Result<Shape, AllocError>
    ensures { IfOk result (λ s. plain_shape s ≡ small.shape_of (small.empty ∷ example.thrice ∷ []) 1) }
{
    let leave_first = leave(alloc)?;
    let empty = List::of(vec![in alloc; leave_first]?);
    let iterations = iterations(alloc)?;
    let leave_second = leave(alloc)?;
    let thrice = List::of(vec![in alloc; iterations, leave_second]?);
    Ok(Shape {
        functions: List::of(vec![in alloc; empty, thrice]?),
        entry: 1,
        initial: List::of(Vec::new(alloc)),
        input_at: 4,
        input_room: 0,
    })
}

// 3 + 2 transactions of 29 cycles fetch both functions once, and 3 * (4 + 4 + 3) + 4 bundles are run. The bound counts
// 3 transactions, and 2 + 3 more in each of the three iterations.
#[test]
fn each_function_is_fetched_once(rt: HostRuntime) -> Result<(), Fail> {
    let place = Place::new(4, 2, 6, 0).expect(&rt, "a place");
    let shape = calling(rt.alloc())?;
    expect_same(&rt, persist_bound_uncounted(&shape, &place), Ok(182));
    expect_same(&rt, bound_uncounted(&shape, &place), Ok(559));
    Ok(())
}
