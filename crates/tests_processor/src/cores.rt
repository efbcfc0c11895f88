ghost use Rattle.std.specs.Prelude.{◌≡◌, [], ◌∷◌, None, IfOk};
ghost use Rattle.patmos_code.specs.Images.{IsImage, parts};
ghost use Rattle.patmos_core.specs.Position.{waiting_of, limit_of};

use crate::expect::expect_same;
use local_store::Cell;
use patmos_code::Image;
use patmos_core::{Core, CoreState, Next, core_is_at_its_place};
use slot_arbiter::{Access, Place, WordOp};
use std::alloc::{AllocError, Global};
use std::test::Fail;
use tc_word::List;

fn transaction(cycle: u64, write: bool, words: u32) -> Access {
    Access {
        cycle,
        write,
        words,
    }
}

fn load(word: u32) -> WordOp {
    WordOp {
        word,
        write: false,
        value: 0,
    }
}

fn store(word: u32, value: u32) -> WordOp {
    WordOp {
        word,
        write: true,
        value,
    }
}

/// The image of one function: its words, the size first.
pub(crate) fn image_of(alloc: Global, words: &[u32]) -> Result<Image, AllocError>
    requires { IsImage (parts words.now (1 ∷ []) [] 4 0) }
{
    let words = List::of(Vec::from_slice(alloc, words)?);
    let starts = List::of(vec![in alloc; 1]?);
    Ok(Image::of(words, starts, List::of(Vec::new(alloc)), 4, 0))
}

/// `addi r1 = r0, 7; ret; nop; nop; nop`, with 3 in the first of its data words and an input of two.
fn seven(alloc: Global) -> Result<Image, AllocError> {
    let words = List::of(Vec::from_slice(alloc, &[5, 0x0002_0007, 0x0540_0000, 0, 0, 0])?);
    let starts = List::of(vec![in alloc; 1]?);
    let initial = List::of(vec![in alloc; 3]?);
    Ok(Image::of(words, starts, initial, 5, 2))
}

/// A core with that task, to which three words are given.
fn core_of_seven(alloc: Global, place: Place) -> Result<Core, AllocError>
    ensures waiting { IfOk result (λ core. waiting_of core ≡ None) }
    ensures limit { IfOk result (λ core. limit_of core ≡ 0) }
{
    let image = seven(alloc)?;
    Core::new(alloc, place, &image, &[8, 9, 10], 4)
}

// six words are fetched in the slots at 0 and 6, and five bundles follow
#[test]
fn a_task_runs_to_its_end(rt: HostRuntime) -> Result<(), Fail> {
    let place = Place::new(1, 0, 6, 0).expect(&rt, "a place");
    let mut core = core_of_seven(rt.alloc(), place)?;
    assert_eq!(rt; core.next(16), Next::Limit);
    expect_same(&rt, core.state(), CoreState::Running);
    expect_same(&rt, core.next(17), Next::Ended);
    let done = CoreState::Done {
        value: 7,
        flag: 0,
        cycles: 17,
    };
    expect_same(&rt, (core.state(), core.dropped()), (done, 0));
    let trace = [transaction(0, false, 4), transaction(6, false, 2)];
    expect_same(&rt, core.trace(), trace.as_slice());
    for (word, value) in [(4, 3), (5, 8), (6, 9), (7, 0)] {
        expect_same(&rt, (word, core.word(Cell::Private(word))), (word, value));
    }
    Ok(())
}

#[test]
fn an_idle_core_does_nothing(rt: HostRuntime) {
    core_is_at_its_place();
    let place = Place::new(2, 1, 6, 0).expect(&rt, "a place");
    let mut core = Core::idle(place);
    expect_same(&rt, core.next(20_000_000), Next::Ended);
    expect_same(&rt, core.state(), CoreState::Idle);
    expect_same(
        &rt,
        (
            core.trace().len(),
            core.dropped(),
            core.word(Cell::Scratch(0)),
        ),
        (0, 0, 0),
    );
}

// `addl r2 = r0, 0x01000000; addi r3 = r0, 0x11; sbm [r2 + 0] = r3; ret; nop; nop; nop`
static STORE_BYTE: [u32; 9] = [
    8,
    0x8584_0000,
    0x0100_0000,
    0x0006_0011,
    0x0456_2180,
    0x0540_0000,
    0,
    0,
    0,
];

/// A core with that task.
fn core_of_store_byte(alloc: Global, place: Place) -> Result<Core, AllocError>
    ensures waiting { IfOk result (λ core. waiting_of core ≡ None) }
    ensures limit { IfOk result (λ core. limit_of core ≡ 0) }
{
    let image = image_of(alloc, &STORE_BYTE)?;
    Core::new(alloc, place, &image, &[], 0)
}

// a byte is stored in the first word of shared memory: the word is loaded and then stored, at one stamp, in two events
#[test]
fn a_byte_is_stored_in_two_events(rt: HostRuntime) -> Result<(), Fail> {
    let place = Place::new(1, 0, 6, 0).expect(&rt, "a place");
    let mut core = core_of_store_byte(rt.alloc(), place)?;
    let Next::Event(first) = core.next(40) else {
        panic!(rt; "no event");
    };
    expect_same(
        &rt,
        (first.stamp, first.count, first.ops[0]),
        (49, 1, load(0)),
    );
    core.resume([0xaabb_ccdd, 0, 0, 0, 0, 0, 0, 0], first.count);
    let Next::Event(second) = core.next(40) else {
        panic!(rt; "no second event");
    };
    expect_same(
        &rt,
        (second.stamp, second.count, second.ops[0]),
        (49, 1, store(0, 0x11bb_ccdd)),
    );
    core.resume([0; 8], second.count);
    expect_same(&rt, core.next(40), Next::Ended);
    Ok(())
}
