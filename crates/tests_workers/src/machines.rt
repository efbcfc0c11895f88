ghost use Rattle.std.specs.Prelude.{[], ◌∷◌, IfSome};
ghost use Rattle.std.specs.Option.{option_copied};
ghost use Rattle.patmos_code.specs.Images.{IsImage, parts};

use crate::expect::expect_same;
use core_worker::Waiting;
use global_step::{Loaded, LoadedCore};
use local_store::Cell;
use patmos_code::Image;
use patmos_core::{Core, CoreState};
use slot_arbiter::{Access, Place};
use std::alloc::{AllocError, Global};
use std::process::Abort;
use std::sync::Wait;
use std::sync::atomic::{AtomicBool, Ordering};
use std::test::Fail;
use std::thread::{Threads, yield_now};
use tc_io::{FreeGate, Gate};
use tc_run::{
    Final, accesses_of, dropped_of, outcome_of, own_word_of, run_by_turns, run_machine, run_plain,
    run_waiting,
};
use tc_word::List;

/// The task of a core.
#[derive(Clone, Copy)]
enum Task {
    /// It has none.
    Idle,
    /// `addi r1 = r0, 7; ret; nop; nop; nop`.
    Seven,
    /// `addl r2 = r0, SHARED; addi r3 = r0, 5; swm [r2 + 0] = r3; ret; nop; nop; nop` from a cycle on: it stores 5 in
    /// the first word of shared memory.
    Store { start: u64 },
    /// `addl r2 = r0, SHARED; lwm r3 = [r2 + 0]; nop; lwm r4 = [r2 + 0]; ret; sli r3 = r3, 4; add r1 = r3, r4; nop`:
    /// it loads that word twice, and the first value counts sixteen times in its result.
    TwoLoads,
}

/// Shared memory begins here, and the tasks that use it have its place in r2.
const SHARED: u32 = 0x0100_0000;

static SEVEN: [u32; 6] = [5, 0x0002_0007, 0x0540_0000, 0, 0, 0];

static STORE: [u32; 9] = [
    8,
    0x8584_0000,
    SHARED,
    0x0006_0005,
    0x0446_2180,
    0x0540_0000,
    0,
    0,
    0,
];

static TWO_LOADS: [u32; 10] = [
    9,
    0x8584_0000,
    SHARED,
    0x0406_2180,
    0,
    0x0408_2180,
    0x0540_0000,
    0x00c6_3004,
    0x0202_3200,
    0,
];

impl Task {
    fn start(self) -> u64 {
        match self {
            Task::Store { start } => start,
            Task::Idle | Task::Seven | Task::TwoLoads => 0,
        }
    }

    /// The words of its function, the size first.
    fn words(self) -> Option<&'static [u32]>
        ensures { IfSome (option_copied result) (λ words. IsImage (parts words (1 ∷ []) [] 4 0)) }
    {
        match self {
            Task::Idle => None,
            Task::Seven => Some(SEVEN.as_slice()),
            Task::Store { .. } => Some(STORE.as_slice()),
            Task::TwoLoads => Some(TWO_LOADS.as_slice()),
        }
    }

    fn image(self, alloc: Global) -> Result<Option<Image>, AllocError> {
        let Some(words) = self.words() else {
            return Ok(None);
        };
        let words = List::of(Vec::from_slice(alloc, words)?);
        let starts = List::of(vec![in alloc; 1]?);
        let image = Image::of(words, starts, List::of(Vec::new(alloc)), 4, 0);
        Ok(Some(image))
    }
}

/// The core of a number with its task, if there is such a place.
fn core_of(
    alloc: Global,
    count: u32,
    core: u32,
    task: &Task,
) -> Result<Option<LoadedCore>, AllocError> {
    let image = task.image(alloc)?;
    let Some(place) = Place::new(count, core, 6, task.start()) else {
        return Ok(None);
    };
    Ok(Some(LoadedCore {
        place,
        image,
        input: List::of(Vec::new(alloc)),
    }))
}

/// The machine of cores with these tasks, of which there are so many, with slots of 6 cycles, a limit of 20,000 cycles,
/// and so many workers.
fn machine_of(
    alloc: Global,
    count: u32,
    tasks: &[Task],
    workers: u32,
) -> Result<Option<Loaded>, AllocError> {
    let mut cores = Vec::new(alloc);
    for (core, task) in (0..count).zip(tasks) {
        if let Some(core) = core_of(alloc, count, core, task)? {
            cores.push(core)?;
        }
    }
    Ok(Loaded::new(List::of(cores), 20_000, 9, workers))
}

/// A task that ended with this value in r1 and that in r2, after so many cycles.
fn done(value: u32, flag: u32, cycles: u64) -> CoreState {
    CoreState::Done {
        value,
        flag,
        cycles,
    }
}

/// How each of these cores has ended.
fn outcomes_of(alloc: Global, cores: &[Core]) -> Result<Vec<CoreState>, AllocError> {
    let mut outcomes = Vec::new(alloc);
    for core in cores {
        outcomes.push(outcome_of(core))?;
    }
    Ok(outcomes)
}

/// A way in which a machine is run.
#[derive(Clone, Copy, PartialEq, Debug)]
enum Way {
    Plain,
    ByTurns,
    InThreads,
}

impl Way {
    fn run<R: Threads + Wait + Sync>(
        self,
        rt: &R,
        alloc: Global,
        machine: &Loaded,
    ) -> Result<Final, AllocError> {
        match self {
            Way::Plain => run_plain(alloc, machine),
            Way::ByTurns => run_by_turns(alloc, rt, machine, &FreeGate),
            Way::InThreads => run_machine(alloc, rt, machine, &FreeGate),
        }
    }
}

/// Compares how the cores of a machine end, and the first word of shared memory.
fn expect_end<R: Threads + Wait + Sync + Abort>(
    rt: &R,
    alloc: Global,
    machine: &Loaded,
    way: Way,
    outcomes: &[CoreState],
    shared: u32,
) -> Result<(), AllocError> {
    let end = way.run(rt, alloc, machine)?;
    let ended = outcomes_of(alloc, end.cores.as_slice())?;
    expect_same(rt, (way, ended.as_slice()), (way, outcomes));
    expect_same(rt, end.words.as_slice().first(), Some(&shared));
    Ok(())
}

#[test]
fn threads_turns_and_the_plain_run_end_alike(rt: HostRuntime) -> Result<(), Fail> {
    let alloc = rt.alloc();
    for (count, tasks, outcomes, shared) in [
        (1, [Task::Seven].as_slice(), [done(7, 0, 17)].as_slice(), 0),
        (
            2,
            [Task::Idle, Task::Seven].as_slice(),
            [CoreState::Idle, done(7, 0, 29)].as_slice(),
            0,
        ),
        (
            2,
            [Task::Store { start: 12 }, Task::TwoLoads].as_slice(),
            [done(0, SHARED, 46), done(5, SHARED, 64)].as_slice(),
            5,
        ),
        (
            3,
            [Task::Store { start: 18 }, Task::Idle, Task::TwoLoads].as_slice(),
            [done(0, SHARED, 64), CoreState::Idle, done(5, SHARED, 94)].as_slice(),
            5,
        ),
    ] {
        let machine = machine_of(alloc, count, tasks, 1)?.expect(&rt, "a machine");
        for way in [Way::Plain, Way::ByTurns, Way::InThreads] {
            expect_end(&rt, alloc, &machine, way, outcomes, shared)?;
        }
    }
    Ok(())
}

/// The gate that holds core 1 at its first event until a thread sleeps for its clock.
#[derive(Drop)]
struct FirstHeld<'a, R: Wait> {
    rt: &'a R,
    waiting: &'a Waiting,
    was_held: AtomicBool,
}

impl<R: Wait> Gate for FirstHeld<'_, R> {
    fn at(&self, core: u32, _stamp: u64) {
        if core != 1 || self.was_held.swap(true, Ordering::SeqCst) {
            return;
        }
        for _ in self.rt.forever() {
            if self.waiting.is_awaited(1) {
                break;
            }
            yield_now();
        }
    }
}

/// How the cores of a machine end whose core 1 is held, and whether it came to its event.
fn run_held<R: Threads + Wait + Sync>(
    rt: &R,
    alloc: Global,
    machine: &Loaded,
    peeks_first: bool,
) -> Result<(Vec<CoreState>, bool), AllocError> {
    let waiting = Waiting::new(peeks_first);
    let gate = FirstHeld {
        rt,
        waiting: &waiting,
        was_held: AtomicBool::new(false),
    };
    let end = run_waiting(alloc, rt, machine, &waiting, &gate)?;
    let ended = outcomes_of(alloc, end.cores.as_slice())?;
    Ok((ended, gate.was_held.load(Ordering::SeqCst)))
}

#[test]
fn a_worker_that_sleeps_is_woken(rt: HostRuntime) -> Result<(), Fail> {
    let alloc = rt.alloc();
    let tasks = [Task::Store { start: 12 }, Task::TwoLoads];
    let machine = machine_of(alloc, 2, tasks.as_slice(), 2)?.expect(&rt, "a machine");
    for peeks_first in [false, true] {
        let (ended, was_held) = run_held(&rt, alloc, &machine, peeks_first)?;
        expect_same(
            &rt,
            ended.as_slice(),
            &[done(0, SHARED, 46), done(5, SHARED, 64)],
        );
        expect_same(&rt, (peeks_first, was_held), (peeks_first, true));
    }
    Ok(())
}

/// A fetch of so many words from a cycle on.
fn fill(cycle: u64, words: u32) -> Access {
    Access {
        cycle,
        write: false,
        words,
    }
}

#[test]
fn a_core_tells_of_its_run(rt: HostRuntime) -> Result<(), Fail> {
    let alloc = rt.alloc();
    let machine = machine_of(alloc, 2, &[Task::Idle, Task::Seven], 1)?.expect(&rt, "a machine");
    let end = run_machine(alloc, &rt, &machine, &FreeGate)?;
    let last = end.cores.as_slice().last().expect(&rt, "a core");
    expect_same(&rt, accesses_of(last), &[fill(6, 4), fill(18, 2)]);
    expect_same(&rt, dropped_of(last), 0);
    expect_same(&rt, own_word_of(last, Cell::Private(4)), 0);
    expect_same(&rt, end.words.as_slice().len(), 4096 + 512 * 2);
    Ok(())
}
