use crate::test_jobs::{
    LATE_LOADS, SENDING_REPORT, STORE, STORE_BYTE, STORE_BYTE_AND_LOAD, THREE, TWO, TWO_LOADS,
    job_of, late_load_job, late_load_report, sending_job,
};
use crate::tests::{SHARING, SHARING_REPORT, answer_under, expect_same};
use std::alloc::Global;
use std::sync::Wait;
use std::sync::atomic::{AtomicBool, AtomicU32, Ordering};
use std::test::Fail;
use std::thread::{Threads, yield_now};
use tc_io::{FreeGate, Gate, SureGather};

/// The gate at which each of the cores 0 and 1 waits, at its first event, until the other has come to its own
/// first event. It waits for so many turns at most.
#[derive(Drop)]
struct Meeting {
    /// How often each core came.
    calls: [AtomicU32; 2],
    /// A core waited for all its turns, and the other did not come.
    missed: AtomicBool,
    turns: u32,
}

impl Meeting {
    fn new(turns: u32) -> Meeting {
        Meeting {
            calls: [AtomicU32::new(0), AtomicU32::new(0)],
            missed: AtomicBool::new(false),
            turns,
        }
    }

    /// Waits until the core has come whose calls these are, or until all turns are over.
    fn wait_for(&self, calls: &AtomicU32) {
        for _turn in 0..self.turns {
            if calls.load(Ordering::SeqCst) > 0 {
                return;
            }
            yield_now();
        }
        self.missed.store(true, Ordering::SeqCst);
    }

    fn calls_of(&self) -> (u32, u32) {
        let [first, second] = &self.calls;
        (first.load(Ordering::SeqCst), second.load(Ordering::SeqCst))
    }

    fn is_missed(&self) -> bool {
        self.missed.load(Ordering::SeqCst)
    }
}

impl Gate for Meeting {
    fn at(&self, core: u32, _stamp: u64) {
        let own = core as usize % 2;
        if self.calls[own].fetch_add(1, Ordering::SeqCst) == 0 {
            self.wait_for(&self.calls[1 - own]);
        }
    }
}

/// The gate that holds one core for so many turns at each of its events, and keeps its thread busy.
#[derive(Drop)]
struct Delay {
    core: u32,
    turns: u32,
    /// Would let the core go. It is never set, and is read each turn so that the turns take time.
    released: AtomicBool,
}

impl Delay {
    fn new(core: u32, turns: u32) -> Delay {
        Delay {
            core,
            turns,
            released: AtomicBool::new(false),
        }
    }
}

impl Gate for Delay {
    fn at(&self, core: u32, _stamp: u64) {
        if core != self.core {
            return;
        }
        for _turn in 0..self.turns {
            if self.released.load(Ordering::SeqCst) {
                return;
            }
        }
    }
}

/// How many turns a core waits for the other at most.
const TURNS: u32 = 10_000_000;

/// How many turns a core is held at each event.
const DELAY: u32 = 10_000;

/// How many times a test runs a job that has to give the same each time.
const RUNS: u32 = 1_000;

/// The status and the report of a job whose workers a gate may hold.
fn run_under<R: Threads + Wait + Sync, G: Gate + Sync>(
    rt: &R,
    alloc: Global,
    job: &[u8],
    gate: &G,
) -> Result<(u8, SureGather), Fail> {
    answer_under(rt, alloc, &["run"], job, gate)
}

/// The job, run by so many workers.
fn with_workers(alloc: Global, workers: u32, job: &[u8]) -> Result<Vec<u8>, Fail> {
    let key = format!(in alloc; "workers = {workers}\n")?;
    let mut text = Vec::from_slice(alloc, key.as_bytes())?;
    text.extend_from_slice(job)?;
    Ok(text)
}

/// The first run of a job that has another status than 0, or another report.
fn first_other_run<R: Threads + Wait + Sync, G: Gate + Sync>(
    rt: &R,
    alloc: Global,
    job: &[u8],
    gate: &G,
    report: &[u8],
) -> Result<Option<u32>, Fail> {
    for run in 0..RUNS {
        let (status, sink) = run_under(rt, alloc, job, gate)?;
        if status != 0 || sink.kept() != report {
            return Ok(Some(run));
        }
    }
    Ok(None)
}

/// The first of these numbers of workers that gives another status than 0, or another report.
fn first_other_crew<R: Threads + Wait + Sync>(
    rt: &R,
    alloc: Global,
    crews: &[u32],
    job: &[u8],
    report: &[u8],
) -> Result<Option<u32>, Fail> {
    for workers in crews {
        let job = with_workers(alloc, *workers, job)?;
        let (status, sink) = run_under(rt, alloc, job.as_slice(), &FreeGate)?;
        if status != 0 || sink.kept() != report {
            return Ok(Some(*workers));
        }
    }
    Ok(None)
}

/// The first start of a store at which a late load has another value than is known, or another report.
fn first_other_start<R: Threads + Wait + Sync, G: Gate + Sync>(
    rt: &R,
    alloc: Global,
    gate: &G,
) -> Result<Option<u32>, Fail> {
    for (start, value) in LATE_LOADS {
        let job = late_load_job(alloc, start)?;
        let report = late_load_report(alloc, value)?;
        let (status, sink) = run_under(rt, alloc, job.as_bytes(), gate)?;
        if status != 0 || sink.kept() != report.as_bytes() {
            return Ok(Some(start));
        }
    }
    Ok(None)
}

/// Cores 0 and 1 each store a byte of one word, and core 1 loads the word.
fn bytes_job(alloc: Global) -> Result<String, Fail> {
    let tasks = [("core = 1", STORE_BYTE_AND_LOAD), ("core = 0", STORE_BYTE)];
    job_of(alloc, TWO, &tasks)
}

/// The report of that job.
const BYTES_REPORT: &[u8] =
    b"platform cores 2 slot 6 period 12\ncore 0 done 0 cycles 46\ncore 1 done 287440896 cycles 64\n";

/// Core 0 stores 5 at 72. Core 2 loads the word at 66 and at 84, and core 1 is idle.
fn spaced_job(alloc: Global) -> Result<String, Fail> {
    let tasks = [("core = 0\nstart = 18", STORE), ("core = 2", TWO_LOADS)];
    job_of(alloc, THREE, &tasks)
}

/// The report of that job.
const SPACED_REPORT: &[u8] =
    b"platform cores 3 slot 6 period 18\ncore 0 done 0 cycles 64\ncore 1 idle\ncore 2 done 5 cycles 94\n";

#[test]
fn two_workers_meet(rt: HostRuntime) -> Result<(), Fail> {
    let meeting = Meeting::new(TURNS);
    let (status, sink) = run_under(&rt, rt.alloc(), SHARING, &meeting)?;
    expect_same(&rt, (status, sink.kept()), (0, SHARING_REPORT));
    expect_same(
        &rt,
        (meeting.is_missed(), meeting.calls_of()),
        (false, (1, 2)),
    );
    Ok(())
}

#[test]
fn one_worker_does_not_meet(rt: HostRuntime) -> Result<(), Fail> {
    let meeting = Meeting::new(TURNS);
    let job = with_workers(rt.alloc(), 1, SHARING)?;
    let (status, sink) = run_under(&rt, rt.alloc(), job.as_slice(), &meeting)?;
    expect_same(&rt, (status, sink.kept()), (0, SHARING_REPORT));
    expect_same(
        &rt,
        (meeting.is_missed(), meeting.calls_of()),
        (true, (1, 2)),
    );
    Ok(())
}

#[test]
fn shared_words_are_the_same_in_1000(rt: HostRuntime) -> Result<(), Fail> {
    let other = first_other_run(&rt, rt.alloc(), SHARING, &FreeGate, SHARING_REPORT)?;
    expect_same(&rt, other, None);
    Ok(())
}

#[test]
fn shared_words_are_the_same_in_1000_with_core_1_held(rt: HostRuntime) -> Result<(), Fail> {
    let gate = Delay::new(1, DELAY);
    let other = first_other_run(&rt, rt.alloc(), SHARING, &gate, SHARING_REPORT)?;
    expect_same(&rt, other, None);
    Ok(())
}

#[test]
fn shared_bytes_are_the_same_in_1000(rt: HostRuntime) -> Result<(), Fail> {
    let job = bytes_job(rt.alloc())?;
    let other = first_other_run(&rt, rt.alloc(), job.as_bytes(), &FreeGate, BYTES_REPORT)?;
    expect_same(&rt, other, None);
    Ok(())
}

#[test]
fn shared_bytes_are_the_same_in_1000_with_core_1_held(rt: HostRuntime) -> Result<(), Fail> {
    let job = bytes_job(rt.alloc())?;
    let gate = Delay::new(1, DELAY);
    let other = first_other_run(&rt, rt.alloc(), job.as_bytes(), &gate, BYTES_REPORT)?;
    expect_same(&rt, other, None);
    Ok(())
}

#[test]
fn a_late_load_is_the_same_with_core_0_held(rt: HostRuntime) -> Result<(), Fail> {
    let gate = Delay::new(0, DELAY);
    let other = first_other_start(&rt, rt.alloc(), &gate)?;
    expect_same(&rt, other, None);
    Ok(())
}

#[test]
fn a_late_load_is_the_same_with_core_1_held(rt: HostRuntime) -> Result<(), Fail> {
    let gate = Delay::new(1, DELAY);
    let other = first_other_start(&rt, rt.alloc(), &gate)?;
    expect_same(&rt, other, None);
    Ok(())
}

#[test]
fn workers_make_no_difference(rt: HostRuntime) -> Result<(), Fail> {
    let alloc = rt.alloc();
    let bytes = bytes_job(alloc)?;
    let sending = sending_job(alloc)?;
    let spaced = spaced_job(alloc)?;
    for (job, crews, report) in [
        (SHARING, [1, 2].as_slice(), SHARING_REPORT),
        (bytes.as_bytes(), [1, 2].as_slice(), BYTES_REPORT),
        (sending.as_bytes(), [1, 2, 3].as_slice(), SENDING_REPORT),
        (spaced.as_bytes(), [1, 2, 3].as_slice(), SPACED_REPORT),
    ] {
        let (status, sink) = run_under(&rt, alloc, job, &FreeGate)?;
        expect_same(&rt, (status, sink.kept()), (0, report));
        let other = first_other_crew(&rt, alloc, crews, job, report)?;
        expect_same(&rt, other, None);
    }
    Ok(())
}

#[test]
fn workers_make_no_difference_to_a_late_load(rt: HostRuntime) -> Result<(), Fail> {
    let alloc = rt.alloc();
    for (start, value) in LATE_LOADS {
        let job = late_load_job(alloc, start)?;
        let report = late_load_report(alloc, value)?;
        let crews = [1, 2].as_slice();
        let other = first_other_crew(&rt, alloc, crews, job.as_bytes(), report.as_bytes())?;
        expect_same(&rt, other, None);
    }
    Ok(())
}

#[test]
fn a_job_has_at_most_a_worker_a_core(rt: HostRuntime) -> Result<(), Fail> {
    let job = with_workers(rt.alloc(), 3, SHARING)?;
    let (status, sink) = run_under(&rt, rt.alloc(), job.as_slice(), &FreeGate)?;
    expect_same(
        &rt,
        (status, sink.kept()),
        (2, b"job: Range workers\n".as_slice()),
    );
    Ok(())
}
