//! How the workers of a run wait for one another's clocks. No clause speaks of it: it costs time alone.
//!
//! A thread that waits peeks at the clock, which is no look: no pass learns of it. Where each thread can have a
//! processor of its own, the clock mostly comes within microseconds, and it is quickest to peek again. Where there
//! are fewer processors, or other programs use them too, the thread that is waited for may not run at all, and the
//! one that waits has to leave it a processor. To yield is cheap where nothing else runs, and dear where other
//! programs do, since each of them then has its whole slice first. So after a while it sleeps; an alarm says up to
//! which stamp, and who publishes that stamp or a later one wakes it.
//!
//! Who sleeps sets the alarm before its last peek, and who publishes reads the alarm afterwards, so that one of the
//! two sees the other. A sleep ends by itself all the same, after a millisecond.
//!
//! Where a thread has to let others run time and again and comes hardly further, threads of their own are not worth
//! what they cost: then all threads of the run give their workers back, and one thread runs them all.
use clock_board::{Board, Course};
use std::array;
use std::hint::spin_loop;
use std::sync::Wait;
use std::sync::atomic::{AtomicBool, AtomicU64, Ordering};
use std::thread::yield_now;
use std::time::Duration;

/// No thread sleeps for a clock.
const NO_ALARM: u64 = u64::MAX;

/// How often a thread peeks at a clock before it sleeps, at most: for some fifty microseconds.
const MOST_PEEKS: u32 = 8192;

/// How often at least.
const LEAST_PEEKS: u32 = 16;

/// After so many waits in a row in which peeking did not serve, it is given its most once.
const MISSES: u32 = 128;

/// How often a thread yields before it sleeps, where it does not peek instead.
const YIELDS: u32 = 1024;

/// How often a thread lets others run until it is asked how far it has come.
const WAITS: u32 = 64;

/// How far it has to come for each of these, in stamps, of which a cycle has two for each core.
const WORTH: u64 = 2048;

/// The longest sleep, in microseconds: what a lost signal costs.
const MOST_MICROS: u64 = 1000;

/// How often a thread peeks before it sleeps: the more often, the more that served it of late; and whether it is
/// worth being one.
#[derive(Drop)]
pub(crate) struct Patience {
    peeks: u32,
    misses: u32,
    // How often it let others run since it was last asked how far it has come, and the stamp at which it was then.
    waits: u32,
    since: u64,
}

impl Patience {
    /// That of a thread that has not waited yet.
    pub(crate) fn new() -> Patience {
        Patience {
            peeks: MOST_PEEKS,
            misses: 0,
            waits: 0,
            since: 0,
        }
    }

    // it has to let others run, for a stamp: whether it has done so often of late, and come hardly further
    fn is_at_an_end(&mut self, stamp: u64) -> bool {
        self.waits = self.waits.saturating_add(1);
        if self.waits < WAITS {
            return false;
        }
        let further = stamp.saturating_sub(self.since);
        self.waits = 0;
        self.since = stamp;
        further < u64::from(WAITS) * WORTH
    }

    // how often to peek this time
    fn peeks(&self) -> u32 {
        if self.misses < MISSES {
            self.peeks
        } else {
            MOST_PEEKS
        }
    }

    // peeking served this time, or not
    fn learn(&mut self, served: bool) {
        if served {
            self.peeks = self.peeks().saturating_mul(2).min(MOST_PEEKS);
            self.misses = 0;
        } else {
            self.peeks = (self.peeks / 2).max(LEAST_PEEKS);
            self.misses = self.misses % MISSES + 1;
        }
    }
}

/// What the workers of one run share to wait for one another, beside the board. It changes no clock, and no pass
/// knows of it.
#[derive(Drop)]
pub struct Waiting {
    // For each clock the least stamp that a thread sleeps for. Those who sleep for the clock sleep on this word.
    alarms: [AtomicU64; 16],
    // Whether a thread that waits peeks for a while first, or lets others run.
    peeks_first: bool,
    // Whether the threads give their workers back.
    gathers: AtomicBool,
}

impl Waiting {
    /// For workers that wait for nothing yet. Before it sleeps, a thread that waits peeks for a while, for which
    /// each wants a processor of its own, or lets other threads run for a while.
    pub fn new(peeks_first: bool) -> Waiting {
        Waiting {
            alarms: array::from_fn(|_| AtomicU64::new(NO_ALARM)),
            peeks_first,
            gathers: AtomicBool::new(false),
        }
    }

    /// Whether an alarm is set for core d's clock: a thread sets it as it goes to sleep, when it has peeked or
    /// yielded for its while, and whoever publishes the stamp that it waits for takes it back.
    pub fn is_awaited(&self, d: u32) -> bool {
        match self.alarms.get(d as usize) {
            Some(alarm) => alarm.load(Ordering::SeqCst) != NO_ALARM,
            None => false,
        }
    }

    /// Whether the threads give their workers back, so that one thread runs them all.
    pub(crate) fn is_gathering(&self) -> bool {
        self.gathers.load(Ordering::SeqCst)
    }

    /// Waits until core d's clock is at or past a stamp, or the threads give their workers back. Of a core that the
    /// board does not have, it waits for none.
    pub(crate) fn wait_for<R: Wait, C: Course>(
        &self,
        rt: &R,
        board: &Board<C>,
        patience: &mut Patience,
        d: u32,
        stamp: u64,
    ) {
        if is_past(board, d, stamp) {
            return;
        }
        if self.peeks_first && comes_soon(board, patience, d, stamp) {
            return;
        }
        if patience.is_at_an_end(stamp) {
            self.gathers.store(true, Ordering::SeqCst);
        } else if self.peeks_first || !comes_by_yielding(board, d, stamp) {
            self.sleep(rt, board, d, stamp);
        }
    }

    // sleeps until core d's clock is at or past a stamp, or the threads give their workers back
    fn sleep<R: Wait, C: Course>(&self, rt: &R, board: &Board<C>, d: u32, stamp: u64) {
        let Some(alarm) = self.alarms.get(d as usize) else {
            return;
        };
        let limit = Duration::from_micros(MOST_MICROS);
        for _ in rt.forever() {
            let least = alarm.fetch_min(stamp, Ordering::SeqCst).min(stamp);
            if is_past(board, d, stamp) || self.is_gathering() {
                return;
            }
            alarm.park_timeout(rt, (least % (1 << 32)) as u32, limit);
        }
    }

    /// A core has published a stamp: wakes the threads that sleep for its clock, where one of them waits for this
    /// stamp or a lesser one.
    pub(crate) fn tell(&self, core: u32, stamp: u64) {
        let Some(alarm) = self.alarms.get(core as usize) else {
            return;
        };
        if stamp >= alarm.load(Ordering::SeqCst) {
            alarm.store(NO_ALARM, Ordering::SeqCst);
            alarm.wake_all();
        }
    }
}

// whether core d's clock is at or past a stamp, or the board has none
fn is_past<C: Course>(board: &Board<C>, d: u32, stamp: u64) -> bool {
    match board.peek(d) {
        Some(shown) => shown >= stamp,
        None => true,
    }
}

// whether the stamp comes while the worker peeks for a while
fn comes_soon<C: Course>(board: &Board<C>, patience: &mut Patience, d: u32, stamp: u64) -> bool {
    let mut comes = false;
    for _ in 0..patience.peeks() {
        if is_past(board, d, stamp) {
            comes = true;
            break;
        }
        spin_loop();
    }
    patience.learn(comes);
    comes
}

// whether the stamp comes while the worker lets other threads run
fn comes_by_yielding<C: Course>(board: &Board<C>, d: u32, stamp: u64) -> bool {
    for _ in 0..YIELDS {
        yield_now();
        if is_past(board, d, stamp) {
            return true;
        }
    }
    false
}
