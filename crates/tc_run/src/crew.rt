ghost use Rattle.std.specs.Prelude.{◌≡◌, ℕ, ◌+◌, ◌≤◌, ◌<◌, List, [], ◌++◌, length, vec_len, vec_capacity, IfOk};
ghost use Rattle.std.specs.List.{All};
ghost use Rattle.clock_board.specs.Board.{BoardFace};
ghost use Rattle.core_worker.specs.Worker.{WorkerFace, IsDone, IsOn};
ghost use Rattle.tc_run.specs.Carried.{Carries, IsCrewOn, IsReady, workers_in, workers_of};

use crate::threads::{Common, SameWorkers, gather, run_on, run_through, start_group};
use core_worker::Worker;
use global_step::Loaded;
use std::alloc::Global;
use std::sync::Wait;
use std::sync::atomic::AtomicBool;
use std::thread;
use std::thread::{PromisedHandle, Scope, Threads};
use tc_io::Gate;
use tc_word::OutOfMemory;

/// All workers of a run: those that the caller has, and those that moved into threads.
#[derive(Drop)]
pub(crate) struct Crew {
    pub(crate) here: Vec<Worker<Loaded>>,
    pub(crate) away: Vec<PromisedHandle<Vec<Worker<Loaded>>, SameWorkers>>,
}

impl Crew {
    /// A crew that has the last of the groups, with room for so many workers, and for a thread for each of the
    /// groups that are left.
    pub(crate) fn with_last(
        alloc: Global,
        groups: &mut Vec<Vec<Worker<Loaded>>>,
        workers: usize,
    ) -> Result<Crew, OutOfMemory>
        requires some { 0 < vec_len groups.old }
        requires room { length (workers_in groups.old.items) ≤ workers }
        ensures carries { IfOk result (λ crew. (board : BoardFace)
            → Carries board (workers_in groups.old.items) (workers_of crew ++ workers_in groups.new.items)) }
        ensures away { IfOk result (λ crew. (board : BoardFace) → IsCrewOn board crew) }
        ensures room { IfOk result (λ crew. length (workers_of crew) + length (workers_in groups.new.items)
            ≤ vec_capacity crew.here) }
        ensures threads { IfOk result (λ crew. vec_len crew.away + vec_len groups.new ≤ vec_capacity crew.away) }
    {
        let mut here = Vec::with_capacity(alloc, workers)?;
        let Some(last) = groups.pop() else {
            unreachable!()
        };
        gather(&mut here, last);
        let away = Vec::with_capacity(alloc, groups.len())?;
        Ok(Crew { here, away })
    }

    /// Runs the workers that the caller has until none of them has an event left, or all threads give theirs back.
    fn run_here<R: Wait, G: Gate>(&mut self, common: Common<'_, R, G>)
        requires on { All (IsOn common.board.now) (workers_of self.old) }
        ensures carries { Carries common.entry.board.now (workers_of self.old) (workers_of self.new) }
        ensures ready { (workers : List WorkerFace) (groups : ℕ)
            → IsReady common.entry.board.now self.old workers groups
            → IsReady common.entry.board.now self.new workers groups }
    {
        run_on(common, &mut self.here);
    }

    /// Takes a group of workers on, in a thread of its own. Where no thread can be started, the caller has them.
    pub(crate) fn take_on<'s, E, R: Threads + Wait + Sync, G: Gate + Sync>(
        &mut self,
        scope: &Scope<'s, E>,
        common: Common<'s, R, G>,
        group: Vec<Worker<Loaded>>,
        refused: &'s AtomicBool,
    )
        requires on { All (IsOn common.board.now) group.items }
        requires away { IsCrewOn common.board.now self.old }
        requires room { length (workers_of self.old) + vec_len group ≤ vec_capacity self.old.here }
        requires threads { vec_len self.old.away < vec_capacity self.old.away }
        ensures carries { Carries common.entry.board.now (workers_of self.old ++ group.items) (workers_of self.new) }
        ensures away { IsCrewOn common.entry.board.now self.new }
        ensures room { vec_capacity self.old.here ≤ vec_capacity self.new.here }
        ensures one { vec_len self.new.away ≤ vec_len self.old.away + 1 }
        ensures threads { vec_capacity self.new.away ≡ vec_capacity self.old.away }
    {
        match start_group(scope, common, group, refused) {
            Ok(handle) => self.away.push_reserved(handle),
            Err(back) => gather(&mut self.here, back),
        }
    }

    /// Takes each of the groups on that has workers, each with a flag of its own.
    pub(crate) fn take_all_on<'s, E, R: Threads + Wait + Sync, G: Gate + Sync>(
        &mut self,
        scope: &Scope<'s, E>,
        common: Common<'s, R, G>,
        mut groups: Vec<Vec<Worker<Loaded>>>,
        refused: &'s [AtomicBool],
    )
        requires ready { IsReady common.board.now self.old (workers_in groups.items) (vec_len groups) }
        requires flags { vec_len groups ≤ length refused.now }
        ensures carries { Carries common.entry.board.now (workers_of self.old ++ workers_in groups.items)
            (workers_of self.new) }
        ensures ready { IsReady common.entry.board.now self.new [] 0 }
    {
        while let Some(group) = groups.pop() {
            let flag = &refused[groups.len()];
            if !group.is_empty() {
                self.take_on(scope, common, group, flag);
            }
        }
    }

    /// Joins the threads. The caller has all workers then.
    pub(crate) fn joined<R: Threads>(self, rt: &R) -> Vec<Worker<Loaded>>
        requires room { length (workers_of self) ≤ vec_capacity self.here }
        ensures carries { (board : BoardFace) → IsCrewOn board self → Carries board (workers_of self) result.items }
    {
        let Crew { mut here, mut away } = self;
        while let Some(handle) = away.pop() {
            gather(&mut here, handle.join(rt));
        }
        here
    }
}

/// Runs all workers: first those that the crew has, and then each of the groups in a thread of its own, or in
/// the thread of the call where no thread can be started. What the threads give back undone, the call does.
pub(crate) fn run_groups<R: Threads + Wait + Sync, G: Gate + Sync>(
    common: Common<'_, R, G>,
    groups: Vec<Vec<Worker<Loaded>>>,
    crew: Crew,
    refused: &[AtomicBool],
) -> Vec<Worker<Loaded>>
    requires ready { IsReady common.board.now crew (workers_in groups.items) (vec_len groups) }
    requires flags { vec_len groups ≤ length refused.now }
    ensures carries { Carries common.entry.board.now (workers_of crew ++ workers_in groups.items) result.items }
    ensures done { All IsDone result.items }
{
    let Common {
        rt,
        board,
        waiting,
        gate,
    } = common;
    thread::scope(
        thread::scope_env(),
        rt,
        |scope| -> Vec<Worker<Loaded>>
            requires ready { IsReady board.now crew (workers_in groups.items) (vec_len groups) }
            requires flags { vec_len groups ≤ length refused.now }
            ensures carries { Carries board.entry.now (workers_of crew ++ workers_in groups.items) result.items }
            ensures done { All IsDone result.items }
        {
            let common = Common {
                rt,
                board,
                waiting,
                gate,
            };
            run_in(scope, common, groups, crew, refused)
        },
    )
}

// runs the crew in the scope of its threads
fn run_in<'s, E, R: Threads + Wait + Sync, G: Gate + Sync>(
    scope: &Scope<'s, E>,
    common: Common<'s, R, G>,
    groups: Vec<Vec<Worker<Loaded>>>,
    mut crew: Crew,
    refused: &'s [AtomicBool],
) -> Vec<Worker<Loaded>>
    requires ready { IsReady common.board.now crew (workers_in groups.items) (vec_len groups) }
    requires flags { vec_len groups ≤ length refused.now }
    ensures carries { Carries common.entry.board.now (workers_of crew ++ workers_in groups.items) result.items }
    ensures done { All IsDone result.items }
{
    crew.run_here(common);
    crew.take_all_on(scope, common, groups, refused);
    crew.run_here(common);
    let mut workers = crew.joined(common.rt);
    run_through(common, &mut workers);
    workers
}
