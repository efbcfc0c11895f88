ghost use Rattle.std.specs.Prelude.{ℕ, ◌≡◌, ◌≢◌, ◌≤◌, ◌<◌, [], length, slice_index, slice_index_or, vec_capacity};
ghost use Rattle.std.specs.List.{All};
ghost use Rattle.argo_ni.specs.Packet.{comm_word};
ghost use Rattle.clock_board.specs.View.{maker as new_maker};
ghost use Rattle.clock_board.specs.Board.{BoardFace, IsPassOf};
ghost use Rattle.core_worker.specs.Worker.{WorkerFace};
ghost use Rattle.global_step.specs.Loaded.{Machine};
ghost use Rattle.global_step.specs.Machine.{at_limit, all_operations};
ghost use Rattle.global_step.specs.Range.{IsOfWords};
ghost use Rattle.tc_run.specs.Final.{AreFinal};
ghost use Rattle.tc_run.specs.Worked.{number_of, HasWorker, HaveAll, IsThroughWith, IsBoardOf};

use crate::begin::count_of;
use clock_board::{Board, Pass};
use core_worker::Worker;
use global_step::Loaded;
use patmos_core::Core;
use tc_word::List;

/// What a machine leaves at its limit.
#[derive(Drop)]
pub struct Final {
    /// Its cores, in the order of their numbers.
    pub cores: List<Core>,
    /// The words of the board: those of shared memory, and then of each core's communication memory.
    pub words: List<u32>,
}

/// Takes the passes of all workers back, closes the board for its words, and puts the cores into a list that
/// has room for them, in the order of their numbers.
pub(crate) fn end_of(
    machine: &Loaded,
    board: Board<Loaded>,
    mut maker: Pass<Loaded>,
    mut workers: Vec<Worker<Loaded>>,
    mut cores: Vec<Core>,
) -> Final
    requires words { IsOfWords machine.now }
    requires board { IsBoardOf machine.now board }
    requires of { IsPassOf board maker }
    requires maker { maker.view ≡ new_maker (length machine.now.cores) (all_operations machine.now) }
    requires through { All (IsThroughWith machine.now board) workers.items }
    requires all { HaveAll machine.now workers.items }
    requires empty { cores.items ≡ [] }
    requires room { length machine.now.cores ≤ vec_capacity cores }
    ensures cores { AreFinal machine.now result.cores }
    ensures words { (w : ℕ) → slice_index result.words w ≡ (at_limit machine.now).words w }
    ensures board { length result.words ≡ comm_word (length machine.now.cores) 0 }
{
    for core in 0..count_of(machine) {
        let worker = take_worker(&mut workers, core as u32);
        let (core, pass) = worker.finish();
        board.take_back(&mut maker, pass);
        cores.push_reserved(core);
    }
    Final {
        cores: List::of(cores),
        words: board.close(maker),
    }
}

// takes the worker of a core out of a list that has one
fn take_worker(workers: &mut Vec<Worker<Loaded>>, core: u32) -> Worker<Loaded>
    requires there { HasWorker workers.old.items core }
    ensures number { number_of result ≡ core }
    ensures through { (m : Machine) (board : BoardFace) → All (IsThroughWith m board) workers.old.items
        → IsThroughWith m board result }
    ensures left { (m : Machine) (board : BoardFace) → All (IsThroughWith m board) workers.old.items
        → All (IsThroughWith m board) workers.new.items }
    ensures others { (k : ℕ) → k ≢ core → HasWorker workers.old.items k → HasWorker workers.new.items k }
{
    let at = place_among(workers.as_slice(), core);
    workers.swap_remove(at)
}

// where the worker of a core stands in a list that has one
fn place_among(workers: &[Worker<Loaded>], core: u32) -> usize
    requires there { HasWorker workers.now core }
    ensures within { result < length workers.now }
    ensures number { (d : WorkerFace) → number_of (slice_index_or workers.now result d) ≡ core }
{
    for k in 0..workers.len() {
        if workers[k].place().core == core {
            return k;
        }
    }
    unreachable!()
}
