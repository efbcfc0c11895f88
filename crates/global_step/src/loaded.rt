ghost use Rattle.std.specs.Prelude.{◌≡◌, ℕ, ◌<◌, ◌↔◌, length, IsTrue, IfSome, slice_get};
ghost use Rattle.std.specs.Option.{SomeIff};
ghost use Rattle.global_step.specs.Loaded as specs;
ghost use Rattle.global_step.specs.Loaded.{IsLoaded, IsBeside, AreBeside, AreOnePlatform};

use patmos_code::Image;
use slot_arbiter::{MOST_CYCLES, MOST_TRACE, Place};
use std::marker::Model;
use tc_word::List;

/// A core as it is before the first cycle: its place, the image of its task if it has one, and the
/// words of the task's input.
#[derive(Debug, Drop)]
pub struct LoadedCore {
    pub place: Place,
    pub image: Option<Image>,
    pub input: List<u32>,
}

/// What a machine runs: its cores, all of one platform, the cycle limit (1 to [`MOST_CYCLES`]), how many
/// transactions of each core are told (at most [`MOST_TRACE`]), and among how many workers the cores are
/// divided (1 to the number of cores).
#[derive(Debug, Drop)]
pub struct Loaded {
    cores: List<LoadedCore>,
    limit: u64,
    trace: u32,
    workers: u32,
}

impl Model for Loaded {
    ghost use Rattle.global_step.specs.Loaded.{IsLoaded, Machine};

    ghost Value = { Machine };

    ghost view = { λ l. record { cores = l.cores; limit = l.limit; trace = l.trace; workers = l.workers } };

    ghost invariant = { λ l. IsLoaded l.cores l.limit l.trace l.workers };
}

impl Loaded {
    /// What a machine of these cores runs, or `None` exactly where they are not the cores of one
    /// platform in the order of their numbers, or a number is out of its range.
    pub fn new(cores: List<LoadedCore>, limit: u64, trace: u32, workers: u32) -> Option<Loaded>
        ensures { SomeIff result (IsLoaded cores limit trace workers)
            (record { cores = cores; limit = limit; trace = trace; workers = workers }) }
    {
        if are_one_platform(cores.as_slice())
            && (1..=MOST_CYCLES).contains(&limit)
            && trace <= MOST_TRACE
            && 1 <= workers
            && workers as usize <= cores.as_slice().len()
        {
            Some(Loaded {
                cores,
                limit,
                trace,
                workers,
            })
        } else {
            None
        }
    }

    /// The cores, in the order of their numbers.
    pub fn cores(&self) -> &[LoadedCore]
        ensures value { result.now ≡ self.now.cores }
        ensures kept { IsLoaded self.now.cores self.now.limit self.now.trace self.now.workers }
    {
        self.cores.as_slice()
    }

    /// The cycle limit.
    pub fn limit(&self) -> u64
        ensures value { result ≡ self.now.limit }
        ensures kept { IsLoaded self.now.cores self.now.limit self.now.trace self.now.workers }
    {
        self.limit
    }

    /// How many transactions of each core are told.
    pub fn trace(&self) -> u32
        ensures value { result ≡ self.now.trace }
        ensures kept { IsLoaded self.now.cores self.now.limit self.now.trace self.now.workers }
    {
        self.trace
    }

    /// Among how many workers the cores are divided.
    pub fn workers(&self) -> u32
        ensures value { result ≡ self.now.workers }
        ensures kept { IsLoaded self.now.cores self.now.limit self.now.trace self.now.workers }
    {
        self.workers
    }
}

// whether the cores are those of one platform, all of them, in the order of their numbers
fn are_one_platform(cores: &[LoadedCore]) -> bool
    ensures { IsTrue result ↔ AreOnePlatform cores.now }
{
    match cores.first() {
        Some(first) => are_beside(cores, &first.place),
        None => true,
    }
}

// whether the cores are those of another place's platform, in the order of their numbers
fn are_beside(cores: &[LoadedCore], other: &Place) -> bool
    ensures { IsTrue result ↔ AreBeside other.now cores.now }
{
    for k in 0..cores.len() {
        if !is_beside(cores.len(), k, other, &cores[k].place) {
            return false;
        }
    }
    true
}

fn is_beside(count: usize, k: usize, other: &Place, place: &Place) -> bool
    ensures { IsTrue result ↔ IsBeside count k other.now place.now }
{
    place.cores as usize == count
        && place.core as usize == k
        && place.slot == other.slot
        && place.table.as_slice() == other.table.as_slice()
}
