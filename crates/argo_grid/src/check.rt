ghost use Rattle.std.specs.Prelude.{◌≡◌, ◌≤◌, ◌↔◌, IsOk, IsTrue, length, position};
ghost use Rattle.argo_grid.specs.declared.fault.GridFault.{GridFault};
ghost use Rattle.argo_grid.specs.Check as specs;
ghost use Rattle.argo_grid.specs.Correct.{IsCorrect, IsFirstFault};
ghost use Rattle.argo_grid.specs.Packet.{travel_time};
ghost use Rattle.argo_grid.specs.Schedule.{IsBounded};

use crate::fault::GridFault;
use crate::grid::Entry;
use crate::job::{GridJob, MOST_ENTRIES};
use crate::route::Route;
use crate::share::shares;

/// Checks a schedule: no two packets may ever use one link in one cycle. It takes no memory.
pub fn check_grid(job: &GridJob) -> Result<(), GridFault>
    ensures answer { result ≡ specs.checked job.now }
    ensures correct { IsOk result ↔ IsCorrect job.now }
    ensures fault { (fault : GridFault) → (result ≡ Err fault) ↔ IsFirstFault job.now fault }
{
    first_fault(job)
}

/// The first fault of the first faulty entry.
#[tactic(auto, unfolding(crate::specs::Check::checked), using(crate::proofs::Checking::next_checked, crate::proofs::Checking::next_faulty, crate::proofs::Checking::all_checked))]
fn first_fault(job: &GridJob) -> Result<(), GridFault>
    ensures first { result ≡ specs.checked job.now }
    ensures bounded { IsBounded job.now }
{
    let entries = job.entries.as_slice();
    for (number, entry) in entries.iter().enumerate() {
        let (earlier, _) = entries.split_at(number);
        if let Some(fault) = fault_of(job, earlier, entry) {
            return Err(fault);
        }
    }
    Ok(())
}

/// The first fault of the entry that follows the earlier ones.
fn fault_of(job: &GridJob, earlier: &[Entry], entry: &Entry) -> Option<GridFault>
    requires { length earlier.now ≤ MOST_ENTRIES }
    ensures { result ≡ specs.fault_of job.now earlier.now entry.now }
{
    let number = earlier.len() as u32;
    if !is_in_range(job, entry) {
        return Some(GridFault::Range { entry: number });
    }
    let needs = travel_time(job, entry);
    if entry.arrive != needs {
        return Some(GridFault::Late {
            entry: number,
            needs,
        });
    }
    let other = first_shared(job, earlier, entry)?;
    Some(GridFault::Shared {
        entry: number,
        other: other as u32,
    })
}

/// The first of the earlier entries that uses a link in a slot in which the entry uses it.
fn first_shared(job: &GridJob, earlier: &[Entry], entry: &Entry) -> Option<usize>
    ensures { result ≡ position (specs.shares job.now entry.now) earlier.now }
{
    earlier.iter().position(|other| shares(job, entry, other))
}

/// How many cycles a packet of the entry is under way.
#[tactic(auto, using(crate::proofs::Checking::few_cycles))]
fn travel_time(job: &GridJob, entry: &Entry) -> u32
    requires { IsTrue (specs.in_range job.now entry.now) }
    ensures { result ≡ travel_time job.now.grid entry.now }
{
    let route = Route::of(job.grid, entry.from, entry.to);
    3 * route.links() as u32
}

/// Whether the entry sends in a slot of the period, from one core of the grid to another.
fn is_in_range(job: &GridJob, entry: &Entry) -> bool
    ensures { result ≡ specs.in_range job.now entry.now }
{
    let routers = job.grid.columns * job.grid.rows;
    entry.slot < job.length && entry.from < routers && entry.to < routers && entry.from != entry.to
}
