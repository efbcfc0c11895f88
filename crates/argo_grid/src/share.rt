ghost use Rattle.std.specs.Prelude.{◌≡◌, ◌+◌, ◌^◌, ◌<◌, ◌≤◌, ◌↔◌, IsTrue};
ghost use Rattle.argo_grid.specs.Route.{links_of};
ghost use Rattle.argo_grid.specs.Check.{HasLink, MeetIn, shares};

use crate::grid::Entry;
use crate::job::{GridJob, MOST_PERIOD};
use crate::route::{Link, Route};

/// Whether packets of two entries use one link in one slot of the period.
#[tactic(auto, using(crate::proofs::Sharing::shares_by_places))]
pub fn shares(job: &GridJob, entry: &Entry, other: &Entry) -> bool
    ensures { result ≡ shares job.now entry.now other.now }
{
    let route = Route::of(job.grid, entry.from, entry.to);
    let other_route = Route::of(job.grid, other.from, other.to);
    let period = u64::from(job.length);
    let slot = u64::from(entry.slot);
    let other_slot = u64::from(other.slot);
    meet_in(period, slot, &route, other_slot, &other_route)
}

/// Whether two routes that begin in these slots use one link in one slot of the period.
#[tactic(auto, using(crate::proofs::Periods::no_more_meetings))]
fn meet_in(period: u64, slot: u64, route: &Route, other_slot: u64, other: &Route) -> bool
    requires least { 1 ≤ period }
    requires most { period ≤ MOST_PERIOD }
    requires slots { slot + other_slot < 2 ^ 40 }
    ensures { IsTrue result ↔ MeetIn period slot (links_of route.now) other_slot (links_of other.now) }
{
    // How many slots before the first route the other one begins.
    let ahead = (slot + (period - other_slot % period)) % period;
    if ahead >= other.links() && ahead + route.links() <= period {
        return false;
    }
    for place in 0..route.links() {
        let first = (ahead + place) % period;
        if has_link(other, route.link(place), first, period) {
            return true;
        }
    }
    false
}

/// Whether the route has the link at a place that leaves this remainder in the period.
fn has_link(route: &Route, link: Link, first: u64, period: u64) -> bool
    requires within { first < period }
    requires most { period ≤ MOST_PERIOD }
    ensures { IsTrue result ↔ HasLink period first (links_of route.now) link }
{
    let mut place = first;
    while place < route.links() {
        if route.link(place) == link {
            return true;
        }
        place += period;
    }
    false
}
