ghost use Rattle.std.specs.Prelude.{◌≡◌, ◌^◌, ◌<◌, ◌≤◌, length, slice_get};
ghost use Rattle.std.specs.Int.{abs_diff};
ghost use Rattle.argo_grid.specs.Grid.{router_of};
ghost use Rattle.argo_grid.specs.Route.{moved, distance, router_after, links_of, route};

use crate::grid::Grid;

/// A router of the grid.
#[derive(Clone, Copy, Debug, PartialEq, Eq)]
pub struct Router {
    pub column: u32,
    pub row: u32,
}

/// A directed link, which one packet at a time can use.
#[derive(Clone, Copy, Debug, PartialEq, Eq)]
pub enum Link {
    /// From a core into its router.
    Inject { core: u32 },
    /// From a router to a neighbour.
    Between { from: Router, to: Router },
    /// From a router to its core.
    Eject { core: u32 },
}

/// The route of a packet: the cores that send and receive it, and their routers.
#[derive(Clone, Copy)]
pub struct Route {
    pub from: u32,
    pub to: u32,
    pub start: Router,
    pub end: Router,
}

/// The router of a core.
fn router_of(grid: Grid, core: u32) -> Router
    requires { 1 ≤ grid.columns }
    ensures { result ≡ router_of grid core }
{
    Router {
        column: core % grid.columns,
        row: core / grid.columns,
    }
}

/// The number that is so many steps from one toward another.
#[tactic(auto, using(crate::proofs::Ways::moved_up, crate::proofs::Ways::moved_down))]
fn moved(from: u32, to: u32, steps: u32) -> u32
    requires { steps ≤ abs_diff from to }
    ensures { result ≡ moved steps from to }
{
    if from < to {
        from + steps
    } else {
        from - steps
    }
}

impl Route {
    /// The route from one core to another.
    pub fn of(grid: Grid, from: u32, to: u32) -> Route
        requires { 1 ≤ grid.columns }
        ensures { result ≡ route grid from to }
    {
        Route {
            from,
            to,
            start: router_of(grid, from),
            end: router_of(grid, to),
        }
    }

    /// How many links lie between the routers.
    fn hops(&self) -> u64
        ensures count { result ≡ distance self.now.start self.now.end }
        ensures bounded { result < 2 ^ 33 }
    {
        let columns = self.start.column.abs_diff(self.end.column);
        let rows = self.start.row.abs_diff(self.end.row);
        u64::from(columns) + u64::from(rows)
    }

    /// How many links the route has.
    #[tactic(auto, using(crate::proofs::Ways::links_counted))]
    pub fn links(&self) -> u64
        ensures count { result ≡ length (links_of self.now) }
        ensures bounded { result < 2 ^ 34 }
    {
        self.hops() + 2
    }

    /// The router after so many links between routers.
    #[tactic(auto, using(crate::proofs::Ways::along_row, crate::proofs::Ways::along_column))]
    fn router_after(&self, links: u64) -> Router
        requires { links ≤ distance self.now.start self.now.end }
        ensures { result ≡ router_after links self.now.start self.now.end }
    {
        let columns = u64::from(self.start.column.abs_diff(self.end.column));
        if links <= columns {
            let column = moved(self.start.column, self.end.column, links as u32);
            return Router {
                column,
                row: self.start.row,
            };
        }
        let row = moved(self.start.row, self.end.row, (links - columns) as u32);
        Router {
            column: self.end.column,
            row,
        }
    }

    /// The link at a place of the route, counted from 0.
    #[tactic(auto, using(crate::proofs::Ways::link_first, crate::proofs::Ways::link_between, crate::proofs::Ways::link_last))]
    pub fn link(&self, place: u64) -> Link
        requires { place < length (links_of self.now) }
        ensures { slice_get (links_of self.now) place ≡ Some result }
    {
        if place == 0 {
            return Link::Inject { core: self.from };
        }
        if place > self.hops() {
            return Link::Eject { core: self.to };
        }
        Link::Between {
            from: self.router_after(place - 1),
            to: self.router_after(place),
        }
    }
}
