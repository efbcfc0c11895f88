use crate::grid::{Entry, Grid};
use std::marker::Model;
use tc_word::List;

/// The longest period of a schedule, in slots of three cycles.
pub const MOST_PERIOD: u32 = 4_096;

/// The most entries of a schedule.
pub const MOST_ENTRIES: usize = 4_096;

/// A schedule for a grid of 2 to 16 routers: a period of 1 to [`MOST_PERIOD`] slots of three cycles, and at
/// most [`MOST_ENTRIES`].
#[derive(Drop)]
pub struct GridJob {
    pub grid: Grid,
    /// The length of the period, in slots.
    pub length: u32,
    pub entries: List<Entry>,
}

impl Model for GridJob {
    ghost use Rattle.argo_grid.specs.Schedule.{Schedule};

    ghost Value = { Schedule };

    ghost use Rattle.argo_grid.specs.Seen.{seen};
    ghost use Rattle.argo_grid.specs.Schedule.{IsBounded};

    ghost view = { seen };

    ghost invariant = { λ a. IsBounded (seen a) };
}
