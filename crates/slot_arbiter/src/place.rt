ghost use Rattle.std.specs.Prelude.{◌≡◌, ◌↔◌, IsTrue, IsSome, IfSome};
ghost use Rattle.slot_arbiter.specs.Place.{IsPlace};
ghost use Rattle.slot_arbiter.specs.Table.{in_turn, is_table};

use crate::table::{self, Table};

/// The greatest cycle limit of a run, in cycles: no core acts at a later cycle.
pub const MOST_CYCLES: u64 = 20_000_000;

/// The least length of a slot, in cycles.
pub const LEAST_SLOT: u32 = 6;

/// The greatest length of a slot, in cycles.
pub const MOST_SLOT: u32 = 64;

/// The latest cycle at which a task may start.
pub const LATEST_START: u64 = MOST_CYCLES;

/// What one core knows of its place on the platform.
#[derive(Clone, Copy, Debug, PartialEq, Eq)]
pub struct Place {
    /// How many cores the platform has, 1 to 16.
    pub cores: u32,
    /// The number of this core, below `cores`.
    pub core: u32,
    /// The length of a slot in cycles, 6 to 64.
    pub slot: u32,
    /// The cycle at which the core's task starts, at most [`LATEST_START`].
    pub start: u64,
    /// The slot table, which is one for these cores.
    pub table: Table,
    pub ghost in_range: { IsPlace cores core slot start },
    pub ghost owned: { IsTrue (is_table cores table) },
}

impl Place {
    ghost use Rattle.slot_arbiter.specs.Place.HasNumbers.{HasNumbers};

    /// The place of a core among cores that take their slots in turn, or `None` where there are
    /// not 1 to 16 cores, the core is none of them, a slot is not of 6 to 64 cycles, or the start
    /// is past cycle [`LATEST_START`].
    pub fn new(cores: u32, core: u32, slot: u32, start: u64) -> Option<Place>
        ensures made { IsSome result ↔ IsPlace cores core slot start }
        ensures kept { IfSome result (λ p. HasNumbers p cores core slot start) }
        ensures in_turn { IfSome result (λ p. p.table ≡ in_turn cores) }
    {
        if !is_in_range(cores, core, slot, start) {
            return None;
        }
        Some(Place {
            cores,
            core,
            slot,
            start,
            table: table::round_robin(cores),
        })
    }

    /// The place of a core under a slot table, or `None` where a number is out of the ranges of
    /// [`Place::new`] or the table is none for that many cores.
    pub fn tabled(table: &Table, cores: u32, core: u32, slot: u32, start: u64) -> Option<Place>
        ensures made { IsSome result ↔ (IsPlace cores core slot start × IsTrue (is_table cores table.now)) }
        ensures kept { IfSome result (λ p. HasNumbers p cores core slot start) }
        ensures table { IfSome result (λ p. p.table ≡ table.now) }
    {
        if !is_in_range(cores, core, slot, start) || !table::fits(table.as_slice(), cores) {
            return None;
        }
        Some(Place {
            cores,
            core,
            slot,
            start,
            table: *table,
        })
    }
}

/// Whether the numbers of a place are in their ranges.
fn is_in_range(cores: u32, core: u32, slot: u32, start: u64) -> bool
    ensures { IsTrue result ↔ IsPlace cores core slot start }
{
    core < cores
        && cores <= table::MOST_CORES
        && (LEAST_SLOT..=MOST_SLOT).contains(&slot)
        && start <= LATEST_START
}

#[cfg(test)]
mod tests {
    use super::*;

    #[test]
    fn refuses_what_is_no_place(rt: HostRuntime) {
        let cases = [
            ((4, 2, 6, 20_000_000), true),
            ((16, 15, 64, 0), true),
            ((0, 0, 6, 0), false),
            ((17, 0, 6, 0), false),
            ((4, 4, 6, 0), false),
            ((4, 2, 5, 0), false),
            ((4, 2, 65, 0), false),
            ((4, 2, 6, 20_000_001), false),
        ];
        for ((cores, core, slot, start), want) in cases {
            let place = Place::new(cores, core, slot, start);
            assert_eq!(rt; place.is_some(), want, "{cores} {core} {slot} {start}");
        }
        let table = Table::new(&[0, 1, 0, 2], 3).expect(&rt, "a table");
        assert!(rt; Place::tabled(&table, 4, 0, 6, 0).is_none());
    }
}
