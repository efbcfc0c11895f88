ghost use Rattle.std.specs.Prelude.{◌≡◌, ℕ, ◌+◌, ◌*◌, ◌%◌, ◌^◌, ◌<◌, ◌≤◌, ◌↔◌, length, IsTrue};
ghost use Rattle.slot_arbiter.specs.declared.place.TheConstants.{MOST_SLOT};
ghost use Rattle.slot_arbiter.specs.declared.table.TheConstants.{MOST_ENTRIES};
ghost use Rattle.slot_arbiter.specs.Table.{has_entry, in_turn, is_owned};
ghost use Rattle.slot_arbiter.specs.Order.{IsNext, IsGap, OutlastsWaits};
ghost use Rattle.slot_arbiter.specs.Slot.{is_slot_start, period};

use crate::place::Place;

/// The first cycle at or after `t` at which a slot of the core starts.
pub fn start_of(place: &Place, t: u64) -> u64
    requires in_time { t ≤ 2 ^ 62 }
    ensures next { IsNext (is_slot_start place.now.table place.now.slot place.now.core) t result }
    ensures near { result < t + period place.now.table place.now.slot }

    // A period has at most 64 slots of at most 64 cycles.
    ensures bounded { result < t + 4096 }
{
    next_start(place.table.as_slice(), u64::from(place.slot), place.core, t)
}

/// The greatest distance in cycles from a slot start of the core to its next one.
pub fn gap_of(place: &Place) -> u64
    ensures gap { IsGap (is_slot_start place.now.table place.now.slot place.now.core) result }

    // From whichever cycle on: a core waits for its slot for less than the gap.
    ensures wait { OutlastsWaits (is_slot_start place.now.table place.now.slot place.now.core) result }
    ensures bounded { result ≤ 4096 }
{
    longest_gap(place.table.as_slice(), u64::from(place.slot), place.core)
}

/// Where the cores take their slots in turn, core c's start at the cycles whose remainder by the
/// period is c slots. A law: it does nothing.
pub fn starts_in_turn()
    ensures in_turn { (n core slot cycle : ℕ) → core < n → 0 < slot
        → IsTrue (is_slot_start (in_turn n) slot core cycle) ↔ (cycle % (n * slot) ≡ core * slot) }
{}

/// The first slot start of the core at or after cycle `t`, for slots of `slot` cycles.
fn next_start(entries: &[u32], slot: u64, core: u32, t: u64) -> u64
    requires entries { length entries.now ≤ MOST_ENTRIES }
    requires owner { IsTrue (has_entry entries.now core) }
    requires slot_some { 0 < slot }
    requires slot_most { slot ≤ MOST_SLOT }
    requires time { t ≤ 2 ^ 62 }
    ensures next { IsNext (is_slot_start entries.now slot core) t result }
    ensures near { result < t + period entries.now slot }
    ensures bounded { result < t + 4096 }
{
    let first = t.div_ceil(slot);
    (first + slots_to(entries, core, first)) * slot
}

/// How many slots the core waits for its own from slot `first` on: none where that is its own.
fn slots_to(entries: &[u32], core: u32, first: u64) -> u64
    requires owner { IsTrue (has_entry entries.now core) }
    ensures next { IsNext (is_owned entries.now core) first (first + result) }
    ensures within { result < length entries.now }
{
    let length = entries.len() as u64;
    let mut at = (first % length) as usize;
    for slots in 0..length {
        if entries[at] == core {
            return slots;
        }
        at = if at + 1 == entries.len() { 0 } else { at + 1 };
    }
    unreachable!()
}

/// The gap of the core in cycles, for slots of `slot` cycles.
fn longest_gap(entries: &[u32], slot: u64, core: u32) -> u64
    requires entries { length entries.now ≤ MOST_ENTRIES }
    requires owner { IsTrue (has_entry entries.now core) }
    requires slot_some { 0 < slot }
    requires slot_most { slot ≤ MOST_SLOT }
    ensures gap { IsGap (is_slot_start entries.now slot core) result }
    ensures wait { OutlastsWaits (is_slot_start entries.now slot core) result }
    ensures bounded { result ≤ 4096 }
{
    (1 + longest_wait(entries, core)) * slot
}

/// The most slots that the core ever waits for its own.
fn longest_wait(entries: &[u32], core: u32) -> u64
    requires owner { IsTrue (has_entry entries.now core) }
    ensures gap { IsGap (is_owned entries.now core) (1 + result) }
    ensures wait { OutlastsWaits (is_owned entries.now core) (1 + result) }
    ensures within { result < length entries.now }
{
    let mut longest = slots_to(entries, core, 0);
    for first in 1..entries.len() as u64 {
        longest = longest.max(slots_to(entries, core, first));
    }
    longest
}

#[cfg(test)]
mod tests {
    use super::*;
    use crate::table::Table;

    #[test]
    fn starts_by_turns(rt: HostRuntime) {
        let place = Place::new(4, 2, 6, 0).expect(&rt, "a place");
        for (t, want) in [(0, 12), (12, 12), (13, 36), (35, 36)] {
            assert_eq!(rt; start_of(&place, t), want, "at {t}");
        }
        assert_eq!(rt; gap_of(&place), 24);
    }

    #[test]
    fn starts_by_table(rt: HostRuntime) {
        let table = Table::new(&[0, 1, 0, 2], 3).expect(&rt, "a table");
        let place = Place::tabled(&table, 3, 0, 6, 0).expect(&rt, "a place");
        for (t, want) in [(0, 0), (1, 12), (12, 12), (13, 24), (23, 24)] {
            assert_eq!(rt; start_of(&place, t), want, "at {t}");
        }
        for (core, want) in [(0, 12), (1, 24), (2, 24)] {
            let place = Place::tabled(&table, 3, core, 6, 0).expect(&rt, "a place");
            assert_eq!(rt; gap_of(&place), want, "core {core}");
        }
        let table = Table::new(&[0, 0, 1], 2).expect(&rt, "a table");
        for (core, want) in [(0, 12), (1, 18)] {
            let place = Place::tabled(&table, 2, core, 6, 0).expect(&rt, "a place");
            assert_eq!(rt; gap_of(&place), want, "core {core}");
        }
    }
}
