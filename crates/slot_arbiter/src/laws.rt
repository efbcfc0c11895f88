ghost use Rattle.std.specs.Prelude.{◌≡◌};
ghost use Rattle.slot_arbiter.specs.declared.event.TheConstants.{MOST_TRACE};
ghost use Rattle.slot_arbiter.specs.declared.place.TheConstants.{LATEST_START, LEAST_SLOT, MOST_CYCLES, MOST_SLOT};
ghost use Rattle.slot_arbiter.specs.declared.table.TheConstants.{MOST_CORES, MOST_ENTRIES};

/// The limits of a platform and of a run, in numbers: cores, entries of a slot table, cycles of a
/// slot and of a run, and transactions that a report lists. A law: it does nothing.
pub fn limits()
    ensures cores { MOST_CORES ≡ 16 }
    ensures entries { MOST_ENTRIES ≡ 64 }
    ensures least_slot { LEAST_SLOT ≡ 6 }
    ensures most_slot { MOST_SLOT ≡ 64 }
    ensures cycles { MOST_CYCLES ≡ 20000000 }
    ensures start { LATEST_START ≡ 20000000 }
    ensures trace { MOST_TRACE ≡ 65536 }
{}
