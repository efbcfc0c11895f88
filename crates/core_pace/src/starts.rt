ghost use Rattle.std.specs.Prelude.{◌≡◌, ℕ, ◌<◌, List, true};
ghost use Rattle.slot_arbiter.specs.Table.{has_entry};
ghost use Rattle.slot_arbiter.specs.Slot.{is_slot_start};
ghost use Rattle.slot_arbiter.specs.Order.{IsNext, IsGap, OutlastsWaits};
ghost use Rattle.core_pace.specs.Starts.{HasSlots, start_from, gap_in};

/// The slot starts that compute are those of the slot arbiter's relations: the first start from a cycle on, and
/// the greatest gap, which outlasts every wait. A law: it does nothing.
pub fn slot_starts_compute()
    ensures start { (table : List ℕ) (slot core t : ℕ) → HasSlots table slot core
        → IsNext (is_slot_start table slot core) t (start_from table slot core t) }
    ensures gap { (table : List ℕ) (slot core : ℕ) → HasSlots table slot core
        → IsGap (is_slot_start table slot core) (gap_in table slot core) }
    ensures wait { (table : List ℕ) (slot core : ℕ) → HasSlots table slot core
        → OutlastsWaits (is_slot_start table slot core) (gap_in table slot core) }
{}
