//! The law of the persistent bound.
ghost use Rattle.std.specs.Prelude.{ℕ, ◌+◌, ◌≤◌, List};
ghost use Rattle.sp_shape.specs.Parts.{PlainShape};
ghost use Rattle.bound_persist.specs.Persist.{place_persist};
ghost use Rattle.code_core.specs.Fixed.{Behaves, IsLinkable};
ghost use Rattle.code_times.specs.Times.{times_at};

use core_pace::place_has_slots;
use slot_arbiter::Place;

/// Code keeps its persistent bound: its times, which each run has whatever is put in and read, end within the number
/// that bound_persist's `persist_bound` works out. A law: it does nothing.
pub fn code_keeps_its_persistent_bound(place: &Place)
    ensures within { (s : PlainShape) (addresses : List ℕ) → IsLinkable s → Behaves s place.now addresses
        → (times_at place.now s).end ≤ place.now.start + place_persist place.now.table place.now.slot place.now.core s }
{
    place_has_slots(place);
}
