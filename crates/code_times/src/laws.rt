//! The law of the times of code.
ghost use Rattle.std.specs.Prelude.{◌≡◌, ℕ, ◌+◌, ◌≤◌, List};
ghost use Rattle.patmos_model.specs.Apart.{apart_at};
ghost use Rattle.patmos_model.specs.Outcome.{state_at};
ghost use Rattle.patmos_model.specs.declared.state.CoreState.TheVariants.{Trapped};
ghost use Rattle.patmos_model.specs.declared.trap.Trap.{Trap};
ghost use Rattle.core_pace.specs.Growth.{below};
ghost use Rattle.sp_shape.specs.Parts.{PlainShape};
ghost use Rattle.cycle_bound.specs.Gap.{place_bound};
ghost use Rattle.tc_link.specs.Placed.{linked};
ghost use Rattle.code_core.specs.Fixed.{Behaves, IsLinkable};
ghost use Rattle.code_core.specs.Words.{AreGiven};
ghost use Rattle.code_times.specs.Times.{bound_at, times_at};

use core_pace::place_has_slots;
use slot_arbiter::Place;

/// Code keeps its times. Whatever words are put in and read, its transactions below each cycle are those of its times,
/// from their end on it has ended in that cycle, and that is within its bound, the number that cycle_bound's `bound`
/// works out. At no number of cycles has a check stopped it. A law: it does nothing.
pub fn code_keeps_its_times(place: &Place)
    ensures accesses { (s : PlainShape) (addresses input values : List ℕ) → IsLinkable s
        → Behaves s place.now addresses → AreGiven input values
        → (cycles : ℕ) → (apart_at place.now (linked s) input values cycles).core.seen.accesses
        ≡ below cycles (times_at place.now s).accesses }
    ensures end { (s : PlainShape) (addresses input values : List ℕ) → IsLinkable s → Behaves s place.now addresses
        → AreGiven input values
        → (limit : ℕ) → (times_at place.now s).end ≤ limit
        → (apart_at place.now (linked s) input values limit).core.plain.free ≡ (times_at place.now s).end }
    ensures within { (s : PlainShape) (addresses : List ℕ) → IsLinkable s → Behaves s place.now addresses
        → (times_at place.now s).end ≤ bound_at place.now s }
    ensures number { (s : PlainShape)
        → bound_at place.now s ≡ place.now.start + place_bound place.now.table place.now.slot place.now.core s }
    ensures never { (s : PlainShape) (addresses input values : List ℕ) → IsLinkable s → Behaves s place.now addresses
        → AreGiven input values
        → (cycles : ℕ) (fault : Trap) (at : ℕ)
        → state_at cycles (apart_at place.now (linked s) input values cycles).core.plain ≡ Trapped fault at → ⊥ }
{
    place_has_slots(place);
}
