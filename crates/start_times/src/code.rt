//! The laws of the starts of code.
ghost use Rattle.std.specs.Prelude.{◌≡◌, ℕ, ◌*◌, ◌%◌, ◌≤◌, List};
ghost use Rattle.slot_arbiter.specs.Slot.{period};
ghost use Rattle.slot_arbiter.specs.declared.place.Place.{Place};
ghost use Rattle.sp_shape.specs.Parts.{PlainShape};
ghost use Rattle.code_core.specs.Fixed.{Behaves, IsLinkable};
ghost use Rattle.code_times.specs.Times.{times_at};
ghost use Rattle.start_times.specs.Later.{IsSameCore, IsLater, first_slot, times_later};
ghost use Rattle.start_times.specs.Worst.{code_cycles, IsFirst, HasJustMissed, IsGreatest};

use slot_arbiter::Place;

/// The times of code come round with the slot table. Code that behaves from one start of a core behaves from each.
/// Where it starts whole periods later, its transactions and its end are the same, so much later, so that it takes as
/// many cycles; and where the first slot of the core from its start on is the same, they are at the same cycles. A law:
/// it does nothing.
pub fn code_comes_round(place: &Place)
    ensures behaves { (s : PlainShape) (addresses : List ℕ) (other : Place) → Behaves s place.now addresses
        → IsSameCore place.now other → Behaves s other addresses }
    ensures later { (s : PlainShape) (addresses : List ℕ) (periods : ℕ) (other : Place) → IsLinkable s
        → Behaves s place.now addresses → IsLater periods place.now other
        → times_at other s
        ≡ times_later (periods * period place.now.table place.now.slot) (times_at place.now s) }
    ensures cycles { (s : PlainShape) (addresses : List ℕ) (periods : ℕ) (other : Place) → IsLinkable s
        → Behaves s place.now addresses → IsLater periods place.now other
        → code_cycles s other ≡ code_cycles s place.now }
    ensures slot { (s : PlainShape) (addresses : List ℕ) (other : Place) → IsLinkable s
        → Behaves s place.now addresses → IsSameCore place.now other → first_slot other ≡ first_slot place.now
        → times_at other s ≡ times_at place.now s }
{}

/// Code has its worst start within one period. From each start it takes as many cycles as from the start's place in
/// the first period, and no more than from one there that has just missed a slot of the core: a deadline that is kept
/// from these is kept from all. So the most cycles over the starts of the first period are the most over all starts,
/// and so are the most over those of them that have just missed a slot. A law: it does nothing.
pub fn code_has_its_worst_start(place: &Place)
    ensures first { (s : PlainShape) (addresses : List ℕ) (first : Place) → IsLinkable s
        → Behaves s place.now addresses → IsSameCore place.now first
        → first.start ≡ place.now.start % period place.now.table place.now.slot
        → code_cycles s first ≡ code_cycles s place.now }
    ensures deadline { (s : PlainShape) (addresses : List ℕ) (most : ℕ) → IsLinkable s
        → Behaves s place.now addresses
        → ((first : Place) → HasJustMissed place.now first → code_cycles s first ≤ most)
        → (other : Place) → IsSameCore place.now other → code_cycles s other ≤ most }
    ensures by_period { (s : PlainShape) (addresses : List ℕ) (most : ℕ) → IsLinkable s
        → Behaves s place.now addresses → IsGreatest (IsFirst place.now) (code_cycles s) most
        → IsGreatest (IsSameCore place.now) (code_cycles s) most }
    ensures by_slots { (s : PlainShape) (addresses : List ℕ) (most : ℕ) → IsLinkable s
        → Behaves s place.now addresses → IsGreatest (HasJustMissed place.now) (code_cycles s) most
        → IsGreatest (IsSameCore place.now) (code_cycles s) most }
{}
