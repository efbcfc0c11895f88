//! The laws of the starts of C tasks.
ghost use Rattle.std.specs.Prelude.{◌≡◌, ℕ, ◌*◌, ◌%◌, ◌≤◌, List};
ghost use Rattle.slot_arbiter.specs.Slot.{period};
ghost use Rattle.slot_arbiter.specs.declared.place.Place.{Place};
ghost use Rattle.c_tree.specs.Plain.{PlainItem};
ghost use Rattle.c_tree.specs.Valid.{IsValid};
ghost use Rattle.single_path.specs.Single.{single};
ghost use Rattle.task_core.specs.Tasks.{IsCode};
ghost use Rattle.c_task.specs.Translation.{times};
ghost use Rattle.start_times.specs.Later.{IsSameCore, IsLater, first_slot, times_later};
ghost use Rattle.start_times.specs.Worst.{program_cycles, IsFirst, HasJustMissed, IsGreatest};

use slot_arbiter::Place;

/// The times of a program that is valid on its core come round with the slot table. Where it starts whole periods
/// later, its transactions and its end are the same, so much later, so that it takes as many cycles; and where the
/// first slot of the core from its start on is the same, they are at the same cycles. A law: it does nothing.
pub fn programs_come_round(place: &Place)
    ensures later { (items : List PlainItem) (periods : ℕ) (other : Place)
        → IsValid items place.now.cores place.now.core → IsCode (single items) → IsLater periods place.now other
        → times other items
        ≡ times_later (periods * period place.now.table place.now.slot) (times place.now items) }
    ensures cycles { (items : List PlainItem) (periods : ℕ) (other : Place)
        → IsValid items place.now.cores place.now.core → IsCode (single items) → IsLater periods place.now other
        → program_cycles items other ≡ program_cycles items place.now }
    ensures slot { (items : List PlainItem) (other : Place) → IsValid items place.now.cores place.now.core
        → IsCode (single items) → IsSameCore place.now other → first_slot other ≡ first_slot place.now
        → times other items ≡ times place.now items }
{}

/// A program that is valid on its core has its worst start within one period. From each start it takes as many cycles
/// as from the start's place in the first period, and no more than from one there that has just missed a slot of the
/// core: a deadline that is kept from these is kept from all. So the most cycles over the starts of the first period
/// are the most over all starts, and so are the most over those of them that have just missed a slot. A law: it does
/// nothing.
pub fn programs_have_their_worst_start(place: &Place)
    ensures first { (items : List PlainItem) (first : Place) → IsValid items place.now.cores place.now.core
        → IsCode (single items) → IsSameCore place.now first
        → first.start ≡ place.now.start % period place.now.table place.now.slot
        → program_cycles items first ≡ program_cycles items place.now }
    ensures deadline { (items : List PlainItem) (most : ℕ) → IsValid items place.now.cores place.now.core
        → IsCode (single items) → ((first : Place) → HasJustMissed place.now first → program_cycles items first ≤ most)
        → (other : Place) → IsSameCore place.now other → program_cycles items other ≤ most }
    ensures by_period { (items : List PlainItem) (most : ℕ) → IsValid items place.now.cores place.now.core
        → IsCode (single items) → IsGreatest (IsFirst place.now) (program_cycles items) most
        → IsGreatest (IsSameCore place.now) (program_cycles items) most }
    ensures by_slots { (items : List PlainItem) (most : ℕ) → IsValid items place.now.cores place.now.core
        → IsCode (single items) → IsGreatest (HasJustMissed place.now) (program_cycles items) most
        → IsGreatest (IsSameCore place.now) (program_cycles items) most }
{}
