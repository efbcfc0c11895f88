//! The laws of compiled tasks in a machine.
ghost use Rattle.std.specs.Prelude.{◌≡◌, ℕ, ◌<◌, ◌≤◌, List};
ghost use Rattle.shared_order.specs.Words.{zeros, Sees};
ghost use Rattle.patmos_model.specs.State.{Core};
ghost use Rattle.sp_tree.specs.Statements.{PlainUnit};
ghost use Rattle.task_core.specs.Tasks.{times_of};
ghost use Rattle.task_words.specs.Meant.{HasMeaning, HasWorld};
ghost use Rattle.task_machine.specs.Machines.{machine_after, HasTask, KnownTask, BeginsAs, IsAlone};
ghost use Rattle.task_machine.specs.Reported.{task_operations, AreAllItsOwn, HasTimes, IsAmong};

use slot_arbiter::Place;

/// In a machine a compiled task keeps its times: its accesses, its end, and before its end it runs,
/// whatever its input is and whatever the other cores do. The operations of the task itself stand among all
/// that are made, in their order; without those of its core's interface they are all of the core's. A law: it does
/// nothing.
pub fn machines_keep_tasks_times(place: &Place)
    ensures times { (u : PlainUnit) (input : List ℕ) (words : ℕ) (cores : ℕ → Core) (cycles : ℕ)
        → HasTask u place.now input words cores cycles
        → HasTimes u place.now cycles ((machine_after place.now.cores cores cycles).cores place.now.core) }
    ensures among { (u : PlainUnit) (input : List ℕ) (words : ℕ) (cores : ℕ → Core) (cycles : ℕ)
        → HasTask u place.now input words cores cycles
        → IsAmong (task_operations u place.now input (machine_after place.now.cores cores cycles) cycles)
        (machine_after place.now.cores cores cycles).made }
    ensures own { (u : PlainUnit) (input : List ℕ) (words : ℕ) (cores : ℕ → Core) (cycles : ℕ)
        → HasTask u place.now input words cores cycles
        → AreAllItsOwn u place.now input (machine_after place.now.cores cores cycles) cycles }
{}

/// In a machine a compiled task gives what its tree means. From its end on, for each world in which each of the
/// task's own loads of a word that others reach gives its own last store there, else the world's word, it has the
/// value, the flag, the words and the transfers that the tree comes to from that world. A law: it does nothing.
pub fn machines_give_tasks_their_meaning(place: &Place)
    ensures { (u : PlainUnit) (input : List ℕ) (words : ℕ) (cores : ℕ → Core) (cycles : ℕ) (world : ℕ → ℕ)
        → HasTask u place.now input words cores cycles
        → HasWorld u place.now input world → (times_of u place.now).end ≤ cycles
        → Sees world (task_operations u place.now input (machine_after place.now.cores cores cycles) cycles)
        → HasMeaning u place.now input world cycles
        (task_operations u place.now input (machine_after place.now.cores cores cycles) cycles)
        ((machine_after place.now.cores cores cycles).cores place.now.core) }
{}

/// A compiled task that is alone with what it reads has read zeros and its own stores: where no other task may change a
/// word that its tree reads, the world of zeros fits its loads. A law: it does nothing.
pub fn tasks_alone_read_zeros(place: &Place)
    ensures { (u : PlainUnit) (input : List ℕ) (words : ℕ) (cores : ℕ → Core) (cycles : ℕ) (tasks : ℕ → KnownTask)
        → HasTask u place.now input words cores cycles
        → ((other : ℕ) → other < place.now.cores → BeginsAs place.now.cores other (cores other) (tasks other))
        → IsAlone u place.now.cores place.now.core tasks
        → Sees zeros (task_operations u place.now input (machine_after place.now.cores cores cycles) cycles) }
{}
