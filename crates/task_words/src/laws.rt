//! The laws of what compiled tasks leave.
ghost use Rattle.std.specs.Prelude.{ℕ, ◌≤◌, List};
ghost use Rattle.shared_order.specs.Words.{Sees};
ghost use Rattle.patmos_model.specs.Apart.{own_operations};
ghost use Rattle.sp_tree.specs.Statements.{PlainUnit};
ghost use Rattle.tc_link.specs.Placed.{linked};
ghost use Rattle.code_core.specs.Words.{AreGiven};
ghost use Rattle.task_core.specs.Tasks.{code_of, times_of, IsRunnable, IsCode};
ghost use Rattle.task_words.specs.Meant.{HasWorld, ComesAt, Names};

use core_pace::place_has_slots;
use slot_arbiter::Place;

/// A compiled task gives what its tree means. Where each load of the task itself, of a word that other cores reach,
/// gives its own last store to that word, else the word of a world, it is done from its end on, with the value, the
/// flag, the words of all memories and the transfers that the tree comes to from that world. A law: it does nothing.
pub fn tasks_come_to_their_meaning(place: &Place)
    ensures { (u : PlainUnit) (input values : List ℕ) (world : ℕ → ℕ) → IsRunnable u place.now → IsCode u
        → HasWorld u place.now input world → AreGiven input values
        → (limit : ℕ) → (times_of u place.now).end ≤ limit
        → Sees world (own_operations place.now (linked (code_of u)) input values limit)
        → ComesAt u place.now input world values limit }
{
    place_has_slots(place);
}

/// A compiled task reaches only what it names. Whatever words are put in and read, at each number of cycles the task
/// itself has loaded and stored, of the words that other cores reach, only those that its tree names, and its transfers
/// and packets go only to cores that the tree names. A law: it does nothing.
pub fn tasks_reach_what_they_name(place: &Place)
    ensures { (u : PlainUnit) (input values : List ℕ) → IsRunnable u place.now → IsCode u → AreGiven input values
        → (cycles : ℕ) → Names u place.now input values cycles }
{
    place_has_slots(place);
}
