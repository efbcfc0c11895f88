//! The law of the words that code leaves.
ghost use Rattle.std.specs.Prelude.{ℕ, Bool, List};
ghost use Rattle.shared_order.specs.Words.{Sees};
ghost use Rattle.sp_shape.specs.Memory.{Memory};
ghost use Rattle.sp_shape.specs.Parts.{PlainShape};
ghost use Rattle.code_core.specs.Fixed.{Behaves, IsLinkable};
ghost use Rattle.code_core.specs.Followed.{last_of};
ghost use Rattle.code_core.specs.Words.{AreGiven};
ghost use Rattle.code_words.specs.Left.{BeginsWith, IsLeft, KeepsCacheFresh};

use core_pace::place_has_slots;
use slot_arbiter::Place;

/// A core that follows its code leaves what the code leaves. It begins with a run's memory, and stores to no word past
/// the data cache that it loads by it. Where each of its own loads of a word that others reach gives its own last store
/// there, else the word of a world, then each load gives what was stored last in its word, and after the last bundle
/// its registers and all words that it reaches are those of that run. A law: it does nothing.
pub fn code_leaves_its_words(place: &Place)
    ensures { (s : PlainShape) (addresses input values : List ℕ) (cached : ℕ → Bool) (memory : Memory) (world : ℕ → ℕ)
        → IsLinkable s → Behaves s place.now addresses → AreGiven input values → KeepsCacheFresh s cached memory
        → BeginsWith place.now s cached memory world input
        → Sees world (last_of place.now s input values).told.own
        → IsLeft place.now s cached memory world input values }
{
    place_has_slots(place);
}
