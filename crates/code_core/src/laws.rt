//! The law of a core that follows its code.
ghost use Rattle.std.specs.Prelude.{ℕ, List};
ghost use Rattle.sp_shape.specs.Parts.{PlainShape};
ghost use Rattle.code_core.specs.Fixed.{Behaves, IsLinkable};
ghost use Rattle.code_core.specs.Followed.{IsFollowed};
ghost use Rattle.code_core.specs.Words.{AreGiven};

use core_pace::place_has_slots;
use slot_arbiter::Place;

/// A core follows its code. Whatever words are put in and read, it does the bundles of the trail of linked
/// code, one after another and no others; no check stops it, and after the last delay slot of the entry's
/// return it has ended. Its events, on which its times hang, are those that the code fixes, and its registers
/// are those of the code itself. A law: it does nothing.
pub fn code_is_followed(place: &Place)
    ensures { (s : PlainShape) (addresses input values : List ℕ) → IsLinkable s → Behaves s place.now addresses
        → AreGiven input values
        → IsFollowed place.now s addresses input values }
{
    place_has_slots(place);
}
