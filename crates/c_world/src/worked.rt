//! Worked examples: arrays, the flag and sends, and what operators make of words.
ghost use Rattle.std.specs.Prelude.{◌≡◌, ◌+◌, ◌-◌, ◌^◌, [], ◌∷◌, List, true, false};
ghost use Rattle.c_world.specs.Numbers.{flag, is_true, sum_of, difference_of, product_of, complement_of};
ghost use Rattle.c_world.specs.World.{World, Sending, fresh, word_at, element, with_element, with_overrun, with_send};

use crate::region::Region;

/// An array of three words from word 4 of private memory, loops that ended by their bound, and sends.
pub fn worked_world()
    ensures set { (w : World) → element Region.Private 4 3 2 (with_element Region.Private 4 3 2 7 w) ≡ 7 }
    ensures place { (w : World) → word_at Region.Private 6 (with_element Region.Private 4 3 2 7 w) ≡ 7 }
    ensures at_the_length { (w : World) → element Region.Private 4 3 3 w ≡ 0 }
    ensures sets_nothing { (w : World) → with_element Region.Private 4 3 3 7 w ≡ w }
    ensures minus_one { (w : World) → element Region.Shared 0 4096 (2 ^ 32 - 1) w ≡ 0 }
    ensures held { (sends : List Sending) → (with_overrun true (fresh sends)).overrun ≡ true }
    ensures stays { (sends : List Sending) → (with_overrun false (with_overrun true (fresh sends))).overrun ≡ true }
    ensures one_word { (with_send 3 511 0 1 (fresh [])).sends
        ≡ record { core = 3; source = 511; target = 0; count = 1 } ∷ [] }
    ensures all_words { (with_send 3 0 0 512 (fresh [])).sends
        ≡ record { core = 3; source = 0; target = 0; count = 512 } ∷ [] }
    ensures none { (w : World) → with_send 3 0 0 0 w ≡ w }
    ensures too_many { (w : World) → with_send 3 0 0 513 w ≡ w }
    ensures past_the_source { (w : World) → with_send 3 511 0 2 w ≡ w }
    ensures past_the_target { (w : World) → with_send 3 0 1 512 w ≡ w }
    ensures no_wrap { (w : World) → with_send 3 (2 ^ 32 - 1) 0 2 w ≡ w }
{}

/// Sums, differences, products and complements at the ends of the words, and truths.
pub fn worked_numbers()
    ensures sum { sum_of (2 ^ 31 - 1) 1 ≡ 2 ^ 31 }
    ensures wrapped { sum_of (2 ^ 32 - 1) 2 ≡ 1 }
    ensures difference { difference_of 0 1 ≡ 2 ^ 32 - 1 }
    ensures least_negated { difference_of 0 (2 ^ 31) ≡ 2 ^ 31 }
    ensures product { product_of (2 ^ 31) 3 ≡ 2 ^ 31 }
    ensures complement { complement_of 0 ≡ 2 ^ 32 - 1 }
    ensures truth { flag (is_true 7) ≡ 1 }
    ensures no_truth { flag (is_true 0) ≡ 0 }
{}
