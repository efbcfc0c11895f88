//! Worked examples: operators, and what small programs mean.
ghost use Rattle.std.specs.Prelude.{◌≡◌, ◌-◌, ◌^◌, [], ◌∷◌, true, false, codes};
ghost use Rattle.c_meaning.specs.Begun.{meaning};
ghost use Rattle.c_meaning.specs.Operators.{between_value};
ghost use Rattle.c_meaning.specs.Small as small;
ghost use Rattle.c_tree.specs.Plain as plain;

use c_tree::BinaryOp;

/// Operators at the ends of the words: -7 / 2, -7 % 2, 5 / 0, 5 % 0, the least number
/// by -1, 1 << 33, and `>>` in both types.
pub fn worked_operators()
    ensures quotient { between_value BinaryOp.Divide false (2 ^ 32 - 7) 2 ≡ 2 ^ 32 - 3 }
    ensures rest { between_value BinaryOp.Remainder false (2 ^ 32 - 7) 2 ≡ 2 ^ 32 - 1 }
    ensures by_zero { between_value BinaryOp.Divide false 5 0 ≡ 0 }
    ensures rest_by_zero { between_value BinaryOp.Remainder false 5 0 ≡ 5 }
    ensures least { between_value BinaryOp.Divide false (2 ^ 31) (2 ^ 32 - 1) ≡ 2 ^ 31 }
    ensures least_rest { between_value BinaryOp.Remainder false (2 ^ 31) (2 ^ 32 - 1) ≡ 0 }
    ensures shifted { between_value BinaryOp.ShiftLeft false 1 33 ≡ 2 }
    ensures arithmetic { between_value BinaryOp.ShiftRight false (2 ^ 32 - 4) 1 ≡ 2 ^ 32 - 2 }
    ensures logical { between_value BinaryOp.ShiftRight true (2 ^ 32 - 4) 1 ≡ 2 ^ 31 - 2 }
{}

/// Loops: the sum of 0 to 9, cut off by a bound of 5; loops that are left; `continue` in a `for`; a bound of 0.
pub fn worked_loops()
    ensures sum { (meaning (small.sum_program 10) [] (λ _. 0) (λ _. 0)).value ≡ 45 }
    ensures sum_whole { (meaning (small.sum_program 10) [] (λ _. 0) (λ _. 0)).world.overrun ≡ false }
    ensures cut_off { (meaning (small.sum_program 5) [] (λ _. 0) (λ _. 0)).value ≡ 10 }
    ensures overran { (meaning (small.sum_program 5) [] (λ _. 0) (λ _. 0)).world.overrun ≡ true }
    ensures to_the_step { (meaning small.continue_program [] (λ _. 0) (λ _. 0)).value ≡ 10 }
    ensures broken { (meaning (small.iterating_program 1 (plain.broken ∷ [])) [] (λ _. 0) (λ _. 0)).world.overrun
        ≡ false }
    ensures no_iteration { (meaning (small.iterating_program 0 (plain.broken ∷ [])) [] (λ _. 0) (λ _. 0)).world.overrun
        ≡ true }
    ensures no_return { (meaning (small.iterating_program 1 (plain.broken ∷ [])) [] (λ _. 0) (λ _. 0)).value ≡ 0 }
{}

/// Names and places: a variable that hides another, also in its own first value; elements at and
/// past the length, before the first, and under a condition that does not hold; a right side
/// before its index; where the input lies; a send.
pub fn worked_places()
    ensures hidden { (meaning (small.hiding_program (small.number 3)) [] (λ _. 0) (λ _. 0)).value ≡ 3 }
    ensures kept { (meaning (small.hiding_program (small.number 3)) [] (λ _. 0) (λ _. 0)).world.private 4 ≡ 7 }
    ensures itself { (meaning (small.hiding_program (small.variable (codes "x"))) [] (λ _. 0) (λ _. 0)).value ≡ 0 }
    ensures set { (meaning (small.store_program (small.number 1) (small.number 2) (small.number 2)) [] (λ _. 0)
        (λ _. 0)).value ≡ 5 }
    ensures unset { (meaning (small.store_program (small.number 0) (small.number 2) (small.number 2)) [] (λ _. 0)
        (λ _. 0)).value ≡ 0 }
    ensures past { (meaning (small.store_program (small.number 1) (small.number 9) (small.number 0)) [] (λ _. 0)
        (λ _. 0)).world.private 13 ≡ 0 }
    ensures before { (meaning (small.store_program (small.number 1) (small.number 0) (small.minus (small.number 1))) []
        (λ _. 0) (λ _. 0)).value ≡ 0 }
    ensures order { (meaning small.order_program [] (λ _. 0) (λ _. 0)).value ≡ 5 }
    ensures input { (meaning small.input_program (8 ∷ 9 ∷ 10 ∷ []) (λ _. 0) (λ _. 0)).value ≡ 9 }
    ensures no_input { (meaning small.scratch_input_program (8 ∷ 9 ∷ []) (λ _. 0) (λ _. 0)).value ≡ 0 }
    ensures sent { (meaning small.send_program [] (λ _. 0) (λ _. 0)).world.sends
        ≡ record { core = 1; source = 3; target = 4; count = 2 } ∷ [] }
{}
