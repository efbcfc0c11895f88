//! Worked examples: what operators make of words, and what small expressions are worth.
ghost use Rattle.std.specs.Prelude.{◌≡◌, ◌-◌, ◌^◌, ℕ};
ghost use Rattle.c_world.specs.World.{World, word_at};
ghost use Rattle.sp_tree.specs.Operators.{unary_value, binary_value};
ghost use Rattle.sp_tree.specs.Plain.{constant, frame_word, cell_word, array_word, before_one, between_two};
ghost use Rattle.sp_tree.specs.Values.{sp_value};

use crate::operators::{SpBinary, SpUnary};
use c_world::Region;

/// Operators at the ends of the words: -7 / 2, -7 % 2, 5 / 0, 5 % 0, the least number by -1, 1 << 33, and the orders.
pub fn worked_operators()
    ensures quotient { binary_value SpBinary.Divide (2 ^ 32 - 7) 2 ≡ 2 ^ 32 - 3 }
    ensures rest { binary_value SpBinary.Remainder (2 ^ 32 - 7) 2 ≡ 2 ^ 32 - 1 }
    ensures by_zero { binary_value SpBinary.Divide 5 0 ≡ 0 }
    ensures rest_by_zero { binary_value SpBinary.RemainderUnsigned 5 0 ≡ 5 }
    ensures least { binary_value SpBinary.Divide (2 ^ 31) (2 ^ 32 - 1) ≡ 2 ^ 31 }
    ensures unsigned_quotient { binary_value SpBinary.DivideUnsigned (2 ^ 32 - 7) 2 ≡ 2 ^ 31 - 4 }
    ensures shifted { binary_value SpBinary.ShiftLeft 1 33 ≡ 2 }
    ensures arithmetic { binary_value SpBinary.ShiftRight (2 ^ 32 - 4) 1 ≡ 2 ^ 32 - 2 }
    ensures logical { binary_value SpBinary.ShiftRightUnsigned (2 ^ 32 - 4) 1 ≡ 2 ^ 31 - 2 }
    ensures less { binary_value SpBinary.Less (2 ^ 32 - 1) 0 ≡ 1 }
    ensures less_unsigned { binary_value SpBinary.LessUnsigned (2 ^ 32 - 1) 0 ≡ 0 }
    ensures truth { binary_value SpBinary.And 2 4 ≡ 1 }
    ensures negated { unary_value SpUnary.Minus 1 ≡ 2 ^ 32 - 1 }
    ensures denied { unary_value SpUnary.Not 2 ≡ 0 }
{}

/// A constant, a word of the frame, a word of private memory, and an element at the length of its array, denied.
pub fn worked_values()
    ensures number { (frame : ℕ → ℕ) (w : World) → sp_value frame w (constant 7) ≡ 7 }
    ensures slot { (frame : ℕ → ℕ) (w : World) → sp_value frame w (frame_word 3) ≡ frame 3 }
    ensures cell { (frame : ℕ → ℕ) (w : World)
        → sp_value frame w (cell_word (record { region = Region.Private; word = 4 }))
        ≡ word_at Region.Private 4 w }
    ensures past { (frame : ℕ → ℕ) (w : World) → sp_value frame w (before_one SpUnary.Not
        (array_word (record { region = Region.Shared; first = 0; length = 3 }) (constant 3))) ≡ 1 }
    ensures difference { (frame : ℕ → ℕ) (w : World)
        → sp_value frame w (between_two SpBinary.Minus (constant 3) (constant 4)) ≡ 2 ^ 32 - 1 }
{}
