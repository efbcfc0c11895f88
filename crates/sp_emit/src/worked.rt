//! Worked examples: what comes of the code of small units.
ghost use Rattle.std.specs.Prelude.{◌≡◌, ◌-◌, ◌+◌, ◌^◌, [], ◌∷◌, None, Some};
ghost use Rattle.patmos_sem.specs.Registers.{word_in};
ghost use Rattle.sp_emit.specs.Arms.{arm, in_arm};
ghost use Rattle.sp_emit.specs.Flags.{flags_from};
ghost use Rattle.sp_emit.specs.Ran.{ran_alone};
ghost use Rattle.sp_tree.specs.Plain.{constant, frame_word, array_word, between_two};
ghost use Rattle.sp_tree.specs.Small as small;
ghost use Rattle.sp_tree.specs.Statements.{masks, overruns, writes, to_cell, to_array, stmt, one};
ghost use Rattle.sp_tree.specs.declared.operators.SpBinary.TheVariants as binary;

use sp_tree::Region;

/// Masks that stand in predicates: an arm that is taken by one condition or by two, or is not; and what stands after
/// `else`.
#[tactic(auto, unfolding(crate::specs::Places::read_op, crate::specs::Places::fetch_op, crate::specs::Places::set_op, crate::specs::Places::cleared_in, crate::specs::Places::flag_of, crate::specs::Places::seek_op, crate::specs::Places::match_op, crate::specs::Instructions::number_op))]
pub fn worked_masks()
    ensures words { flags_from 0 (small.entry_of (arm (between_two binary.Less (constant 3) (constant 4)) 2))
        ≡ record { first = Some 0; second = Some 2; third = Some 3; fourth = None } }
    ensures taken { word_in (ran_alone (in_arm (between_two binary.Less (constant 3) (constant 4)) 2) []).regs 1 ≡ 7 }
    ensures left { word_in (ran_alone (in_arm (between_two binary.Less (constant 4) (constant 3)) 2) []).regs 1 ≡ 0 }
    ensures both { word_in (ran_alone (in_arm (between_two binary.And
        (between_two binary.Less (constant 3) (constant 4)) (between_two binary.Equal (constant 5)
        (constant 5))) 2) []).regs 1 ≡ 7 }
    ensures first_alone { word_in (ran_alone (in_arm (between_two binary.And
        (between_two binary.Less (constant 3) (constant 4)) (between_two binary.Equal (constant 5)
        (constant 6))) 2) []).regs 1 ≡ 0 }
    ensures either { word_in (ran_alone (in_arm (between_two binary.Or
        (between_two binary.Less (constant 4) (constant 3)) (between_two binary.Equal (constant 5)
        (constant 5))) 2) []).regs 1 ≡ 7 }
    ensures after_else { word_in (ran_alone (in_arm (between_two binary.Less (constant 4)
        (constant 3)) 3) []).regs 1 ≡ 7 }
{}

/// A call that gives the difference of two words of the input, and its effect; nothing of the stack is left.
#[tactic(auto, unfolding(crate::specs::Places::read_op, crate::specs::Places::fetch_op, crate::specs::Places::set_op, crate::specs::Places::cleared_in, crate::specs::Places::flag_of, crate::specs::Places::seek_op, crate::specs::Places::match_op, crate::specs::Instructions::number_op, crate::specs::Statements::handed_in, crate::specs::Expressions::spare_op, crate::specs::Expressions::below_op, crate::specs::Expressions::scaled_op))]
pub fn worked_calls()
    ensures value { word_in (ran_alone small.difference_unit (9 ∷ 4 ∷ [])).regs 1 ≡ 5 }
    ensures flag { word_in (ran_alone small.difference_unit (9 ∷ 4 ∷ [])).regs 2 ≡ 0 }
    ensures stored { (ran_alone small.difference_unit (9 ∷ 4 ∷ [])).memory.private 4 ≡ 5 }
    ensures input { (ran_alone small.difference_unit (9 ∷ 4 ∷ [])).memory.private 5 ≡ 9 }
    ensures freed { (ran_alone small.difference_unit (9 ∷ 4 ∷ [])).st ≡ 65536 }
    ensures off { word_in (ran_alone (small.unit_of (stmt (masks 0 (constant 0)) (one small.difference_call))) (9 ∷ 4
        ∷ [])).regs 1 ≡ 0 }
    ensures off_stored { (ran_alone (small.unit_of (stmt (masks 0 (constant 0)) (one small.difference_call))) (9 ∷ 4
        ∷ [])).memory.private 4 ≡ 1 }
    ensures two_stored { (ran_alone (small.unit_of (stmt (masks 0 (constant 2)) (one small.difference_call))) (9 ∷ 4
        ∷ [])).memory.private 4 ≡ 1 }
{}

/// Quotients and what is left: signed words, by 0, the least word by -1, unsigned words past 2^31; by powers of two, by
/// other constants, and by a word that is not known.
#[tactic(auto, unfolding(crate::specs::Places::read_op, crate::specs::Places::fetch_op, crate::specs::Places::set_op, crate::specs::Places::cleared_in, crate::specs::Places::flag_of, crate::specs::Places::seek_op, crate::specs::Places::match_op, crate::specs::Instructions::number_op, crate::specs::Divisors::highest, crate::specs::Divisors::is_power, crate::specs::Divisors::moved, crate::specs::Divisors::scale, crate::specs::Divisors::factor, crate::specs::Divisors::surplus, crate::specs::Divisors::is_exact, crate::specs::Divisors::factor_rest_to, crate::specs::Division::unsigned_quotient_to))]
pub fn worked_divisions()
    ensures quotient { word_in (ran_alone
        (small.unit_of (one (masks 1 (between_two binary.Divide (constant (2 ^ 32 - 7)) (constant 2))))) []).regs 1
        ≡ 2 ^ 32 - 3 }
    ensures rest { word_in (ran_alone
        (small.unit_of (one (masks 1 (between_two binary.Remainder (constant (2 ^ 32 - 7)) (constant 2))))) []).regs 1
        ≡ 2 ^ 32 - 1 }
    ensures by_negative { word_in (ran_alone
        (small.unit_of (one (masks 1 (between_two binary.Divide (constant 7) (constant (2 ^ 32 - 2)))))) []).regs 1
        ≡ 2 ^ 32 - 3 }
    ensures rest_by_negative { word_in
        (ran_alone (small.unit_of (one
        (masks 1 (between_two binary.Remainder (constant 7) (constant (2 ^ 32 - 2)))))) []).regs 1 ≡ 1 }
    ensures by_zero { word_in (ran_alone
        (small.unit_of (one (masks 1 (between_two binary.Divide (constant 7) (constant 0))))) []).regs 1 ≡ 0 }
    ensures rest_by_zero { word_in
        (ran_alone (small.unit_of (one
        (masks 1 (between_two binary.Remainder (constant (2 ^ 32 - 7)) (constant 0))))) []).regs 1 ≡ 2 ^ 32 - 7 }
    ensures least { word_in (ran_alone
        (small.unit_of (one (masks 1 (between_two binary.Divide (constant (2 ^ 31))
        (constant (2 ^ 32 - 1)))))) []).regs 1 ≡ 2 ^ 31 }
    ensures unsigned { word_in (ran_alone
        (small.unit_of (one (masks 1 (between_two binary.DivideUnsigned (constant (2 ^ 32 - 7))
        (constant 2))))) []).regs 1 ≡ 2147483644 }
    ensures factor { word_in (ran_alone
        (small.unit_of (one (masks 1 (between_two binary.Divide (constant (2 ^ 32 - 7)) (constant 3))))) []).regs 1
        ≡ 2 ^ 32 - 2 }
    ensures rest_by_factor { word_in (ran_alone
        (small.unit_of (one (masks 1 (between_two binary.RemainderUnsigned (constant (2 ^ 32 - 1))
        (constant 10))))) []).regs 1 ≡ 5 }
    ensures by_word { word_in (ran_alone
        (small.unit_of (stmt (masks 0 (constant 3)) (one
        (masks 1 (between_two binary.DivideUnsigned (constant (2 ^ 32 - 7)) (frame_word 0)))))) []).regs 1
        ≡ 1431655763 }
    ensures large { word_in (ran_alone
        (small.unit_of (stmt (masks 0 (constant (2 ^ 31 + 1))) (one
        (masks 1 (between_two binary.RemainderUnsigned (constant (2 ^ 32 - 1)) (frame_word 0)))))) []).regs 1
        ≡ 2147483646 }
{}

/// Iterations, masks and what they keep off: a store at main memory goes to word 0. The flag, and a send.
#[tactic(auto, unfolding(crate::specs::Places::read_op, crate::specs::Places::fetch_op, crate::specs::Places::keep_op, crate::specs::Places::set_op, crate::specs::Places::cleared_in, crate::specs::Places::flag_of, crate::specs::Places::seek_op, crate::specs::Places::match_op, crate::specs::Instructions::number_op, crate::specs::Expressions::spare_op, crate::specs::Expressions::below_op, crate::specs::Expressions::scaled_op))]
pub fn worked_effects()
    ensures iterations { word_in (ran_alone (small.unit_of (one (small.adding 2))) []).regs 1 ≡ 4 }
    ensures slot_off { word_in (ran_alone
        (small.unit_of (stmt (masks 0 (constant 2)) (one (small.writing 7)))) []).regs 1 ≡ 0 }
    ensures cell_off { (ran_alone (small.unit_of
        (stmt (masks 0 (constant 0)) (one
        (writes 0 (to_cell (small.cell Region.Private 4)) (constant 7))))) []).memory.private 4 ≡ 1 }
    ensures spare { (ran_alone (small.unit_of
        (stmt (masks 0 (constant 0)) (one
        (writes 0 (to_cell (small.cell Region.Private 4)) (constant 7))))) []).memory.private 0 ≡ 7 }
    ensures element { (ran_alone (small.unit_of
        (one (writes 0 (to_array (small.array Region.Shared 8 3) (constant 2)) (constant 7)))) []).memory.shared 10
        ≡ 7 }
    ensures past { (ran_alone (small.unit_of
        (one (writes 0 (to_array (small.array Region.Shared 8 3) (constant 3)) (constant 7)))) []).memory.shared 11
        ≡ 0 }
    ensures scratch { (ran_alone (small.unit_of
        (one (writes 0 (to_array (small.array Region.Scratch 8 3) (constant 2)) (constant 7)))) []).memory.scratch 10
        ≡ 7 }
    ensures read_past { word_in (ran_alone
        (small.unit_of (one (masks 1 (array_word (small.array Region.Private 5 1) (constant 1))))) []).regs 1 ≡ 0 }
    ensures flag { word_in (ran_alone (small.unit_of (one (overruns 0 (constant 5)))) []).regs 2 ≡ 1 }
    ensures no_flag { word_in (ran_alone
        (small.unit_of (stmt (masks 0 (constant 0)) (one (overruns 0 (constant 5))))) []).regs 2 ≡ 0 }
    ensures sent { (ran_alone (small.unit_of (one (small.sending 2))) []).memory.starts
        ≡ record { core = 3; source = 10; target = 20; count = 2 } ∷ [] }
    ensures too_many { (ran_alone (small.unit_of (one (small.sending 503))) []).memory.starts ≡ [] }
    ensures none { (ran_alone (small.unit_of (one (small.sending 0))) []).memory.starts ≡ [] }
{}
