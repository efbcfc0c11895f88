//! Worked examples: what is well formed and what is not, how many registers expressions take, and how many words.
ghost use Rattle.std.specs.Prelude.{◌≡◌, ◌+◌, ◌*◌, ℕ, [], ◌∷◌, List, Some, None, true, false, replicate};
ghost use Rattle.sp_tree.specs.Cost.{expr_cost, stmt_cost, stmts_cost, cost};
ghost use Rattle.sp_tree.specs.Formed.{function_formed, is_formed};
ghost use Rattle.sp_tree.specs.Need.{need};
ghost use Rattle.sp_tree.specs.Plain.{PlainSp, constant, frame_word, cell_word, array_word, before_one, between_two};
ghost use Rattle.sp_tree.specs.Small as small;
ghost use Rattle.sp_tree.specs.Statements.{PlainUnit, PlainFunction, calls, masks, overruns, iterations, writes, transfers, to_slot, to_cell, to_array, no_stmt, stmt, one};

use crate::operators::{SpBinary, SpUnary};
use c_world::Region;

/// Statements that are well formed, with the words that they may name at most.
pub fn worked_formed()
    ensures nothing { is_formed (small.unit_of no_stmt) ≡ true }
    ensures call { is_formed small.difference_unit ≡ true }
    ensures last_slot { is_formed (small.unit_of (one (masks 3 (constant 0)))) ≡ true }
    ensures last_slot_in_iterations { is_formed (small.unit_of (one (iterations 1 (one (masks 2 (constant 0)))))) ≡ true }
    ensures last_private { is_formed
        (small.unit_of (one (writes 0 (to_cell (small.cell Region.Private 49151)) (constant 0)))) ≡ true }
    ensures first_private { is_formed
        (small.unit_of (one (writes 0 (to_cell (small.cell Region.Private 4)) (constant 0)))) ≡ true }
    ensures all_shared { is_formed
        (small.unit_of (one (masks 1 (array_word (small.array Region.Shared 0 4096) (constant 9))))) ≡ true }
    ensures last_core { is_formed (small.unit_of (one (transfers 0 15 (constant 0) (constant 0) (constant 1)))) ≡ true }
    ensures registers { is_formed (small.unit_of (one (masks 1 (small.levels 11)))) ≡ true }
{}

/// One row for each cause for which a statement is not well formed.
pub fn worked_unformed()
    ensures own_call { is_formed (small.unit_of (one (calls 0 1 [] None))) ≡ false }
    ensures fewer_arguments { is_formed (small.unit_of (one (calls 0 0 (constant 7 ∷ []) None))) ≡ false }
    ensures result_past { is_formed (small.unit_of (one (calls 0 0 (constant 7 ∷ constant 5 ∷ []) (Some 4)))) ≡ false }
    ensures slot_past { is_formed (small.unit_of (one (masks 4 (constant 0)))) ≡ false }
    ensures mask_past { is_formed (small.unit_of (one (writes 4 (to_slot 1) (constant 0)))) ≡ false }
    ensures read_past { is_formed (small.unit_of (one (masks 1 (frame_word 4)))) ≡ false }
    ensures counter_named { is_formed (small.unit_of (one (iterations 1 (one (masks 3 (constant 0)))))) ≡ false }
    ensures no_iteration { is_formed (small.unit_of (one (iterations 0 no_stmt))) ≡ false }
    ensures private_past { is_formed (small.unit_of (one (masks 1 (cell_word (small.cell Region.Private 49152)))))
        ≡ false }
    ensures spare_word { is_formed (small.unit_of (one (masks 1 (cell_word (small.cell Region.Private 3))))) ≡ false }
    ensures scratch_past { is_formed
        (small.unit_of (one (masks 1 (array_word (small.array Region.Scratch 2047 2) (constant 0))))) ≡ false }
    ensures comm_past { is_formed (small.unit_of (one (writes 0 (to_cell (small.cell Region.Comm 512)) (constant 0))))
        ≡ false }
    ensures shared_past { is_formed
        (small.unit_of (one (writes 0 (to_array (small.array Region.Shared 1 4096) (constant 0)) (constant 0))))
        ≡ false }
    ensures no_core { is_formed (small.unit_of (one (transfers 0 16 (constant 0) (constant 0) (constant 1)))) ≡ false }
    ensures no_register { is_formed (small.unit_of (one (overruns 0 (small.levels 12)))) ≡ false }
    ensures inside { is_formed (small.unit_of (stmt (masks 1 (cell_word (small.cell Region.Private 6)))
        (one (masks 1 (array_word (small.array Region.Private 5 2) (constant 0)))))) ≡ false }
{}

/// One row for each cause for which a function or a unit is not well formed.
pub fn worked_unformed_units()
    ensures no_return { function_formed [] 0
        (record { frame = 3; parameters = 0; mask = 0; result = 1; body = no_stmt }) ≡ false }
    ensures large_frame { function_formed [] 0
        (record { frame = 129; parameters = 0; mask = 0; result = 1; body = no_stmt }) ≡ false }
    ensures seven { function_formed [] 0 (record { frame = 12; parameters = 7; mask = 7; result = 8; body = no_stmt })
        ≡ false }
    ensures mask_passed { function_formed [] 0
        (record { frame = 12; parameters = 2; mask = 1; result = 2; body = no_stmt }) ≡ false }
    ensures result_passed { function_formed [] 0
        (record { frame = 12; parameters = 2; mask = 2; result = 1; body = no_stmt }) ≡ false }
    ensures largest { function_formed [] 0
        (record { frame = 128; parameters = 6; mask = 124; result = 125; body = no_stmt }) ≡ true }
    ensures no_entry { is_formed (record {
      functions = small.difference
          ∷ [];
      entry = 1;
      initial = [];
      input_at = 4;
      input_room = 0;
    }) ≡ false }
    ensures entry_passed { is_formed
        (record { functions = small.difference ∷ []; entry = 0; initial = []; input_at = 4; input_room = 0 }) ≡ false }
    ensures many_words { is_formed
        (record { functions = small.entry_of no_stmt ∷ []; entry = 0; initial = []; input_at = 49150; input_room = 3 })
        ≡ false }
    ensures low_input { is_formed (record {
      functions = small.entry_of no_stmt
          ∷ [];
      entry = 0;
      initial = [];
      input_at = 3;
      input_room = 1;
    }) ≡ false }
{}

/// How many registers expressions take: sums of sums one more for each level, and a chain to the right two.
pub fn worked_needs()
    ensures one { need (constant 7) ≡ 1 }
    ensures two { need (between_two SpBinary.Plus (frame_word 0) (frame_word 1)) ≡ 2 }
    ensures deep { need (small.levels 5) ≡ 6 }
    ensures chain { need (small.chain 300) ≡ 2 }
    ensures index { need (array_word (small.array Region.Shared 0 4096) (small.levels 2)) ≡ 3 }
    ensures before { need (before_one SpUnary.Not (small.levels 2)) ≡ 3 }
{}

/// How many words the code of expressions and statements takes at most: a word that is masked by a
/// small constant, and by a large one; a comparison with a small constant, and with a large one;
/// what an arm, a loop and a return are made of.
pub fn worked_costs()
    ensures small_mask { expr_cost (between_two SpBinary.BitAnd (frame_word 0) (constant 4095)) ≡ 3 }
    ensures large_mask { expr_cost (between_two SpBinary.BitAnd (frame_word 0) (constant 4096)) ≡ 5 }
    ensures small_test { expr_cost (between_two SpBinary.NotEqual (frame_word 0) (constant 31)) ≡ 5 }
    ensures large_test { expr_cost (between_two SpBinary.NotEqual (frame_word 0) (constant 32)) ≡ 6 }
    ensures no_held_sum { expr_cost (between_two SpBinary.Plus (frame_word 0) (constant 1)) ≡ 4 }
    ensures small_constant { expr_cost (constant 4095) ≡ 1 }
    ensures large_constant { expr_cost (constant 4096) ≡ 2 }
    ensures variable { expr_cost (cell_word (small.cell Region.Private 4)) ≡ 4 }
    ensures element { expr_cost (array_word (small.array Region.Shared 0 4096) (constant 0)) ≡ 13 }
    ensures arm { (c : PlainSp) → stmts_cost (small.arm c) ≡ 23 + expr_cost c }
    ensures while_loop { (c : PlainSp) → stmts_cost (small.while_loop 10 c) ≡ 47 + 2 * expr_cost c }
    ensures leaving { (e : PlainSp) → stmts_cost (small.leaving e) ≡ 16 + expr_cost e }
    ensures set_variable { stmt_cost (writes 0 (to_cell (small.cell Region.Private 4)) (constant 5))
        ≡ 7 + expr_cost (constant 5) }
    ensures function { cost (small.entry_of no_stmt) ≡ 56 }
{}
