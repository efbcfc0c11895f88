//! Worked examples: which shapes are well formed, in which order their bundles are run, and which loops make all iterations.
ghost use Rattle.std.specs.Prelude.{◌≡◌, ◌+◌, ℕ, [], ◌∷◌, ◌++◌, List, true, false, length};
ghost use Rattle.sp_shape.specs.Formed.{part_formed, function_formed, is_formed};
ghost use Rattle.sp_shape.specs.Parts.{PlainParts, no_part, part, one, straight, repeats, calls_to, leaves};
ghost use Rattle.patmos_sem.specs.Registers.{word_in};
ghost use Rattle.sp_shape.specs.Run.{by_list, by_words, calls, run, run_late, settled};
ghost use Rattle.sp_shape.specs.Small as small;
ghost use Rattle.sp_shape.specs.Trail.{does, begins, all_done, trail, copies};
ghost use Rattle.sp_shape.specs.Iterating.{AsksNoMore, ShapeIterations};

use patmos_instr::{CmpFunc, Op};

/// Shapes that are well formed, and one row for each cause for which one is not.
pub fn worked_shapes()
    ensures one_function { is_formed (small.shape_of (small.empty ∷ []) 0) ≡ true }
    ensures calls_and_iterations { is_formed (small.shape_of (small.empty ∷ small.caller 0 ∷ []) 1) ≡ true }
    ensures no_entry { is_formed (small.shape_of (small.empty ∷ []) 1) ≡ false }
    ensures own_call { is_formed (small.shape_of (small.empty ∷ small.caller 1 ∷ []) 1) ≡ false }
    ensures no_return { function_formed 1 (one (straight [])) ≡ false }
    ensures two_returns { function_formed 1 (part (leaves small.return) small.empty) ≡ false }
    ensures return_in_iterations { function_formed 1 (part (repeats 1 small.empty small.again) small.empty) ≡ false }
    ensures no_iterations { part_formed 1 (repeats 0 no_part small.again) ≡ false }
    ensures iteration_with_more { part_formed 1 (repeats 1 no_part (small.add 1 ∷ small.again)) ≡ true }
    ensures iteration_with_one_slot { part_formed 1
        (repeats 1 no_part (small.under small.always small.branch ∷ small.idle ∷ [])) ≡ false }
    ensures branch_in_slot { part_formed 1 (repeats 1 no_part (small.under small.always small.branch ∷ small.again))
        ≡ false }
    ensures flow_in_straight { part_formed 1 (straight small.return) ≡ false }
    ensures call_with_two_slots { part_formed 1
        (calls_to 0 (small.under small.always small.call_op ∷ small.idle ∷ small.idle ∷ [])) ≡ false }
    ensures call_under_a_guard { part_formed 1
        (calls_to 0 (small.under small.p1 small.call_op ∷ small.idle ∷ small.idle ∷ small.idle ∷ [])) ≡ false }
    ensures call_by_return { part_formed 1 (calls_to 0 small.return) ≡ false }
{}

/// The trail of a function that does three iterations with a call in each.
pub fn worked_trails()
    ensures trail { trail (small.shape_of (small.empty ∷ small.caller 0 ∷ []) 1)
        ≡ does (small.add 1) ∷ (copies 3 (all_done small.call ++ begins ∷ all_done (small.return ++ small.again))
        ++ all_done (small.add 2 ∷ small.return)) }
    ensures length { length (trail (small.shape_of (small.empty ∷ small.caller 0 ∷ []) 1)) ≡ 42 }
{}

/// A load's value and a product, read at once and read late: then what stands in the next bundle does not see them. The
/// values of loads from the words, or as they are given; and the place to which a call's function returns.
pub fn worked_runs()
    ensures at_once { word_in (run by_words (all_done (small.load ∷ small.add 1 ∷ [])) small.beginning).regs 1 ≡ 8 }
    ensures late { word_in (settled
        (run_late by_words (all_done (small.load ∷ small.add 1 ∷ [])) small.beginning).regs) 1 ≡ 1 }
    ensures late_after { word_in (settled
        (run_late by_words (all_done (small.load ∷ small.idle ∷ small.add 1 ∷ [])) small.beginning).regs) 1 ≡ 8 }
    ensures product { (run by_words (all_done (small.load ∷ small.square ∷ [])) small.beginning).regs.sl ≡ 49 }
    ensures given { word_in (run by_list (all_done (small.load ∷ small.add 1 ∷ [])) small.beginning).regs 1 ≡ 6 }
    ensures asked { length (run by_list (all_done (small.load ∷ small.add 1 ∷ [])) small.beginning).asked ≡ 1 }
    ensures called { (run by_words (all_done small.call ++ begins ∷ []) small.beginning).regs.sro ≡ 9 }
    ensures ways { (run by_words (all_done small.call ++ begins ∷ []) small.beginning).ways ≡ calls ∷ [] }
{}

/// A loop that counts its iterations in r1, and goes back while p1 says that r1 is not 3: it makes all
/// of three iterations, read late or at once, and not two, since the second asks for one more. Where
/// p1 is as a task begins, no iteration asks for one.
pub fn worked_iterations()
    ensures no_more { AsksNoMore (run by_words) small.again small.beginning }
    ensures three { let count = small.add 1 ∷ small.under small.always (Op.CmpImm CmpFunc.Neq 1 1 3) ∷ [] in
        ShapeIterations (run by_words) (small.shape_of (part (repeats 3 (one (straight count)) small.again) small.empty
        ∷ []) 0) small.beginning }
    ensures three_late { let count = small.add 1 ∷ small.under small.always (Op.CmpImm CmpFunc.Neq 1 1 3) ∷ [] in
        ShapeIterations (run_late by_words)
        (small.shape_of (part (repeats 3 (one (straight count)) small.again) small.empty ∷ []) 0) small.beginning }
    ensures two { let count = small.add 1 ∷ small.under small.always (Op.CmpImm CmpFunc.Neq 1 1 3) ∷ [] in
        ShapeIterations (run by_words) (small.shape_of (part (repeats 2 (one (straight count)) small.again) small.empty
        ∷ []) 0) small.beginning → ⊥ }
    ensures none { ShapeIterations (run by_words) (small.shape_of (small.empty ∷ small.caller 0 ∷ []) 1) small.beginning
        → ⊥ }
{}
