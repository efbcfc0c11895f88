//! Worked examples: what small statements and units do.
ghost use Rattle.std.specs.Prelude.{◌≡◌, [], ◌∷◌, List, Some, None, true, false};
ghost use Rattle.c_world.specs.World.{World, fresh};
ghost use Rattle.sp_tree.specs.Begun.{begun_private, straight_alone};
ghost use Rattle.sp_tree.specs.Plain.{constant, frame_word, array_word};
ghost use Rattle.sp_tree.specs.Small as small;
ghost use Rattle.sp_tree.specs.Statements.{calls, masks, overruns, writes, to_array, no_stmt, one};
ghost use Rattle.sp_tree.specs.Straight.{Serves, stmt_done};

use c_world::Region;

/// Masks of 1, 0 and 2: what is written under each; what is set by `Mask` in any case; elements at the length of their
/// array; iterations.
pub fn worked_masks()
    ensures on { (g : Serves) → (stmt_done g (small.writing 7) (small.under 1)).frame 1 ≡ 7 }
    ensures off { (g : Serves) → stmt_done g (small.writing 7) (small.under 0) ≡ small.under 0 }
    ensures two { (g : Serves) → stmt_done g (small.writing 7) (small.under 2) ≡ small.under 2 }
    ensures always { (g : Serves) → (stmt_done g (small.masking 7) (small.under 0)).frame 1 ≡ 7 }
    ensures element { (g : Serves)
        → (stmt_done g (writes 0 (to_array (small.array Region.Shared 8 3) (constant 2)) (constant 7))
        (small.under 1)).world.shared 10 ≡ 7 }
    ensures past { (g : Serves) → stmt_done g
        (writes 0 (to_array (small.array Region.Shared 8 3) (constant 3)) (constant 7)) (small.under 1)
        ≡ small.under 1 }
    ensures three_iterations { (g : Serves) → (stmt_done g (small.adding 3) (small.under 1)).frame 1 ≡ 6 }
    ensures iterations_off { (g : Serves) → (stmt_done g (small.adding 3) (small.under 0)).frame 1 ≡ 6 }
    ensures no_iteration { (g : Serves) → stmt_done g (small.adding 0) (small.under 1) ≡ small.under 1 }
{}

/// The flag and sends under masks of 1, 0 and 2.
pub fn worked_effects()
    ensures overran { (g : Serves) → (stmt_done g (overruns 0 (constant 5)) (small.under 1)).world.overrun ≡ true }
    ensures held { (g : Serves) → stmt_done g (overruns 0 (constant 0)) (small.under 1) ≡ small.under 1 }
    ensures overrun_off { (g : Serves) → stmt_done g (overruns 0 (constant 5)) (small.under 0) ≡ small.under 0 }
    ensures overrun_two { (g : Serves) → stmt_done g (overruns 0 (constant 5)) (small.under 2) ≡ small.under 2 }
    ensures sent { (g : Serves) → (stmt_done g (small.sending 2) (small.under 1)).world.sends
        ≡ record { core = 3; source = 10; target = 20; count = 2 } ∷ [] }
    ensures too_many { (g : Serves) → stmt_done g (small.sending 503) (small.under 1) ≡ small.under 1 }
    ensures send_off { (g : Serves) → stmt_done g (small.sending 2) (small.under 0) ≡ small.under 0 }
    ensures send_two { (g : Serves) → stmt_done g (small.sending 2) (small.under 2) ≡ small.under 2 }
{}

/// A call of `int f(int a, int b) { g = a - b; return a - b; }` with 7 and 5: under 1 its result and its effect are
/// there; under 0 and 2 it changes nothing but its own frame, and nor does a function whose result is set in any case.
pub fn worked_calls()
    ensures given { (stmt_done (small.served small.difference) small.calling (small.under 1)).frame 1 ≡ 2 }
    ensures stored { (stmt_done (small.served small.difference) small.calling (small.under 1)).world.private 4 ≡ 2 }
    ensures nowhere { (stmt_done (small.served small.difference) (calls 0 0 (constant 7 ∷ constant 5 ∷ []) None)
        (small.under 1)).frame 1 ≡ 0 }
    ensures off { stmt_done (small.served small.difference) small.calling (small.under 0) ≡ small.under 0 }
    ensures two { stmt_done (small.served small.difference) small.calling (small.under 2) ≡ small.under 2 }
    ensures gives_nine { (w : World) → (small.served small.always_nine 0 0 [] w).value ≡ 9 }
    ensures keeps { stmt_done (small.served small.always_nine) (calls 0 0 [] (Some 1)) (small.under 0) ≡ small.under 0 }
{}

/// What private memory begins with, where the first words are 1, 2, 3 and the input has room for two words from word 5
/// on; and what the difference of two words of input comes to.
pub fn worked_tasks()
    ensures before { begun_private (small.unit_of no_stmt) (8 ∷ []) 3 ≡ 0 }
    ensures first { begun_private (small.unit_of no_stmt) (8 ∷ []) 4 ≡ 1 }
    ensures input { begun_private (small.unit_of no_stmt) (8 ∷ []) 5 ≡ 8 }
    ensures short_input { begun_private (small.unit_of no_stmt) (8 ∷ []) 6 ≡ 3 }
    ensures long_input { begun_private (small.unit_of no_stmt) (7 ∷ 8 ∷ 9 ∷ []) 7 ≡ 0 }
    ensures value { (straight_alone small.difference_unit (9 ∷ 4 ∷ [])).value ≡ 5 }
    ensures stored { (straight_alone small.difference_unit (9 ∷ 4 ∷ [])).world.private 4 ≡ 5 }
    ensures kept { (straight_alone small.difference_unit (9 ∷ 4 ∷ [])).world.private 5 ≡ 9 }
    ensures own_mask { (straight_alone (small.unit_of (one (masks 1 (frame_word 0)))) []).value ≡ 1 }
    ensures no_overrun { (straight_alone small.difference_unit (9 ∷ 4 ∷ [])).world.overrun ≡ false }
    ensures overrun { (straight_alone
        (small.unit_of (one (overruns 0 (array_word (small.array Region.Private 5 2) (constant 0))))) (9
        ∷ [])).world.overrun ≡ true }
{}
