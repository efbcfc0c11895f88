ghost use Rattle.std.specs.Prelude.{◌≡◌, ◌-◌, ◌^◌, [], ◌∷◌, true, false, codes};
ghost use Rattle.tc_report.specs.Line.{access_line, bound_text, dropped_lines, line, mean_line, out_line, state_text, step_line, word_text};

use crate::rows::RowState;

/// The definitions at work: the pieces of some lines.
pub fn report_worked()
    ensures done { state_text (RowState.Done (2 ^ 32 - 7) 17) ≡ codes "done -7 cycles 17" }
    ensures trap { state_text (RowState.Trap 2 7) ≡ codes "trap 2 at 7" }
    ensures bound { bound_text (Some 45) true false ≡ codes " bound 45 alone" }
    ensures no_bound { bound_text None true true ≡ [] }
    ensures unsigned { word_text true (2 ^ 32 - 7) ≡ codes "4294967289" }
    ensures dropped { dropped_lines 0 1 ≡ line (codes "core 0 dropped 1") }
    ensures nothing_dropped { dropped_lines 0 0 ≡ [] }
    ensures access { access_line 2 (record { cycle = 12; write = false; words = 4 })
        ≡ line (codes "core 2 access 12 read 4") }
    ensures meaning { mean_line 0 45 false ≡ line (codes "core 0 mean 45") }
    ensures cut_off { mean_line 1 10 true ≡ line (codes "core 1 mean 10 overrun") }
    ensures step { step_line 13 (Some 4 ∷ Some 3 ∷ Some 2 ∷ Some 1 ∷ None ∷ [])
        ≡ line (codes "step 13 F 4 D 3 E 2 M 1 W -") }
    ensures out { out_line 1 false 0 (2 ^ 32 - 3) ≡ line (codes "core 1 out 0 -3") }
{}
