//! Worked examples: what is reported at a task's end.
ghost use Rattle.std.specs.Prelude.{◌≡◌, ◌+◌, [], ◌∷◌, true, false, codes};
ghost use Rattle.c_tree.specs.Small.{array_of, variable_of, function_of};
ghost use Rattle.c_run.specs.Reported.{words_from, output_number};

/// Three words from word 4 on; and the output: an array called `out`, also in the scratchpad, and no variable.
pub fn worked_told()
    ensures words { words_from (λ n. n + 10) 4 3 ≡ 14 ∷ 15 ∷ 16 ∷ [] }
    ensures output { output_number (variable_of false (codes "x") [] ∷ function_of (codes "f") [] []
        ∷ array_of true (codes "out") 2 [] ∷ []) ≡ Some 1 }
    ensures variable { output_number (variable_of false (codes "out") [] ∷ []) ≡ None }
    ensures none { output_number [] ≡ None }
{}
