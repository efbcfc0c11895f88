//! Worked examples: the faults of small programs, what their parts weigh, and where their variables stand.
ghost use Rattle.std.specs.Prelude.{◌≡◌, ℕ, [], ◌∷◌, codes, true, false, Some, None};
ghost use Rattle.local_store.specs.declared.map.Cell.TheVariants as cell;
ghost use Rattle.c_tree.specs.Checks.{target_faults};
ghost use Rattle.c_tree.specs.Depth.{expr_depth};
ghost use Rattle.c_tree.specs.Frame.{stmt_frame};
ghost use Rattle.c_tree.specs.Layout.{layout_of, given_slots, initial_of, input_of};
ghost use Rattle.c_tree.specs.Least.{least_of};
ghost use Rattle.c_tree.specs.Plain as tree;
ghost use Rattle.c_tree.specs.Small.{function_of, void_of, parameter_of, variable_of, array_of, const_of};
ghost use Rattle.c_tree.specs.Valid.{faults_of};
ghost use Rattle.c_tree.specs.Weight.{stmt_weight};

use crate::checks::CheckFault;
use crate::expressions::BinaryOp;
use crate::statements::Kind;

/// What is wrong with small programs, if anything:
///
/// - `int f() { return 1; }`
/// - `int main() { return x; } int x;`
/// - `int comm; int main() { return 0; }`
/// - `int main() { main(1); return 0; }`
/// - `int a[2]; int main() { return a; }`
/// - `_SPM int a = 1; int main() { return 0; }`
/// - `int main() { break; }`
/// - `int f(int f) { f(1); return 0; } int main() { return 0; }`
/// - `int f(int a, int b, int c, int d, int e, int g, int h) { return a; } int main() { return 0; }`
/// - `int a[49149]; _SPM int b[2049]; int f() { return 0; }`
/// - `int x; int main() { int x = x; x = f(); }` and before it `void f() { }`
/// - `int main() { while (0) { } return 0; }`
#[tactic(auto, unfolding(crate::specs::Checks::stmt_faults, crate::specs::Checks::block_faults, crate::specs::Checks::expr_faults, crate::specs::Sizes::stmt_size, crate::specs::Sizes::block_size, crate::specs::Sizes::expr_size, crate::specs::Weight::stmt_weight, crate::specs::Weight::block_weight, crate::specs::Weight::expr_weight, crate::specs::Frame::stmt_frame, crate::specs::Frame::block_frame, crate::specs::Depth::expr_depth))]
pub fn worked_faults()
    ensures no_main { (cores own : ℕ)
        → faults_of ((function_of (codes "f") [] (tree.returned (Some (tree.number 1 false)) ∷ []) ∷ [])) cores own
        ≡ record { at = 9; kind = CheckFault.NoMain } ∷ [] }
    ensures unknown { (cores own : ℕ) → faults_of ((
        function_of (codes "main") [] (tree.returned (Some (tree.name (codes "x"))) ∷ [])
        ∷ variable_of false (codes "x") [] ∷ [])) cores own
        ≡ record { at = 6; kind = CheckFault.Unknown } ∷ [] }
    ensures twice { (cores own : ℕ) → faults_of ((
        variable_of false (codes "comm") []
        ∷ function_of (codes "main") [] (tree.returned (Some (tree.number 0 false)) ∷ []) ∷ [])) cores own
        ≡ record { at = 1; kind = CheckFault.Twice } ∷ [] }
    ensures itself { (cores own : ℕ) → faults_of ((function_of (codes "main") []
        (tree.called (codes "main") (tree.number 1 false ∷ []) ∷ tree.returned (Some (tree.number 0 false)) ∷ [])
        ∷ [])) cores own
        ≡ record { at = 5; kind = CheckFault.Recursion } ∷ record { at = 5; kind = CheckFault.Params } ∷ [] }
    ensures no_index { (cores own : ℕ) → faults_of ((
        array_of false (codes "a") 2 []
        ∷ function_of (codes "main") [] (tree.returned (Some (tree.name (codes "a"))) ∷ []) ∷ [])) cores own
        ≡ record { at = 12; kind = CheckFault.WrongType } ∷ [] }
    ensures scratch_value { (cores own : ℕ) → faults_of ((
        variable_of true (codes "a") (const_of 1 ∷ [])
        ∷ function_of (codes "main") [] (tree.returned (Some (tree.number 0 false)) ∷ []) ∷ [])) cores own
        ≡ record { at = 2; kind = CheckFault.WrongType } ∷ [] }
    ensures no_loop { (cores own : ℕ) → faults_of ((function_of (codes "main") [] (tree.broken ∷ []) ∷ [])) cores own
        ≡ record { at = 5; kind = CheckFault.WrongType } ∷ [] }
    ensures hidden { (cores own : ℕ) → faults_of ((
        function_of (codes "f") (parameter_of (codes "f") ∷ []) (tree.called (codes "f") (tree.number 1 false ∷ [])
        ∷ [])
        ∷ function_of (codes "main") [] [] ∷ [])) cores own
        ≡ record { at = 7; kind = CheckFault.WrongType } ∷ [] }
    ensures seven { (cores own : ℕ) → faults_of ((
        function_of (codes "f") (parameter_of (codes "a") ∷ parameter_of (codes "b") ∷ parameter_of (codes "c")
        ∷ parameter_of (codes "d")
        ∷ parameter_of (codes "e") ∷ parameter_of (codes "g") ∷ parameter_of (codes "h") ∷ []) []
        ∷ function_of (codes "main") [] [] ∷ [])) cores own
        ≡ record { at = 1; kind = CheckFault.Params } ∷ [] }
    ensures too_large { (cores own : ℕ) → faults_of ((
        array_of false (codes "a") 49149 [] ∷ array_of true (codes "b") 2049 []
        ∷ function_of (codes "f") [] (tree.returned (Some (tree.number 0 false)) ∷ []) ∷ [])) cores own
        ≡ record { at = 22; kind = CheckFault.Data } ∷ record { at = 22; kind = CheckFault.Scratch }
        ∷ record { at = 22; kind = CheckFault.NoMain } ∷ [] }
    ensures void_value { (cores own : ℕ) → faults_of ((
        variable_of false (codes "x") [] ∷ void_of (codes "f") []
        ∷ function_of (codes "main") [] (tree.declared Kind.Int (codes "x") (Some (tree.value (tree.name (codes "x"))))
        ∷ tree.set (codes "x") (tree.call (codes "f") []) ∷ []) ∷ [])) cores own
        ≡ record { at = 21; kind = CheckFault.WrongType } ∷ [] }
    ensures no_bound { (cores own : ℕ) → faults_of ((function_of (codes "main") []
        (tree.looped None (tree.iterations_while (tree.number 0 false)) tree.no_stmt ∷ []) ∷ [])) cores own
        ≡ record { at = 5; kind = CheckFault.NoBound } ∷ [] }
    ensures target { (cores own : ℕ)
        → target_faults cores own 7 own ≡ record { at = 7; kind = CheckFault.Target } ∷ [] }
    ensures least { least_of (record { at = 7; kind = CheckFault.Unknown } ∷ record { at = 5; kind = CheckFault.Params }
        ∷ record { at = 5; kind = CheckFault.Recursion } ∷ record { at = 5; kind = CheckFault.Heavy } ∷ [])
        ≡ Some (record { at = 5; kind = CheckFault.Recursion }) }
{}

/// What parts weigh: `int x = 1;`, `x = 1;`, `return 1;`, `while (1) { break; }` and `if (1) { int y; } else { }`; the
/// frames of the last two; and how deep `.. + 1` is.
#[tactic(auto, unfolding(crate::specs::Weight::stmt_weight, crate::specs::Weight::block_weight, crate::specs::Weight::arms_weight, crate::specs::Weight::otherwise_weight, crate::specs::Weight::expr_weight, crate::specs::Frame::stmt_frame, crate::specs::Frame::block_frame, crate::specs::Frame::arms_frame, crate::specs::Frame::otherwise_frame, crate::specs::Depth::expr_depth, crate::specs::Depth::steps_depth))]
pub fn worked_weights()
    ensures declared { stmt_weight (tree.declared Kind.Int (codes "x") (Some (tree.value (tree.number 1 false)))) ≡ 16 }
    ensures set { stmt_weight (tree.set (codes "x") (tree.value (tree.number 1 false))) ≡ 16 }
    ensures returned { stmt_weight (tree.returned (Some (tree.number 1 false))) ≡ 20 }
    ensures iterating { stmt_weight (tree.looped None (tree.iterations_while (tree.number 1 false))
        (tree.stmt tree.broken tree.no_stmt)) ≡ 72 }
    ensures otherwise { stmt_weight
        (tree.chosen (tree.arm (tree.number 1 false)
        (tree.stmt (tree.declared Kind.Int (codes "y") None) tree.no_stmt) tree.no_arm)
        (tree.or_else tree.no_stmt)) ≡ 44 }
    ensures loop_frame { stmt_frame
        (tree.looped None (tree.iterations_while (tree.number 1 false)) (tree.stmt tree.broken tree.no_stmt)) ≡ 2 }
    ensures else_frame { stmt_frame
        (tree.chosen (tree.arm (tree.number 1 false)
        (tree.stmt (tree.declared Kind.Int (codes "y") None) tree.no_stmt) tree.no_arm)
        (tree.or_else tree.no_stmt)) ≡ 2 }
    ensures waiting { expr_depth (tree.chain 9 (tree.number 2 false)
        (tree.step BinaryOp.Plus (tree.number 1 false) tree.no_step)) ≡ 2 }
{}

/// Where the variables of `int in[3] = {7}; _SPM unsigned s; int x = -1;` stand, what private memory begins with, and
/// where the input lies.
pub fn worked_layout()
    ensures slots { layout_of ((array_of false (codes "in") 3 (const_of 7 ∷ []) ∷ variable_of true (codes "s") []
        ∷ variable_of false (codes "x") [] ∷ []))
        ≡ record { name = codes "in"; cell = cell.Private 4; length = 3; unsigned = false }
        ∷ record { name = codes "s"; cell = cell.Scratch 0; length = 1; unsigned = false }
        ∷ record { name = codes "x"; cell = cell.Private 7; length = 1; unsigned = false } ∷ given_slots }
    ensures initial { initial_of ((array_of false (codes "in") 3 (const_of 7 ∷ []) ∷ variable_of true (codes "s") []
        ∷ variable_of false (codes "x") (record { negative = true; value = 1; unsigned = false } ∷ []) ∷ []))
        ≡ 7 ∷ 0 ∷ 0 ∷ 4294967295 ∷ [] }
    ensures input { input_of ((variable_of false (codes "x") [] ∷ array_of false (codes "in") 3 [] ∷ []))
        ≡ record { at = 5; room = 3 } }
    ensures scratch_input { input_of ((array_of true (codes "in") 3 [] ∷ [])) ≡ record { at = 4; room = 0 } }
{}
