//! The laws of bounds by weights.
ghost use Rattle.std.specs.Prelude.{ℕ, ◌<◌, ◌≤◌, List, length, slice_index_or};
ghost use Rattle.c_task.specs.Translation.{bound_on};
ghost use Rattle.c_tree.specs.Plain.{PlainItem};
ghost use Rattle.c_tree.specs.Valid.{IsValid};
ghost use Rattle.single_path.specs.Single.{single, weights_in, with_calls};
ghost use Rattle.slot_arbiter.specs.declared.table.TheConstants.{MOST_CORES};
ghost use Rattle.sp_tree.specs.Statements.{no_function};
ghost use Rattle.weight_bounds.specs.Leaves.{AreLeaves, HasNoMore};
ghost use Rattle.weight_bounds.specs.Weights.{transaction_cycles, weight_bound};

/// The bound of a program that is valid on its core is at most the one by the weights of its functions, with the
/// iterations and the calls of its tree. A law: it does nothing.
#[tactic(auto, using(crate::proofs::Programs::program_bounded))]
pub fn programs_are_bounded_by_weights()
    ensures { (cores core slot : ℕ) (table : List ℕ) (items : List PlainItem)
        → cores ≤ MOST_CORES → IsValid items cores core
        → bound_on table slot core items
        ≤ weight_bound (transaction_cycles table slot core) (weights_in items) (single items) }
{}

/// Where the functions before a function have neither loops nor calls, that function's tree has no more iterations and
/// calls than one in which each call of the text is a call, whichever of them it takes in. A law: it does nothing.
#[tactic(auto, using(crate::proofs::Programs::program_no_more))]
pub fn calls_taken_in_add_none()
    ensures { (items : List PlainItem) (k : ℕ) → k < length (with_calls items).functions
        → AreLeaves (with_calls items).functions k
        → HasNoMore (slice_index_or (with_calls items).functions k no_function)
        (slice_index_or (single items).functions k no_function) }
{}
