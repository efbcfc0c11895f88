ghost use Rattle.std.specs.Prelude.{ℕ, ◌<◌, ◌^◌};
ghost use Rattle.std.specs.List.{AllByRecursion as Each};
ghost use Rattle.shared_order.specs.Fit.{Fits};
ghost use Rattle.patmos_model.specs.Range.{InRange};
ghost use Rattle.global_step.specs.Loaded.{Machine};
ghost use Rattle.global_step.specs.Machine.{machine, all_operations};
ghost use Rattle.global_step.specs.Range.{IsOfWords, board_words};

/// In a machine that is loaded with words of 32 bits, each core is in range at any time, the board has
/// words of 32 bits, and each load and store is one of a word of the board, with a stamp of 64 bits. A law:
/// it does nothing.
pub fn machine_keeps_ranges()
    ensures cores { (m : Machine) (t core : ℕ) → IsOfWords m → InRange (board_words m) ((machine m t).cores core) }
    ensures words { (m : Machine) (t word : ℕ) → IsOfWords m → (machine m t).words word < 2 ^ 32 }
    ensures operations { (m : Machine) → IsOfWords m → Each (Fits (board_words m)) (all_operations m) }
{}
