ghost use Rattle.std.specs.Prelude.{ℕ, ◌*◌, ◌^◌, ◌<◌, ◌≤◌, List};
ghost use Rattle.std.specs.List.{AllByRecursion as Each};
ghost use Rattle.shared_order.specs.Apart.{apart};
ghost use Rattle.shared_order.specs.Operation.{loads};
ghost use Rattle.shared_order.specs.Program.{Prog, and_then};
ghost use Rattle.shared_order.specs.declared.operation.Operation.{Operation};
ghost use Rattle.shared_order.specs.Machine.{cycled};
ghost use Rattle.shared_order.specs.Fit.{AreWords, IsFit, Fits, KeepsRanges};

/// The states of a core whose numbers are in their ranges, as the kind of core has it.
pub trait Ranged {
    ghost in_range: { Self → Type 0 };
}

/// Where each turn of a core in range names words of the board alone, stores words of 32 bits and leaves a core
/// in range, so does the whole machine, and so does a core apart on values that are words, as those are that its
/// loads gave in the machine. A law: it does nothing.
pub fn ranges_are_kept<X: Ranged>()
    ensures good { (turn : ℕ → ℕ → X → Prog X) (n words : ℕ) (cores : ℕ → X) (t : ℕ)
        → KeepsRanges turn X.in_range words → ((core : ℕ) → X.in_range (cores core))
        → (core : ℕ) → X.in_range ((cycled turn n cores t).cores core) }
    ensures words { (turn : ℕ → ℕ → X → Prog X) (n words : ℕ) (cores : ℕ → X) (t : ℕ)
        → KeepsRanges turn X.in_range words → ((core : ℕ) → X.in_range (cores core))
        → (word : ℕ) → (cycled turn n cores t).words word < 2 ^ 32 }
    ensures operations { (turn : ℕ → ℕ → X → Prog X) (n words : ℕ) (cores : ℕ → X) (t : ℕ)
        → KeepsRanges turn X.in_range words
        → ((core : ℕ) → X.in_range (cores core)) → 2 * t * n ≤ 2 ^ 64
        → Each (Fits words) (cycled turn n cores t).made }
    ensures read { (words : ℕ) (os : List Operation) → Each (Fits words) os → AreWords (loads os) }
    ensures apart { (turn : ℕ → ℕ → X → Prog X) (n core words : ℕ) (x : X) (values : List ℕ) (t : ℕ)
        → KeepsRanges turn X.in_range words → X.in_range x → AreWords values
        → X.in_range (apart turn n core x values t).core }
    ensures in_parts { (words : ℕ) (prefix : Prog X) (back : X → Prog X)
        → IsFit X.in_range words prefix → ((x : X) → X.in_range x → IsFit X.in_range words (back x))
        → IsFit X.in_range words (and_then prefix back) }
{}
