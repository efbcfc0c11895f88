ghost use Rattle.std.specs.Prelude.{◌≡◌, ℕ, ◌*◌, ◌^◌, ◌<◌, ◌≤◌, List, take};
ghost use Rattle.shared_order.specs.declared.operation.Operation.{Operation};
ghost use Rattle.shared_order.specs.Operation.{loads};
ghost use Rattle.shared_order.specs.Program.{Prog};
ghost use Rattle.shared_order.specs.Machine.{cycled};
ghost use Rattle.shared_order.specs.Apart.{apart};
ghost use Rattle.shared_order.specs.Fit.{KeepsRanges};
ghost use Rattle.shared_order.specs.Course.{SameWhileRead, asked_next, IsCourse};

use crate::range::Ranged;

/// What a core asks for next is determined by the values that it loaded before: two runs of one
/// core ask for the same until a load gave them different values; and where after as many
/// operations their loads gave the same, they made the same operations and ask for the same next,
/// or both for nothing more. A law: it does nothing.
pub fn next_is_determined<X>()
    ensures while_read { (turn : ℕ → ℕ → X → Prog X) (n core : ℕ) (x : X)
        → (values values' : List ℕ) (t : ℕ) → core < n
        → SameWhileRead (apart turn n core x values t).made (apart turn n core x values' t).made }
    ensures next { (k : ℕ) (os os' : List Operation) → SameWhileRead os os'
        → loads (take k os) ≡ loads (take k os')
        → (take k os ≡ take k os') × (asked_next k os ≡ asked_next k os') }
{}

/// Where each turn of a core in range keeps the ranges, the machine's list is a course of its cores: a
/// core asks for what it makes apart when its loads give these values. A law: it does nothing.
pub fn machine_is_a_course<X: Ranged>()
    ensures course { (turn : ℕ → ℕ → X → Prog X) (n words : ℕ) (cores : ℕ → X) (t : ℕ)
        → 0 < n → 2 * t * n ≤ 2 ^ 64 → KeepsRanges turn X.in_range words
        → ((core : ℕ) → X.in_range (cores core))
        → IsCourse n words (cycled turn n cores t).made
        (λ core values. (apart turn n core (cores core) values t).made) }
{}
