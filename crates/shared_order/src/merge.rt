ghost use Rattle.std.specs.Prelude.{◌≡◌, ℕ, ◌*◌, ◌%◌, ◌<◌, ◌≤◌, ◌≢◌, List, [], ◌++◌};
ghost use Rattle.std.specs.List.{AllByRecursion as Each};
ghost use Rattle.shared_order.specs.declared.operation.Operation.{Operation};
ghost use Rattle.shared_order.specs.Operation.{loads, operations_of};
ghost use Rattle.shared_order.specs.Words.{after, zeros, Reads};
ghost use Rattle.shared_order.specs.Program.{Prog, played};
ghost use Rattle.shared_order.specs.Machine.{cycled};
ghost use Rattle.shared_order.specs.Apart.{apart};
ghost use Rattle.shared_order.specs.Stamps.{act_at};
ghost use Rattle.shared_order.specs.Stands.{Stands};
ghost use Rattle.shared_order.specs.Merge.{IsMerging, IsMerge};

/// A list of operations that does not fall by stamp, reads what was stored last, and whose part of
/// each core is that core's run apart on its own loads, is the machine's list: its words and its
/// cores follow from it. The machine's own list is such a one. A law: it does nothing.
pub fn merge_is_the_machines<X>()
    ensures operations { (turn : ℕ → ℕ → X → Prog X) (n : ℕ) (cores : ℕ → X) (t : ℕ)
        → (all : List Operation) → 0 < n → IsMerge turn n cores t all
        → all ≡ (cycled turn n cores t).made }
    ensures words { (turn : ℕ → ℕ → X → Prog X) (n : ℕ) (cores : ℕ → X) (t : ℕ)
        → (all : List Operation) → 0 < n → IsMerge turn n cores t all
        → (cycled turn n cores t).words ≡ after all zeros }
    ensures cores { (turn : ℕ → ℕ → X → Prog X) (n : ℕ) (cores : ℕ → X) (t : ℕ)
        → (all : List Operation) → 0 < n → IsMerge turn n cores t all
        → (core : ℕ) → core < n
        → (cycled turn n cores t).cores core
        ≡ (apart turn n core (cores core) (loads (operations_of n core all)) t).core }
    ensures own { (turn : ℕ → ℕ → X → Prog X) (n : ℕ) (cores : ℕ → X) (t : ℕ)
        → IsMerge turn n cores t (cycled turn n cores t).made }
{}

/// How such a list comes about, one act after another in the order of their stamps: what a program
/// does when played on the words that all so far have left reads right; the operations are added to
/// the part of their core and to no other; and once each core, with its part made, stands at the
/// limit, the list is the machine's and these are its cores. A law: it does nothing.
pub fn merge_goes_on<X>()
    ensures begins { IsMerging [] 0 }
    ensures next { (made ops : List Operation) (s s' : ℕ) → IsMerging made s → s ≤ s'
        → Each (λ o. o.stamp ≡ s') ops → Reads made ops → IsMerging (made ++ ops) s' }
    ensures played { (made : List Operation) (s : ℕ) (p : Prog X)
        → Reads made (played s p (after made zeros)).ops
        × Each (λ o. o.stamp ≡ s) (played s p (after made zeros)).ops }
    ensures own { (n : ℕ) (made ops : List Operation) (s : ℕ) → Each (λ o. o.stamp ≡ s) ops
        → operations_of n (s % n) (made ++ ops) ≡ operations_of n (s % n) made ++ ops }
    ensures others { (n core : ℕ) (made ops : List Operation) (s : ℕ) → s % n ≢ core
        → Each (λ o. o.stamp ≡ s) ops → operations_of n core (made ++ ops) ≡ operations_of n core made }
    ensures ends { (turn : ℕ → ℕ → X → Prog X) (n : ℕ) (cores left : ℕ → X) (t s : ℕ)
        → (all : List Operation) → 0 < n → IsMerging all s
        → ((core : ℕ) → core < n
        → Stands (act_at turn n) n core (cores core) (operations_of n core all) (2 * t * n) (left core))
        → (all ≡ (cycled turn n cores t).made)
        × ((core : ℕ) → core < n → (cycled turn n cores t).cores core ≡ left core) }
{}
