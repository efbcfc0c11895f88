ghost use Rattle.std.specs.Prelude.{◌≡◌, ℕ, ◌==◌, ◌%◌, Bool, false, List, [], ◌∷◌, ◌++◌};
ghost use Rattle.std.specs.List.{AllByRecursion as Each};
ghost use Rattle.shared_order.specs.declared.operation.Operation.{Operation};
ghost use Rattle.shared_order.specs.Operation.{store, operations_of};
ghost use Rattle.shared_order.specs.SomeWords.{IsSome, LoadsOnly, StoresOnly, Outside, SeesOn};
ghost use Rattle.shared_order.specs.Words.{after, zeros, stored_last, LeavesWord, Sees, Reads};

/// After a list of operations each word has what was stored last in it: the value of the last
/// store, or what it had where there is none. A law: it does nothing.
pub fn words_after_operations()
    ensures after { (os : List Operation) (words : ℕ → ℕ) (word : ℕ)
        → after os words word ≡ stored_last word os (words word) }
    ensures last { (word : ℕ) (earlier later : List Operation) (stamp value begun : ℕ)
        → Each (LeavesWord word) later
        → stored_last word (earlier ++ store stamp word value ∷ later) begun ≡ value }
    ensures none { (word : ℕ) (os : List Operation) (begun : ℕ)
        → Each (LeavesWord word) os → stored_last word os begun ≡ begun }
{}

/// What loads see. Where each load has what was stored last in its word, else 0, each sees its word from
/// zeros on; and where no other core stores in some words, a core's own loads of these see among its own
/// operations what they see among all. A law: it does nothing.
pub fn own_loads_see_their_words()
    ensures zeros { (os : List Operation) → Reads [] os → Sees zeros os }
    ensures some { (among : ℕ → Bool) (words : ℕ → ℕ) (os : List Operation)
        → Sees words os → SeesOn (IsSome among) words os }
    ensures own { (among : ℕ → Bool) (n core : ℕ) (words : ℕ → ℕ) (os : List Operation)
        → Each (λ o. (o.stamp % n == core) ≡ false → StoresOnly (Outside (IsSome among)) o) os
        → SeesOn (IsSome among) words os → SeesOn (IsSome among) words (operations_of n core os) }
    ensures all { (among : ℕ → Bool) (words : ℕ → ℕ) (os : List Operation)
        → Each (LoadsOnly (IsSome among)) os → SeesOn (IsSome among) words os → Sees words os }
{}
