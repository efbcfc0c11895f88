//! Worked examples, where a transaction takes 29 cycles at most, as in those of cycle_bound.
ghost use Rattle.std.specs.Prelude.{◌≡◌, [], ◌∷◌, false, true};
ghost use Rattle.sp_shape.specs.Small as small;
ghost use Rattle.cycle_bound.specs.Bound.{shape_bound};
ghost use Rattle.bound_persist.specs.Examples as example;
ghost use Rattle.bound_persist.specs.Persist.{persist};
ghost use Rattle.bound_persist.specs.Reached.{reached, stays};

/// What is reached: the entry and what it calls. Sixteen functions stay in the method cache together, seventeen don't.
pub fn worked_reached()
    ensures caller { reached (small.shape_of (small.empty ∷ small.empty ∷ small.caller 0 ∷ []) 2) ≡ (2 ∷ 0 ∷ []) }
    ensures chain { reached (small.shape_of (example.chain 2) 2) ≡ (2 ∷ 1 ∷ 0 ∷ []) }
    ensures sixteen { stays (small.shape_of (example.chain 16) 15) ≡ true }
    ensures seventeen { stays (small.shape_of (example.chain 16) 16) ≡ false }
{}

/// Persistent bounds of shapes.
pub fn worked_persistent_bounds()
    // one function: as the bound
    ensures empty { persist 29 (small.shape_of (small.empty ∷ []) 0) ≡ 62 }

    // 4 + 2 transactions to fetch both functions once; 1 bundle; three iterations of 4 bundles, the 4
    // that are called, and 3; 1 bundle; 4 bundles
    ensures caller { persist 29 (small.shape_of (small.empty ∷ small.caller 0 ∷ []) 1) ≡ 213 }

    // 3 + 2 transactions; three iterations of 4 + 4 + 3 bundles, and 4
    ensures thrice { persist 29 (small.shape_of (small.empty ∷ example.thrice ∷ []) 1) ≡ 182 }

    // a function that is not reached is not fetched
    ensures unreached { persist 29 (small.shape_of (small.empty ∷ small.empty ∷ small.caller 0 ∷ []) 2) ≡ 213 }

    // 15 * 3 + 2 transactions, and 15 * 8 + 4 bundles
    ensures sixteen { persist 29 (small.shape_of (example.chain 16) 15) ≡ 1487 }

    // seventeen functions: the bound
    ensures seventeen { persist 29 (small.shape_of (example.chain 16) 16)
        ≡ shape_bound 29 (small.shape_of (example.chain 16) 16) }
{}
