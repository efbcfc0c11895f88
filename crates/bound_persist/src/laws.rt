//! Laws of the persistent bound, and of functions that fit into the method cache together.
ghost use Rattle.std.specs.Prelude.{◌≡◌, ℕ, ◌≤◌, List, [], true, sum_by};
ghost use Rattle.method_cache.specs.declared.cache.Method.{Method};
ghost use Rattle.method_cache.specs.Residents.{fits, resident, is_among};
ghost use Rattle.sp_shape.specs.Formed.{is_formed};
ghost use Rattle.sp_shape.specs.Parts.{PlainShape};
ghost use Rattle.cycle_bound.specs.Bound.{shape_bound};
ghost use Rattle.bound_persist.specs.Persist.{persist};
ghost use Rattle.bound_persist.specs.Together.{AreOf, misses_after};

/// It is never more than the bound that counts a fetch at each call and each return. A law: it does nothing.
#[tactic(auto, using(crate::proofs::Tighter::persist_less))]
pub fn persistent_bounds_are_tighter()
    ensures { (each : ℕ) (s : PlainShape) → is_formed s ≡ true → persist each s ≤ shape_bound each s }
{}

/// Where functions all fit into the method cache together and no other is touched, a function that missed stays in the
/// cache, so that it misses no more; and whatever functions weigh (each 1, its words, the transactions of its fetch),
/// all misses weigh no more than the functions do. A law: it does nothing.
#[tactic(auto, using(crate::proofs::Together::never_again, crate::proofs::Together::misses_once))]
pub fn each_misses_once()
    ensures stays { (all before later : List Method) → fits all ≡ true → AreOf all before → AreOf all later
        → (f : ℕ) → is_among f (misses_after [] before) ≡ true
        → is_among f (resident (misses_after (misses_after [] before) later)) ≡ true }
    ensures once { (all touches : List Method) → fits all ≡ true → AreOf all touches
        → (weight : Method → ℕ) → sum_by weight (misses_after [] touches) ≤ sum_by weight all }
{}
