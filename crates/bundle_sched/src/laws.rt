//! Laws of scheduled shapes.
ghost use Rattle.std.specs.Prelude.{◌≡◌, ℕ, Bool, true, Some, slice_index_or};
ghost use Rattle.bundle_sched.specs.Packed.{can_join, pair, lone};
ghost use Rattle.bundle_sched.specs.Scheduled.{scheduled};
ghost use Rattle.bundle_sched.specs.declared.ordering.TheConstants.{WINDOW};
ghost use Rattle.patmos_instr.specs.Bundles.{PlainBundle};
ghost use Rattle.patmos_instr.specs.declared.instructions.Instr.{Instr};
ghost use Rattle.sp_shape.specs.Bundles.{is_idle, parts_all};
ghost use Rattle.sp_shape.specs.Parts.{no_part, PlainShape};

/// No bundle is lost: what holds of each bundle of a function that is scheduled holds of each that it had before, where
/// it holds of bundles that do nothing, of two that can be one where it holds of that one, and of a bundle of two
/// instructions where it holds of each alone.
#[tactic(auto, using(crate::proofs::Kept::none_lost))]
pub fn no_bundle_is_lost()
    ensures { (holds : PlainBundle → Bool) → ((b : PlainBundle) → is_idle b ≡ true → holds b ≡ true)
        → ((a b : PlainBundle) → can_join a b ≡ true → holds (pair a b) ≡ true → (holds a ≡ true) × (holds b ≡ true))
        → ((b : PlainBundle) (i : Instr) → b.second ≡ Some i
        → holds (lone b.first) ≡ true → holds (lone i) ≡ true → holds b ≡ true)
        → (s : PlainShape) (k : ℕ)
        → parts_all holds (slice_index_or (scheduled s).functions k no_part) ≡ true
        → parts_all holds (slice_index_or s.functions k no_part) ≡ true }
{}

/// How many rows an instruction looks back at most. A law: it does nothing.
pub fn limits()
    ensures window { WINDOW ≡ 16 }
{}
