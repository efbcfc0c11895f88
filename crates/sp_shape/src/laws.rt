//! Laws of shapes.
ghost use Rattle.std.specs.Prelude.{◌≡◌, ◌++◌, ℕ, List};
ghost use Rattle.sp_shape.specs.Parts.{PlainParts, joined};
ghost use Rattle.sp_shape.specs.Run.{Run, IsWhole, Sources, run, run_late};
ghost use Rattle.sp_shape.specs.Shown.{parts_of};
ghost use Rattle.sp_shape.specs.Trail.{Step, parts_trail};
ghost use Rattle.sp_shape.specs.declared.parts.Part.{Part};

/// Parts after others: what they say is told of both, and they are run one after another.
#[tactic(auto, using(crate::proofs::Joins::shown, crate::proofs::Joins::trail_joined))]
pub fn parts_join()
    ensures shown { (xs ys : List Part) → parts_of (xs ++ ys) ≡ joined (parts_of xs) (parts_of ys) }
    ensures trail { (f : ℕ → List Step) (xs ys : PlainParts)
        → parts_trail f (joined xs ys) ≡ parts_trail f xs ++ parts_trail f ys }
{}

/// A trail that is read at once leaves nothing pending where nothing was, and all registers are there;
/// trails are run one after another, read late too.
#[tactic(auto, using(crate::proofs::Whole::run_append, crate::proofs::Whole::late_append))]
pub fn trails_go_on()
    ensures whole { (from : Sources) (steps : List Step) (m : Run) → IsWhole m → IsWhole (run from steps m) }
    ensures append { (from : Sources) (xs ys : List Step) (m : Run)
        → run from (xs ++ ys) m ≡ run from ys (run from xs m) }
    ensures append_late { (from : Sources) (xs ys : List Step) (m : Run)
        → run_late from (xs ++ ys) m ≡ run_late from ys (run_late from xs m) }
{}
