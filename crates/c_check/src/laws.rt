//! What the least fault is, which programs have none, and where faults are reported.
ghost use Rattle.std.specs.Prelude.{◌≡◌, ℕ, List, false, None, Some};
ghost use Rattle.std.specs.List.{All, Contains};
ghost use Rattle.c_tree.specs.declared.checks.Fault.{Fault};
ghost use Rattle.c_tree.specs.declared.units.Unit.{Unit as Program};
ghost use Rattle.c_tree.specs.Fits.{GrammarFits};
ghost use Rattle.c_tree.specs.Plain.{PlainItem, plain};
ghost use Rattle.c_tree.specs.Least.{is_before};
ghost use Rattle.c_tree.specs.Tokens.{tokens_of};
ghost use Rattle.c_tree.specs.Valid.{faults_of, fault_of, IsValid};
ghost use Rattle.c_check.specs.Pointed.{PointsAmong};

/// The fault that a program is refused with is one of its faults, and none of them is before it. Valid programs are
/// those that have no such fault.
#[tactic(auto, using(crate::proofs::First::one_of_them, crate::proofs::First::none_before, crate::proofs::First::no_least, c_tree::proofs::Leasts::none_least))]
pub fn least_fault_of_all()
    ensures one_of_them { (items : List PlainItem) (cores own : ℕ) (f : Fault) → fault_of items cores own ≡ Some f
        → Contains (faults_of items cores own) f }
    ensures none_before { (items : List PlainItem) (cores own : ℕ) (f : Fault) → fault_of items cores own ≡ Some f
        → All (λ g. is_before g f ≡ false) (faults_of items cores own) }
    ensures valid_without { (items : List PlainItem) (cores own : ℕ) → fault_of items cores own ≡ None
        → IsValid items cores own }
    ensures none_where_valid { (items : List PlainItem) (cores own : ℕ) → IsValid items cores own
        → fault_of items cores own ≡ None }
{}

/// A fault's place is that of a token that it is about, in a tree that fits the grammar: a name
/// that is unknown, declared twice or called wrongly; the number of a send's core; a loop's
/// bound; `while` or `for` of a loop without one.
#[tactic(auto, using(crate::proofs::Pointed::faults_pointed))]
pub fn faults_point_at_tokens()
    ensures { (u : Program) (cores own : ℕ) → GrammarFits u
        → All (PointsAmong (tokens_of u)) (faults_of (plain u) cores own) }
{}
