//! Laws on the definitions, each a clause of a function that does nothing.
ghost use Rattle.std.specs.Prelude.{◌≡◌, ℕ, [], List, length, codes};
ghost use Rattle.c_tree.specs.Layout.{layout_of};
ghost use Rattle.c_tree.specs.Plain.{PlainItem, PlainStmt};
ghost use Rattle.c_world.specs.World.{World};
ghost use Rattle.c_meaning.specs.Meaning.{stmt_done, program_outcome};
ghost use Rattle.c_tree.specs.Names.{number_of};
ghost use Rattle.c_meaning.specs.Resolve.{resolved_stmt, resolved_items, names_in, numbered, calls_by};
ghost use Rattle.c_meaning.specs.Resolved.{Serves, actions_done, serves};
ghost use Rattle.c_meaning.specs.Values.{Names, State};

/// Names can be resolved once: the actions of a statement do what it means, and the functions of a program, by their
/// numbers, give what `main` gives.
#[tactic(auto, using(crate::proofs::Means::stmt_means, crate::proofs::Programs::program_means))]
pub fn names_resolved_once()
    ensures statement { (fs : List (List ℕ)) (names : Names) (g : Serves) (s : PlainStmt) (t : State)
        → actions_done g (resolved_stmt fs names s) t ≡ stmt_done (calls_by fs g) names s t }
    ensures program { (items : List PlainItem) (world : World)
        → let routines = resolved_items (layout_of items) [] items in
        program_outcome items world ≡ numbered (serves routines (length routines))
        (number_of (codes "main") (names_in items)) [] world }
{}
