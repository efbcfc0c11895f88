ghost use Rattle.std.specs.Prelude.{◌≡◌, ℕ, ◌∷◌, []};
ghost use Rattle.patmos_model.specs.Outcome.{state_at};
ghost use Rattle.global_step.specs.declared.loaded.LoadedCore.{LoadedCore};
ghost use Rattle.global_step.specs.Loaded.{Machine};
ghost use Rattle.global_step.specs.Machine.{machine, first_core, outcome_of};
ghost use Rattle.pipe_five.specs.Steps.{core_before, words_before};

/// The machine of one core is the machine of all cores that is loaded with this core alone, the words that cores share
/// included. A law: it does nothing.
#[tactic(auto, using(crate::proofs::Only::only_core, crate::proofs::Only::only_words, crate::proofs::Only::only_outcome))]
pub fn only_core_is_the_machine()
    ensures core { (m : Machine) (c : LoadedCore) (t : ℕ) → m.cores ≡ c ∷ []
        → (machine m t).cores 0 ≡ core_before (first_core c) t }
    ensures words { (m : Machine) (c : LoadedCore) (t word : ℕ) → m.cores ≡ c ∷ []
        → (machine m t).words word ≡ words_before (first_core c) t word }
    ensures outcome { (m : Machine) (c : LoadedCore) → m.cores ≡ c ∷ []
        → outcome_of m 0 ≡ state_at m.limit (core_before (first_core c) m.limit).plain }
{}
