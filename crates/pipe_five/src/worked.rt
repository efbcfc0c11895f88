#![tactic(auto, unfolding(patmos_code::specs::Codes::code, patmos_code::specs::Decoding::bundle_at, patmos_model::specs::Flows::flowed, patmos_model::specs::Checks::fault_of, patmos_model::specs::Bundle::fetched_at, patmos_model::specs::Transaction::transaction))]

ghost use Rattle.std.specs.Prelude.{◌≡◌, ◌∷◌, [], None, Some};
ghost use Rattle.patmos_model.specs.Programs.{seven};
ghost use Rattle.patmos_model.specs.Tasks as tasks;
ghost use Rattle.pipe_five.specs.Steps.{done_below, first_of};
ghost use Rattle.pipe_five.specs.Stages.{stages_of};
ghost use Rattle.pipe_five.specs.Worked.{cycles_of, step_of, register_of, branching, loading, cut_short};

/// A task of five bundles in one function: its words, after the size in word 0, are the places 1 to 5. The fourth step
/// finds the end after the return's last delay slot, and r1 is in the file when its bundle is in write-back.
pub fn worked_steps()
    ensures cycles { cycles_of seven 20 ≡ 16 ∷ 15 ∷ 14 ∷ 13 ∷ 12 ∷ [] }
    ensures first { step_of seven 20 0 ≡ Some 3 ∷ Some 2 ∷ Some 1 ∷ None ∷ None ∷ [] }
    ensures second { step_of seven 20 1 ≡ Some 4 ∷ Some 3 ∷ Some 2 ∷ Some 1 ∷ None ∷ [] }
    ensures third { step_of seven 20 2 ≡ Some 5 ∷ Some 4 ∷ Some 3 ∷ Some 2 ∷ Some 1 ∷ [] }
    ensures fourth { step_of seven 20 3 ≡ None ∷ Some 5 ∷ Some 4 ∷ Some 3 ∷ Some 2 ∷ [] }
    ensures fifth { step_of seven 20 4 ≡ None ∷ None ∷ Some 5 ∷ Some 4 ∷ Some 3 ∷ [] }
    ensures not_yet { register_of seven 20 1 1 ≡ 0 }
    ensures written { register_of seven 20 2 1 ≡ 7 }
{}

/// A branch over one bundle: the target stands in fetch while the first of its two delay slots is executed. A call that
/// misses the method cache: the function's first bundle is decoded from the call's last delay slot on, and executed in
/// cycle 36, with the words that were fetched.
pub fn worked_flows()
    ensures branch { step_of branching 24 0 ≡ Some 3 ∷ Some 2 ∷ Some 1 ∷ None ∷ None ∷ [] }
    ensures in_fetch { step_of branching 24 1 ≡ Some 5 ∷ Some 3 ∷ Some 2 ∷ Some 1 ∷ None ∷ [] }
    ensures in_decode { step_of branching 24 2 ≡ Some 6 ∷ Some 5 ∷ Some 3 ∷ Some 2 ∷ Some 1 ∷ [] }
    ensures in_execute { step_of branching 24 3 ≡ Some 7 ∷ Some 6 ∷ Some 5 ∷ Some 3 ∷ Some 2 ∷ [] }
    ensures call { step_of tasks.calling 40 2 ≡ Some 11 ∷ Some 4 ∷ Some 3 ∷ Some 2 ∷ Some 1 ∷ [] }
    ensures last_slot { step_of tasks.calling 40 3 ≡ Some 12 ∷ Some 11 ∷ Some 4 ∷ Some 3 ∷ Some 2 ∷ [] }
    ensures called { step_of tasks.calling 40 4 ≡ Some 13 ∷ Some 12 ∷ Some 11 ∷ Some 4 ∷ Some 3 ∷ [] }
    ensures cycles { cycles_of tasks.calling 38 ≡ 37 ∷ 36 ∷ 21 ∷ 20 ∷ 19 ∷ 18 ∷ [] }
{}

/// A load from main memory takes the slot at 24. The bundle after it reads r1 before the load's value comes, and
/// the file has the value when the load is in write-back.
pub fn worked_load()
    ensures cycles { cycles_of loading 33 ≡ 32 ∷ 31 ∷ 30 ∷ 19 ∷ 18 ∷ [] }
    ensures before { register_of loading 33 2 1 ≡ 5 }
    ensures loaded { register_of loading 33 3 1 ≡ 0 }
    ensures old_twice { register_of loading 33 4 2 ≡ 10 }
{}

/// The end of a function, a return to no function, and a bundle that is not wholly inside its function: nothing stands
/// ahead of it.
pub fn worked_ends()
    ensures no_return { step_of tasks.no_return 12 0 ≡ None ∷ None ∷ Some 1 ∷ None ∷ None ∷ [] }
    ensures stopped { cycles_of tasks.no_return 12 ≡ 6 ∷ [] }
    ensures to_nowhere { step_of tasks.no_function 20 4 ≡ None ∷ Some 6 ∷ Some 5 ∷ Some 4 ∷ Some 3 ∷ [] }
    ensures nowhere { step_of tasks.no_function 20 5 ≡ None ∷ None ∷ Some 6 ∷ Some 5 ∷ Some 4 ∷ [] }
    ensures cut_short { stages_of cut_short (first_of 1 (done_below cut_short 12))
        ≡ None ∷ None ∷ Some 1 ∷ None ∷ None ∷ [] }
{}
