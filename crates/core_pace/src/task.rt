ghost use Rattle.std.specs.Prelude.{◌≡◌, ℕ, List, ◌++◌};
ghost use Rattle.shared_order.specs.Operation.{loads};
ghost use Rattle.patmos_model.specs.State.{Core};
ghost use Rattle.patmos_model.specs.Apart.{followed};
ghost use Rattle.core_pace.specs.Task.{unsent, task_apart};

/// The task apart from its interface: told no more than what its own loads gave, the task by itself does what it does
/// in the run apart, whatever was read there for packets. So its own loads determine its operations and all of the
/// core but the packets under way. A law: it does nothing.
pub fn task_stands_apart()
    ensures apart { (n core : ℕ) (x : Core) (values : List ℕ) (cycles : ℕ) (more : List ℕ)
        → task_apart n core x (loads (followed n core x values cycles).own ++ more) cycles ≡ record {
          core = unsent (followed n core x values cycles).run.core;
          left = more;
          made = (followed n core x values cycles).own;
        } }
    ensures core { (n core : ℕ) (x : Core) (values values' : List ℕ) (cycles : ℕ)
        → loads (followed n core x values cycles).own ≡ loads (followed n core x values' cycles).own
        → unsent (followed n core x values cycles).run.core ≡ unsent (followed n core x values' cycles).run.core }
    ensures operations { (n core : ℕ) (x : Core) (values values' : List ℕ) (cycles : ℕ)
        → loads (followed n core x values cycles).own ≡ loads (followed n core x values' cycles).own
        → (followed n core x values cycles).own ≡ (followed n core x values' cycles).own }
{}
