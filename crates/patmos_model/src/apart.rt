ghost use Rattle.std.specs.Prelude.{◌≡◌, ℕ, List};
ghost use Rattle.shared_order.specs.Apart.{apart};
ghost use Rattle.patmos_model.specs.State.{Core};
ghost use Rattle.patmos_model.specs.Cycle.{turn};
ghost use Rattle.patmos_model.specs.Apart.{followed};

/// Following a run apart, so as to tell the task's own operations from those of its interface, is
/// the run apart. A law: it does nothing.
pub fn run_apart_is_followed()
    ensures { (n core : ℕ) (x : Core) (values : List ℕ) (t : ℕ)
        → (followed n core x values t).run ≡ apart turn n core x values t }
{}
