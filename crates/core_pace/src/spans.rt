ghost use Rattle.std.specs.Prelude.{◌≡◌, ℕ, List};
ghost use Rattle.patmos_model.specs.State.{Core};
ghost use Rattle.core_pace.specs.Moment.{Moment, core_in, Passes};
ghost use Rattle.core_pace.specs.Next.{IsDue, all_moved};
ghost use Rattle.core_pace.specs.Pace.{pace_of, carried};

/// A transfer in time: a core that has words to move moves them, cycle after cycle, in the transactions and up to the
/// cycle that are told by its place, the cycle and the transfer alone. A law: it does nothing.
pub fn transfer_in_time()
    ensures passes { (n core : ℕ) (x : Core) (values : List ℕ) (m : Moment) → IsDue m
        → Passes n core x values m → Passes n core x values (all_moved n core m) }
    ensures free { (n core : ℕ) (x : Core) (values : List ℕ) (m : Moment) → IsDue m
        → Passes n core x values m → (all_moved n core m).cycle ≡ (core_in (all_moved n core m)).plain.free }
    ensures pace { (n core : ℕ) (x : Core) (values : List ℕ) (m : Moment) → IsDue m
        → Passes n core x values m
        → pace_of (core_in (all_moved n core m)) ≡ carried (core_in m).plain.site (pace_of (core_in m)) }
{}
