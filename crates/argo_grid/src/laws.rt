ghost use Rattle.std.specs.Prelude.{◌≡◌};
ghost use Rattle.argo_grid.specs.declared.job.TheConstants.{MOST_ENTRIES, MOST_PERIOD};

/// The limits of a schedule, in numbers: slots of its period, and entries. A law: it does nothing.
pub fn limits()
    ensures period { MOST_PERIOD ≡ 4096 }
    ensures entries { MOST_ENTRIES ≡ 4096 }
{}
