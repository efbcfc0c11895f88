ghost use Rattle.std.specs.Prelude.{◌≡◌, ℕ, List, ◌++◌};
ghost use Rattle.patmos_model.specs.State.{Core};
ghost use Rattle.core_pace.specs.Moment.{Moment, core_in, fetched_in, Passes};
ghost use Rattle.core_pace.specs.Next.{IsAtBundle, ComesTo, next};
ghost use Rattle.core_pace.specs.Pace.{pace_of, clock, bundle_event, events_in};
ghost use Rattle.core_pace.specs.Run.{done_with};

/// From bundle to bundle: a run in which the core is about to do a bundle passes through the next
/// moment that is told of it. There the core is about to do the next bundle, or has ended, or was
/// stopped; the bundle was done, unless a check stopped it; and what the core's times depend on is what
/// the bundle's events made of it. A law: it does nothing.
pub fn bundle_by_bundle()
    ensures passes { (n core : ℕ) (x : Core) (values : List ℕ) (m : Moment) → IsAtBundle n core x values m
        → Passes n core x values (next n core m) }
    ensures comes { (n core : ℕ) (x : Core) (values : List ℕ) (m : Moment) → IsAtBundle n core x values m
        → ComesTo (next n core m) }
    ensures free { (n core : ℕ) (x : Core) (values : List ℕ) (m : Moment) → IsAtBundle n core x values m
        → (core_in (next n core m)).plain.free ≡ (next n core m).cycle }
    ensures site { (n core : ℕ) (x : Core) (values : List ℕ) (m : Moment) → IsAtBundle n core x values m
        → (core_in (next n core m)).plain.site ≡ (core_in m).plain.site }
    ensures bundles { (n core : ℕ) (x : Core) (values : List ℕ) (m : Moment) → IsAtBundle n core x values m
        → (next n core m).bundles
        ≡ m.bundles ++ done_with (bundle_event (fetched_in (core_in m).plain) (core_in m).plain) m }
    ensures pace { (n core : ℕ) (x : Core) (values : List ℕ) (m : Moment) → IsAtBundle n core x values m
        → pace_of (core_in (next n core m))
        ≡ clock (core_in m).plain.site (events_in n core m) (pace_of (core_in m)) }
{}
