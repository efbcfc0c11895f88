ghost use Rattle.std.specs.Prelude.{◌≡◌, ℕ, suc, false};
ghost use Rattle.core_pace.specs.Moment.{Moment, core_in};
ghost use Rattle.core_pace.specs.Next.{IsAboutTo, is_due_flow, bundled, waited, next_cycle, next};
ghost use Rattle.core_pace.specs.Growth.{IsSameTask};

/// Between two bundles, in the cycles in which the task does nothing, nothing changes but the interface: the core is
/// the same task, and neither operations of its own nor bundles are added. A law: it does nothing.
pub fn interface_alone_goes_on()
    ensures core { (n core cycles : ℕ) (m : Moment) → IsSameTask (core_in m) (core_in (waited n core cycles m)) }
    ensures operations { (n core cycles : ℕ) (m : Moment) → (waited n core cycles m).told.own ≡ m.told.own }
    ensures bundles { (n core cycles : ℕ) (m : Moment) → (waited n core cycles m).bundles ≡ m.bundles }
{}

/// A bundle that moves nothing to or from main memory, and after which no flow is due: the next moment is in the next
/// cycle, with nothing done but the bundle. A law: it does nothing.
pub fn quick_bundle_takes_a_cycle()
    ensures { (n core : ℕ) (m : Moment) → (core_in (bundled n core m)).plain.transfer.words ≡ 0
        → (core_in (bundled n core m)).plain.free ≡ suc m.cycle
        → is_due_flow (core_in (bundled n core m)).plain.flow ≡ false
        → next n core m ≡ next_cycle n core (bundled n core m) }
{}
