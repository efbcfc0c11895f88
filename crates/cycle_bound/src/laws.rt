ghost use Rattle.std.specs.Prelude.{◌≡◌, ◌^◌};
ghost use Rattle.cycle_bound.specs.declared.bundles.TheConstants.{LEAST_EACH, MOST_EACH};
ghost use Rattle.cycle_bound.specs.declared.held.TheConstants.{MOST_BOUND};

/// The greatest bound, and the cycles that a transaction takes at least and at
/// most, in numbers. A law: it does nothing.
pub fn limits()
    ensures bound { MOST_BOUND ≡ 2 ^ 62 }
    ensures least { LEAST_EACH ≡ 6 }
    ensures most { MOST_EACH ≡ 4160 }
{}
