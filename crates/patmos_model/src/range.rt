ghost use Rattle.std.specs.Prelude.{ℕ, List};
ghost use Rattle.std.specs.List.{AllByRecursion as Each};
ghost use Rattle.shared_order.specs.Fit.{KeepsRanges};
ghost use Rattle.patmos_model.specs.Site.{Site};
ghost use Rattle.patmos_model.specs.Begin.{begun, idle};
ghost use Rattle.patmos_model.specs.Cycle.{turn};
ghost use Rattle.patmos_model.specs.Range.{IsWord, SiteFits, InRange};

/// A core in range names only words of the board, stores only words of 32 bits, and stays in range; and a
/// core whose code and input are words begins in range. A law: it does nothing.
pub fn core_keeps_ranges()
    ensures turn { (words : ℕ) → KeepsRanges turn (InRange words) words }
    ensures begun { (words : ℕ) (site : Site) (input : List ℕ) → SiteFits words site → Each IsWord site.image.initial
        → Each IsWord input → InRange words (begun site input) }
    ensures idle { (words : ℕ) (site : Site) → SiteFits words site → InRange words (idle site) }
{}
