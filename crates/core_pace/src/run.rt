ghost use Rattle.std.specs.Prelude.{◌≡◌, ℕ, suc, ◌+◌, ◌<◌, ◌≤◌, List, false, true, ◌-◌, slice_index};
ghost use Rattle.shared_order.specs.Apart.{apart};
ghost use Rattle.patmos_code.specs.Images.{Parts};
ghost use Rattle.patmos_model.specs.declared.state.Status.TheVariants.{Running};
ghost use Rattle.patmos_model.specs.declared.state.CoreState.TheVariants.{Done};
ghost use Rattle.patmos_model.specs.Outcome.{state_at};
ghost use Rattle.patmos_model.specs.Site.{Site};
ghost use Rattle.patmos_model.specs.State.{Core, is_running};
ghost use Rattle.patmos_model.specs.Begin.{begun};
ghost use Rattle.patmos_model.specs.Cycle.{turn};
ghost use Rattle.patmos_model.specs.Apart.{followed, site_of};
ghost use Rattle.core_pace.specs.Spans.{IsSlotted};
ghost use Rattle.core_pace.specs.Moment.{core_in, before, Passes};
ghost use Rattle.core_pace.specs.Next.{ComesTo};
ghost use Rattle.core_pace.specs.Growth.{below, IsSameTask};
ghost use Rattle.core_pace.specs.Run.{after_bundles, done_below};

use slot_arbiter::Place;

/// A core at a place has slots. A law: it does nothing.
pub fn place_has_slots(place: &Place)
    ensures { (image : Parts) → IsSlotted (site_of place.now image) }
{}

/// The run by bundles: it passes through the moment after each number of bundles. There the core is about to do the
/// next bundle, or has ended, or was stopped; it goes on in that cycle; and as long as it runs, each of these moments
/// is in a later cycle than the one before. A law: it does nothing.
pub fn run_by_bundles()
    ensures passes { (n core : ℕ) (site : Site) (input values : List ℕ) (count : ℕ) → IsSlotted site
        → Passes n core (begun site input) values (after_bundles n core (begun site input) values count) }
    ensures comes { (n core : ℕ) (site : Site) (input values : List ℕ) (count : ℕ) → IsSlotted site
        → ComesTo (after_bundles n core (begun site input) values count) }
    ensures free { (n core : ℕ) (site : Site) (input values : List ℕ) (count : ℕ) → IsSlotted site
        → (core_in (after_bundles n core (begun site input) values count)).plain.free
        ≡ (after_bundles n core (begun site input) values count).cycle }
    ensures later { (n core : ℕ) (site : Site) (input values : List ℕ) (count : ℕ) → IsSlotted site
        → is_running (core_in (after_bundles n core (begun site input) values (suc count))).plain ≡ true
        → (after_bundles n core (begun site input) values count).cycle
        < (after_bundles n core (begun site input) values (suc count)).cycle }
{}

/// The run apart is the run by bundles, cut at a cycle: its transactions and its bundles are those below the
/// cycle of the moment after more bundles; and after a moment in which the core does not run, it is the task
/// as it stands there, and of one that has ended so is it before that very cycle. The run whose bundles are
/// listed is the run apart. A law: it does nothing.
pub fn run_cut_at_a_cycle()
    ensures run { (n core : ℕ) (x : Core) (values : List ℕ) (cycles : ℕ)
        → (before n core x values cycles).told ≡ followed n core x values cycles }
    ensures accesses { (n core : ℕ) (site : Site) (input values : List ℕ) (count cycles : ℕ) → IsSlotted site
        → cycles ≤ (after_bundles n core (begun site input) values count).cycle
        → (apart turn n core (begun site input) values cycles).core.seen.accesses
        ≡ below cycles (core_in (after_bundles n core (begun site input) values count)).seen.accesses }
    ensures bundles { (n core : ℕ) (site : Site) (input values : List ℕ) (count cycles : ℕ) → IsSlotted site
        → cycles ≤ (after_bundles n core (begun site input) values count).cycle
        → (before n core (begun site input) values cycles).bundles
        ≡ done_below cycles (after_bundles n core (begun site input) values count).bundles }
    ensures ended { (n core : ℕ) (site : Site) (input values : List ℕ) (count cycles : ℕ) → IsSlotted site
        → is_running (core_in (after_bundles n core (begun site input) values count)).plain ≡ false
        → (after_bundles n core (begun site input) values count).cycle < cycles
        → IsSameTask (core_in (after_bundles n core (begun site input) values count))
        (apart turn n core (begun site input) values cycles).core }
    ensures ended_there { (n core : ℕ) (site : Site) (input values : List ℕ) (count : ℕ) → IsSlotted site
        → (core_in (after_bundles n core (begun site input) values count)).plain.status ≡ Running
        → is_running (core_in (after_bundles n core (begun site input) values count)).plain ≡ false
        → IsSameTask (core_in (after_bundles n core (begun site input) values count))
        (apart turn n core (begun site input) values
        (after_bundles n core (begun site input) values count).cycle).core }
{}

/// A task that has ended after so many bundles is done, at the cycle of that moment as a limit and at each later one:
/// with what r1 and r2 hold there, after so many cycles. A law: it does nothing.
pub fn ended_task_is_done()
    ensures { (n core : ℕ) (site : Site) (input values : List ℕ) (count limit : ℕ) → IsSlotted site
        → (core_in (after_bundles n core (begun site input) values count)).plain.status ≡ Running
        → is_running (core_in (after_bundles n core (begun site input) values count)).plain ≡ false
        → (after_bundles n core (begun site input) values count).cycle ≤ limit
        → state_at limit (apart turn n core (begun site input) values limit).core.plain
        ≡ Done (slice_index (core_in (after_bundles n core (begun site input) values count)).plain.regs.general 1)
        (slice_index (core_in (after_bundles n core (begun site input) values count)).plain.regs.general 2)
        ((after_bundles n core (begun site input) values count).cycle - site.start) }
{}
