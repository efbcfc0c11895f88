ghost use Rattle.std.specs.Prelude.{◌≡◌, ℕ, ◌+◌, ◌*◌, ◌<◌, ◌≤◌, List, [], false, length};
ghost use Rattle.slot_arbiter.specs.declared.place.Place.{Place};
ghost use Rattle.patmos_code.specs.Images.{Parts};
ghost use Rattle.patmos_model.specs.State.{is_running};
ghost use Rattle.patmos_model.specs.Apart.{apart_at, site_of};
ghost use Rattle.core_pace.specs.Growth.{below};
ghost use Rattle.core_pace.specs.Times.{times};
ghost use Rattle.shared_order.specs.Apart.{apart};
ghost use Rattle.patmos_model.specs.Site.{Site};
ghost use Rattle.patmos_model.specs.Begin.{begun};
ghost use Rattle.patmos_model.specs.Cycle.{turn};
ghost use Rattle.core_pace.specs.Spans.{IsSlotted};
ghost use Rattle.core_pace.specs.Moment.{core_in};
ghost use Rattle.core_pace.specs.Pace.{Event, pace_of, clock};
ghost use Rattle.core_pace.specs.Run.{starting, after_bundles, past};
ghost use Rattle.core_pace.specs.Bound.{most_in_slot, bundles_among};

/// A run keeps the clock: after each number of bundles, the cycle, the transactions and all else that times depend on
/// are those that the clock makes of the events until then; and events take at most one cycle for each bundle and less
/// than a gap and a slot for each transaction. A law: it does nothing.
pub fn run_keeps_pace()
    ensures pace { (n core : ℕ) (site : Site) (input values : List ℕ) (count : ℕ) → IsSlotted site
        → pace_of (core_in (after_bundles n core (begun site input) values count))
        ≡ clock site (past n core (begun site input) values count) (starting site) }
    ensures cycle { (n core : ℕ) (site : Site) (input values : List ℕ) (count : ℕ) → IsSlotted site
        → (after_bundles n core (begun site input) values count).cycle
        ≡ (clock site (past n core (begun site input) values count) (starting site)).free }
    ensures bound { (site : Site) (events : List Event) → IsSlotted site
        → (clock site events (starting site)).free
        ≤ site.start + bundles_among events
        + most_in_slot site * length (clock site events (starting site)).accesses }
{}

/// Times depend on events alone: two runs at one place that have the same events after so many bundles, whatever their
/// inputs and the values that they read, have come to the same cycle, and have the same transactions in each cycle
/// until then. A law: it does nothing.
pub fn times_hang_on_events()
    ensures cycle { (n core : ℕ) (site : Site) (input values input' values' : List ℕ) (count : ℕ) → IsSlotted site
        → past n core (begun site input) values count ≡ past n core (begun site input') values' count
        → (after_bundles n core (begun site input) values count).cycle
        ≡ (after_bundles n core (begun site input') values' count).cycle }
    ensures accesses { (n core : ℕ) (site : Site) (input values input' values' : List ℕ) (count cycles : ℕ)
        → IsSlotted site
        → past n core (begun site input) values count ≡ past n core (begun site input') values' count
        → cycles ≤ (after_bundles n core (begun site input) values count).cycle
        → (apart turn n core (begun site input) values cycles).core.seen.accesses
        ≡ (apart turn n core (begun site input') values' cycles).core.seen.accesses }
{}

/// A task that does the same whatever is put in and read keeps its times: where the run with an empty input and no
/// values read runs no more after so many bundles, each run that has had the same events and runs no more has those
/// transactions below every cycle, and that end. A law: it does nothing.
pub fn ended_run_has_its_times()
    ensures accesses { (place : Place) (image : Parts) (input values : List ℕ) (count cycles limit : ℕ)
        → IsSlotted (site_of place image)
        → let run = begun (site_of place image) input in
        let plain_run = begun (site_of place image) [] in
        past place.cores place.core run values count ≡ past place.cores place.core plain_run [] count
        → is_running (core_in (after_bundles place.cores place.core run values count)).plain ≡ false
        → is_running (core_in (after_bundles place.cores place.core plain_run [] count)).plain ≡ false
        → (after_bundles place.cores place.core plain_run [] count).cycle < limit → cycles ≤ limit
        → (apart_at place image input values cycles).core.seen.accesses
        ≡ below cycles (times place image limit).accesses }
    ensures end { (place : Place) (image : Parts) (input values : List ℕ) (count limit : ℕ)
        → IsSlotted (site_of place image)
        → let run = begun (site_of place image) input in
        let plain_run = begun (site_of place image) [] in
        past place.cores place.core run values count ≡ past place.cores place.core plain_run [] count
        → is_running (core_in (after_bundles place.cores place.core run values count)).plain ≡ false
        → is_running (core_in (after_bundles place.cores place.core plain_run [] count)).plain ≡ false
        → (after_bundles place.cores place.core plain_run [] count).cycle < limit
        → (apart_at place image input values limit).core.plain.free ≡ (times place image limit).end }
{}
