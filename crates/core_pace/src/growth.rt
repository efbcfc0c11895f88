ghost use Rattle.std.specs.Prelude.{◌≡◌, ℕ, ◌+◌, ◌<◌, List, ◌++◌, false};
ghost use Rattle.slot_arbiter.specs.declared.place.Place.{Place};
ghost use Rattle.shared_order.specs.Operation.{loads};
ghost use Rattle.patmos_code.specs.Images.{Parts};
ghost use Rattle.patmos_model.specs.State.{is_running};
ghost use Rattle.patmos_model.specs.Apart.{apart_at, own_operations, sendings_at};
ghost use Rattle.core_pace.specs.Growth.{below, BeginsWith, IsSameTask};

/// How a run apart grows: its transactions after so many cycles are those below that cycle of a longer run; a task that
/// has ended or was stopped stays so, with registers and memories as they were, and makes nothing more; what a task has
/// made, and the transfers that it asked for, stay; and values past those that were read do not matter. A law: it does
/// nothing.
pub fn run_grows()
    ensures accesses { (place : Place) (image : Parts) (input values : List ℕ) (cycles more : ℕ)
        → below cycles (apart_at place image input values (cycles + more)).core.seen.accesses
        ≡ (apart_at place image input values cycles).core.seen.accesses }
    ensures stays { (place : Place) (image : Parts) (input values : List ℕ) (cycles more : ℕ)
        → is_running (apart_at place image input values cycles).core.plain ≡ false
        → IsSameTask (apart_at place image input values cycles).core
        (apart_at place image input values (cycles + more)).core }
    ensures own { (place : Place) (image : Parts) (input values : List ℕ) (cycles more : ℕ)
        → BeginsWith (own_operations place image input values (cycles + more))
        (own_operations place image input values cycles) }
    ensures sendings { (place : Place) (image : Parts) (input values : List ℕ) (cycles more : ℕ)
        → BeginsWith (sendings_at place image input values (cycles + more))
        (sendings_at place image input values cycles) }
    ensures no_more { (place : Place) (image : Parts) (input values : List ℕ) (cycles more : ℕ)
        → is_running (apart_at place image input values cycles).core.plain ≡ false
        → own_operations place image input values (cycles + more) ≡ own_operations place image input values cycles }
    ensures values { (place : Place) (image : Parts) (input values more : List ℕ) (cycles : ℕ)
        → place.core < place.cores
        → apart_at place image input (loads (apart_at place image input values cycles).made ++ more) cycles ≡ record {
          core = (apart_at place image input values cycles).core;
          left = more;
          made = (apart_at place image input values cycles).made;
        } }
{}
