#![tactic(auto, unfolding(patmos_code::specs::Codes::code, patmos_code::specs::Decoding::bundle_at, patmos_model::specs::Flows::flowed, patmos_model::specs::Checks::fault_of, patmos_model::specs::Bundle::fetched_at, patmos_model::specs::Transaction::transaction))]

ghost use Rattle.std.specs.Prelude.{◌≡◌, ◌∷◌, ◌++◌, [], true, false, map};
ghost use Rattle.slot_arbiter.specs.Table.{in_turn};
ghost use Rattle.patmos_instr.specs.declared.functions.StackFunc.TheVariants.{Sres, Sens, Sfree};
ghost use Rattle.patmos_model.specs.Programs.{seven};
ghost use Rattle.patmos_model.specs.Tasks as tasks;
ghost use Rattle.core_pace.specs.Starts.{start_from, gap_in};
ghost use Rattle.core_pace.specs.Pace.{quick, load, cached, store, stack, came, is_loaded};
ghost use Rattle.core_pace.specs.Growth.{below};
ghost use Rattle.core_pace.specs.Times.{times_in};
ghost use Rattle.core_pace.specs.Stores.{is_sent_to};
ghost use Rattle.core_pace.specs.Worked.{bundled_so, cycles_of, offsets_of, events_of, told, method, run_of, told_of, fives, brought_back, storing, operations_of};
ghost use Rattle.stack_cache.specs.Stack.{spilled, missing, freed, reserved};
ghost use Rattle.patmos_model.specs.declared.state.CoreState.TheVariants.{Done};
ghost use Rattle.patmos_model.specs.Outcome.{state_at};
ghost use Rattle.patmos_model.specs.State.{is_running};
ghost use Rattle.patmos_model.specs.Alone.{transactions};

/// Slot starts in turn and by a table: core 2 of four cores, with slots of six cycles, has a slot each 24 cycles; a
/// core with two of four slots waits 12 cycles at most.
pub fn worked_starts()
    ensures at_start { start_from (in_turn 4) 6 2 0 ≡ 12 }
    ensures here { start_from (in_turn 4) 6 2 12 ≡ 12 }
    ensures after { start_from (in_turn 4) 6 2 13 ≡ 36 }
    ensures gap { gap_in (in_turn 4) 6 2 ≡ 24 }
    ensures by_table { start_from (0 ∷ 1 ∷ 0 ∷ 2 ∷ []) 6 0 13 ≡ 24 }
    ensures table_gap { gap_in (0 ∷ 0 ∷ 1 ∷ []) 6 0 ≡ 12 }
    ensures other_gap { gap_in (0 ∷ 0 ∷ 1 ∷ []) 6 1 ≡ 18 }
{}

/// The bundles of a task with the cycles in which they are done: five bundles at 12 to 16; a call that misses and a
/// return that hits, each with three delay slots; two bundles with transactions among others.
pub fn worked_bundles()
    ensures seven { cycles_of seven 5 ≡ 12 ∷ 13 ∷ 14 ∷ 15 ∷ 16 ∷ [] }
    ensures ends { (bundled_so seven 5).cycle ≡ 17 }
    ensures calling { cycles_of tasks.calling 12 ≡ 18 ∷ 19 ∷ 20 ∷ 21 ∷ 36 ∷ 37 ∷ 38 ∷ 39 ∷ 40 ∷ 41 ∷ 42 ∷ 43 ∷ [] }
    ensures places { offsets_of tasks.calling 12 ≡ 0 ∷ 1 ∷ 2 ∷ 3 ∷ 0 ∷ 1 ∷ 2 ∷ 3 ∷ 4 ∷ 4 ∷ 5 ∷ 6 ∷ [] }
    ensures stopped { cycles_of tasks.no_return 3 ≡ 6 ∷ [] }
    ensures no_bundle { cycles_of tasks.no_bundle 12 ≡ 18 ∷ 19 ∷ 20 ∷ 21 ∷ 22 ∷ 23 ∷ 24 ∷ 25 ∷ [] }
    ensures spilling { cycles_of tasks.spilling 9 ≡ 18 ∷ 19 ∷ 72 ∷ 73 ∷ 74 ∷ 75 ∷ 76 ∷ 77 ∷ 78 ∷ [] }
{}

/// The events of tasks, and what the clock makes of events: a function that was fetched is a hit; a reserve of 160
/// words writes 32; a cached load of a line that is present moves nothing, and of one that is not four words.
pub fn worked_events()
    ensures calling { events_of tasks.calling 9
        ≡ came (method 1 9) ∷ quick ∷ quick ∷ quick ∷ quick ∷ came (method 11 5) ∷ quick ∷ quick ∷ quick ∷ quick ∷ quick
        ∷ came (method 1 9) ∷ [] }
    ensures spilling { events_of tasks.spilling 5
        ≡ came (method 1 9) ∷ stack Sres 100 ∷ stack Sres 60 ∷ quick ∷ quick ∷ quick ∷ [] }
    ensures own_store { events_of tasks.own_store 5
        ≡ came (method 1 9) ∷ cached 16 ∷ quick ∷ store ∷ quick ∷ cached 16 ∷ [] }
    ensures fetched { (told (came (method 1 9) ∷ [])).free ≡ 18 }
    ensures hit { (told (came (method 1 9) ∷ came (method 1 9) ∷ [])).free ≡ 18 }
    ensures spilled { (told (stack Sres 100 ∷ stack Sres 60 ∷ [])).free ≡ 54 }
    ensures spills { (told (stack Sres 100 ∷ stack Sres 60 ∷ [])).accesses
        ≡ transactions true (4 ∷ 4 ∷ 4 ∷ 4 ∷ 4 ∷ 4 ∷ 4 ∷ 4 ∷ []) 6 }
    ensures refilled { (told (stack Sres 130 ∷ stack Sfree 2 ∷ stack Sens 128 ∷ [])).accesses
        ≡ transactions true (2 ∷ []) 0 ++ transactions false (2 ∷ []) 12 }
    ensures line { (told (cached 16 ∷ cached 20 ∷ cached 1040 ∷ cached 16 ∷ [])).accesses
        ≡ transactions false (4 ∷ []) 0 ++ transactions false (4 ∷ 4 ∷ []) 12 }
    ensures loads { (told (load ∷ quick ∷ store ∷ [])).free ≡ 18 }
{}

/// A task as its run grows: it has two transactions, one of which is below cycle 6; it is done at 17 with 7, and stays
/// so; its times; and of the values that it is told it takes none.
pub fn worked_growth()
    ensures whole { (run_of seven 20).seen.accesses
        ≡ record { cycle = 0; write = false; words = 4 } ∷ record { cycle = 6; write = false; words = 2 } ∷ [] }
    ensures cut { (run_of seven 6).seen.accesses ≡ transactions false (4 ∷ []) 0 }
    ensures below { below 6 (run_of seven 20).seen.accesses ≡ transactions false (4 ∷ []) 0 }
    ensures running { is_running (run_of seven 16).plain ≡ true }
    ensures stays { is_running (run_of seven 20).plain ≡ false }
    ensures done { state_at 20 (run_of seven 20).plain ≡ Done 7 0 17 }
    ensures end { (times_in (run_of seven 20)).end ≡ 17 }
    ensures untold { (told_of seven (9 ∷ []) 20).left ≡ 9 ∷ [] }
{}

/// A stack that fills the cache: a reserve of two words moves two away, and an ensure brings them back.
pub fn worked_stack()
    ensures spills { spilled 2 (fives 128) ≡ 5 ∷ 5 ∷ [] }
    ensures lacks { missing 128 (freed 2 (reserved 2 (fives 128))) ≡ 2 }
    ensures back { brought_back 2 (fives 128) ≡ fives 128 }
{}

/// What a task does besides: it stores 5 into a word that all cores share, in its slot at cycle 24; a line is present
/// as long as no other took its place; and one transfer asks for packets to its target alone.
pub fn worked_words()
    ensures stored { operations_of storing 40
        ≡ record { stamp = 49; act = record { word = 0; write = true; value = 5 } } ∷ [] }
    ensures present { is_loaded 20 (16 ∷ []) ≡ true }
    ensures replaced { is_loaded 16 (1040 ∷ 16 ∷ []) ≡ false }
    ensures asked { is_sent_to (record { target = 2; from = 0; to = 0; count = 1 } ∷ []) 2 ≡ true }
    ensures unasked { is_sent_to (record { target = 2; from = 0; to = 0; count = 1 } ∷ []) 1 ≡ false }
{}
