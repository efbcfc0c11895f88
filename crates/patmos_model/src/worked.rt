#![tactic(auto, unfolding(patmos_code::specs::Codes::code, patmos_code::specs::Decoding::bundle_at, crate::specs::Flows::flowed, crate::specs::Checks::fault_of, crate::specs::Bundle::fetched_at, crate::specs::Transaction::transaction))]

ghost use Rattle.std.specs.Prelude.{◌≡◌, ◌∷◌, ◌++◌, true, false, List, [], map};
ghost use Rattle.slot_arbiter.specs.declared.event.Access.{Access};
ghost use Rattle.patmos_instr.specs.declared.instructions.Op.TheVariants.{Load};
ghost use Rattle.patmos_instr.specs.declared.memories.Mem.TheVariants.{S, M};
ghost use Rattle.patmos_instr.specs.declared.memories.Width.TheVariants.{HalfUnsigned, Byte, Half};
ghost use Rattle.patmos_model.specs.declared.state.CoreState.TheVariants.{Done, Running, Trapped};
ghost use Rattle.patmos_model.specs.declared.trap.Trap.TheVariants as trap;
ghost use Rattle.patmos_model.specs.Programs.{seven, sres, sfree, lw, with_image, half_bundle, with_input};
ghost use Rattle.patmos_sem.specs.Registers.{word_in};
ghost use Rattle.patmos_model.specs.Outcome.{state_at};
ghost use Rattle.patmos_model.specs.Begin.{first_private};
ghost use Rattle.patmos_model.specs.Tasks as tasks;
ghost use Rattle.patmos_model.specs.Alone.{ran, after, outcome, accesses, transactions};

/// A task of five bundles, r1 = 7 and a return: its five words and their size word are fetched in the
/// slots at 0 and 6, and the bundles take the cycles 12 to 16. At a limit of 16 cycles it still runs.
pub fn worked_task()
    ensures done { outcome seven 17 ≡ Done 7 0 17 }
    ensures later { outcome seven 40 ≡ Done 7 0 17 }
    ensures cut_off { outcome seven 16 ≡ Running }
    ensures fills { accesses seven 17 ≡ transactions false (4 ∷ 2 ∷ []) 0 }
{}

/// Flows and delays: a branch back with two delay slots; the register of a load one bundle later; a
/// load of the last delay slot; a call that misses the method cache and a return that hits it.
pub fn worked_flows()
    ensures doubling { outcome tasks.doubling 50 ≡ Done 12 0 34 }
    ensures load_delay { outcome tasks.load_delay 50 ≡ Done 5 5 27 }
    ensures load_at_end { outcome tasks.load_at_end 50 ≡ Done 6 0 19 }
    ensures calling { outcome tasks.calling 50 ≡ Done 9 0 46 }
    ensures fills { accesses tasks.calling 50
        ≡ transactions false (4 ∷ 4 ∷ 2 ∷ []) 0 ++ transactions false (4 ∷ 2 ∷ []) 24 }
{}

/// The stack and parts of words: 32 words spilled in eight slots; a spilled word that comes back; a byte
/// stored into a word, and a half without and with its sign, and the byte, loaded from it.
pub fn worked_memory()
    ensures spilling { outcome tasks.spilling 79 ≡ Done 5 0 79 }
    ensures spills { accesses tasks.spilling 79 ≡ transactions false (4 ∷ 4 ∷ 2 ∷ []) 0
        ++ transactions true (4 ∷ 4 ∷ 4 ∷ 4 ∷ 4 ∷ 4 ∷ 4 ∷ 4 ∷ []) 24 }
    ensures refilling { outcome tasks.refilling 99 ≡ Done 5 0 47 }
    ensures own_store { outcome tasks.own_store 60 ≡ Done 5 0 42 }
    ensures store_at_end { outcome tasks.store_at_end 60 ≡ Done 5 0 24 }
    ensures initial { first_private with_input (7 ∷ 8 ∷ []) 4 ≡ 1 }
    ensures input { first_private with_input (7 ∷ 8 ∷ []) 5 ≡ 7 }
    ensures no_room { first_private with_input (7 ∷ 8 ∷ []) 6 ≡ 0 }
    ensures half_unsigned { outcome (tasks.narrow (Load M HalfUnsigned 1 2 0)) 60 ≡ Done 4607 0x1000000 58 }
    ensures byte { outcome (tasks.narrow (Load M Byte 1 2 1)) 60 ≡ Done 0xffffffff 0x1000000 58 }
    ensures half { outcome (tasks.narrow (Load M Half 1 2 1)) 60 ≡ Done 13124 0x1000000 58 }
{}

/// Each kind of trap with its cycle; checks in their order; a trap that leaves no effect of its bundle; and
/// a load that would trap if its guard were true. A trap at the limit is not made.
pub fn worked_traps()
    ensures no_memory { outcome tasks.no_memory 30 ≡ Trapped trap.Access 7 }
    ensures odd_word { outcome tasks.odd_word 30 ≡ Trapped trap.Align 7 }
    ensures odd_half { outcome tasks.odd_half 30 ≡ Trapped trap.Align 7 }
    ensures no_bundle { outcome tasks.no_bundle 30 ≡ Trapped trap.Decode 26 }
    ensures no_return { outcome tasks.no_return 30 ≡ Trapped trap.Flow 7 }
    ensures no_function { outcome tasks.no_function 30 ≡ Trapped trap.Flow 18 }
    ensures two_flows { outcome tasks.two_flows 30 ≡ Trapped trap.Flow 7 }
    ensures half_bundle { state_at 30 (ran (with_image (0 ∷ []) 1 0 0 half_bundle) 30).plain ≡ Trapped trap.Flow 6 }
    ensures many_words { outcome ((sres 129 ∷ []) ∷ []) 30 ≡ Trapped trap.Stack 6 }
    ensures no_words { outcome ((sfree 1 ∷ []) ∷ []) 30 ≡ Trapped trap.Stack 6 }
    ensures not_held { outcome ((lw S 1 0 0 ∷ []) ∷ []) 30 ≡ Trapped trap.Stack 6 }
    ensures own_port { outcome tasks.own_port 30 ≡ Trapped trap.Interface 7 }
    ensures guarded_off { outcome tasks.guarded_off 30 ≡ Done 0 2 18 }
    ensures in_order { outcome tasks.odd_nowhere 30 ≡ Trapped trap.Align 7 }
    ensures no_effect { word_in (after tasks.stopped_pair 30).plain.regs 1 ≡ 0 }
    ensures no_step { (after tasks.stopped_pair 30).plain.offset ≡ 2 }
    ensures at_limit { outcome tasks.no_memory 7 ≡ Running }
{}
