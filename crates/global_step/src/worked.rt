#![tactic(auto, unfolding(patmos_code::specs::Codes::code, patmos_code::specs::Decoding::bundle_at, patmos_model::specs::Flows::flowed, patmos_model::specs::Checks::fault_of, patmos_model::specs::Bundle::fetched_at, patmos_model::specs::Transaction::transaction))]

ghost use Rattle.std.specs.Prelude.{◌≡◌, ◌∷◌, [], false};
ghost use Rattle.shared_order.specs.Operation.{load, store};
ghost use Rattle.patmos_instr.specs.declared.memories.Mem.TheVariants.{C, L, M};
ghost use Rattle.patmos_instr.specs.declared.memories.StoreWidth.TheVariants.{Byte};
ghost use Rattle.patmos_instr.specs.declared.instructions.Op.TheVariants.{Store};
ghost use Rattle.patmos_model.specs.declared.state.CoreState.TheVariants.{Idle, Done, Trapped};
ghost use Rattle.patmos_model.specs.declared.trap.Trap.TheVariants as trap;
ghost use Rattle.patmos_model.specs.Programs.{alone, sw};
ghost use Rattle.global_step.specs.Pairs as pairs;
ghost use Rattle.global_step.specs.Pairs.{ran, outcome};

/// One task on a core among others: core 2 of 4 fetches its words in the slots at 12 and 36. Under the
/// slot table 0, 1, 0, 2, core 0 fetches at 0 and 12 and core 2 at 18 and 42.
pub fn worked_platform()
    ensures third { outcome 4 pairs.third_of_four 60 2 ≡ Done 7 0 47 }
    ensures others { outcome 4 pairs.third_of_four 60 3 ≡ Idle }
    ensures fills { ((ran 4 pairs.third_of_four 60).cores 2).seen.accesses ≡
        record { cycle = 12; write = false; words = 4 } ∷ record { cycle = 36; write = false; words = 2 } ∷ [] }
    ensures first_by_table { outcome 3 pairs.by_table 60 0 ≡ Done 7 0 23 }
    ensures last_by_table { outcome 3 pairs.by_table 60 2 ≡ Done 7 0 53 }
{}

/// Two cores and a word of shared memory. A load before the store has 0 and one after it 5; from the
/// data cache the second load still has 0. Bytes that two cores store in one word both stay.
pub fn worked_shared()
    ensures storing { outcome 2 (pairs.sharing M) 70 0 ≡ Done 0 0x1000000 46 }
    ensures loading { outcome 2 (pairs.sharing M) 70 1 ≡ Done 5 0x1000000 64 }
    ensures operations { (ran 2 (pairs.sharing M) 70).made ≡ load 171 0 0 ∷ store 194 0 5 ∷ load 219 0 5 ∷ [] }
    ensures stale { outcome 2 (pairs.sharing C) 70 1 ≡ Done 0 0x1000000 54 }
    ensures bytes_first { outcome 2 pairs.bytes_of_two 70 0 ≡ Done 0 0x1000000 46 }
    ensures bytes_second { outcome 2 pairs.bytes_of_two 70 1 ≡ Done 287440896 0x1000000 64 }
{}

/// The network between two cores. A second start while words are left is dropped; the words go out in
/// the windows at 36 and 39. A transfer that is started in a window goes out in the next one, and what
/// comes in a cycle is loaded in that cycle. A count of 0 and a byte in a register stop the core.
pub fn worked_network()
    ensures starting { outcome 2 pairs.starting_twice 50 0 ≡ Done 0 0x20010 40 }
    ensures dropped { ((ran 2 pairs.starting_twice 50).cores 0).plain.interface.dropped ≡ 1 }
    ensures sent { (ran 2 pairs.starting_twice 44).made ≡
        load 146 4096 0 ∷ load 146 4097 0 ∷ load 158 4098 0 ∷ load 158 4099 0 ∷ [] }
    ensures sending { (ran 2 pairs.sending 70).made ≡
        store 182 4096 1 ∷ load 206 4096 1 ∷ store 240 4608 1 ∷ load 243 4608 1 ∷ [] }
    ensures received { outcome 2 pairs.sending 70 1 ≡ Done 1 0x10000 65 }
    ensures no_words { outcome 2 (pairs.misused (sw L 2 2 0)) 20 0 ≡ Trapped trap.Interface 7 }
    ensures byte { outcome 2 (pairs.misused (alone (Store L Byte 2 0 0))) 20 0 ≡ Trapped trap.Interface 7 }
{}
