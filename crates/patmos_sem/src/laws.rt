ghost use Rattle.std.specs.Prelude.{◌≡◌, ℕ, ◌^◌, ◌-◌, ◌<◌, List, [], ◌∷◌, ◌++◌, length};
ghost use Rattle.patmos_instr.specs.Bundles.{PlainBundle};
ghost use Rattle.patmos_instr.specs.declared.memories.Width.TheVariants as load;
ghost use Rattle.patmos_instr.specs.declared.memories.StoreWidth.TheVariants as store;
ghost use Rattle.patmos_sem.specs.Registers.{Registers, FitsRegisters, at_start, word_in, pred_in, preds_number};
ghost use Rattle.patmos_sem.specs.declared.writes.Write.{Write};
ghost use Rattle.patmos_sem.specs.Writes.{register_after, pred_after, after_writes};
ghost use Rattle.patmos_sem.specs.Bundles.{all_writes, after_bundle, arrived};
ghost use Rattle.patmos_sem.specs.Narrow.{picked, merged};
ghost use Rattle.patmos_sem.specs.Worked.{both, add_short, s0_from};

/// What the definitions say of one register after a bundle: it holds what the last of the bundle's writes
/// that name it gives, and else its old value, where a pending value comes before the first slot's write
/// and that before the second's. Register 0 stays 0, and predicate 0 true. Writes after writes are the
/// writes of both, so a product or a load's value can as well be read as written at once.
pub fn after_bundle_by_register()
    ensures general { (st ss : ℕ) (b : PlainBundle) (regs : Registers) (r : ℕ) → r < length regs.general
        → word_in (after_bundle st ss b regs) r ≡ register_after (all_writes st ss b regs) r (word_in regs r) }
    ensures preds { (st ss : ℕ) (b : PlainBundle) (regs : Registers) (p : ℕ) → p < length regs.preds
        → pred_in (after_bundle st ss b regs) p ≡ pred_after (all_writes st ss b regs) p (pred_in regs p) }
    ensures joined { (us vs : List Write) (regs : Registers)
        → after_writes vs (after_writes us regs) ≡ after_writes (us ++ vs) regs }
    ensures files { (st ss : ℕ) (b : PlainBundle) (regs : Registers) → FitsRegisters regs
        → FitsRegisters (after_bundle st ss b regs) }
{}

/// Worked values of the definitions.
pub fn worked_values()
    ensures second_wins { word_in (after_bundle 0 0 (both (add_short 6 0 1) (add_short 6 0 2)) at_start) 6 ≡ 2 }
    ensures own_write_wins { word_in
        (after_bundle 0 0 (both (add_short 6 0 1) (add_short 0 0 0)) (arrived 6 9 at_start)) 6 ≡ 1 }
    ensures pending_comes { word_in
        (after_bundle 0 0 (both (add_short 7 6 1) (add_short 0 0 0)) (arrived 6 9 at_start)) 6 ≡ 9 }
    ensures pending_is_late { word_in
        (after_bundle 0 0 (both (add_short 7 6 1) (add_short 0 0 0)) (arrived 6 9 at_start)) 7 ≡ 1 }
    ensures always_true { preds_number
        (after_bundle 0 0 (both (s0_from 6) (add_short 0 0 0))
        (record at_start { general = 0 ∷ 0 ∷ 0 ∷ 0 ∷ 0 ∷ 0 ∷ 388 ∷ [] })).preds ≡ 133 }
    ensures unsigned_half { picked load.HalfUnsigned 0 0x11ff_3344 ≡ 4607 }
    ensures signed_half { picked load.Half 2 0x11ff_3344 ≡ 13124 }
    ensures signed_byte { picked load.Byte 1 0x11ff_3344 ≡ 2 ^ 32 - 1 }
    ensures byte_merged { merged store.Byte 1 0x1122_3344 255 ≡ 0x11ff_3344 }
    ensures half_merged { merged store.Half 2 0x1122_3344 0xabcd_efff ≡ 0x1122_efff }
{}
