//! Laws of the trees that are made.
ghost use Rattle.std.specs.Prelude.{◌≡◌, ◌≢◌, ◌≤◌, ℕ, List, slice_index_or, false};
ghost use Rattle.c_tree.specs.Plain.{PlainItem};
ghost use Rattle.c_world.specs.World.{World};
ghost use Rattle.sp_tree.specs.Statements.{no_function};
ghost use Rattle.sp_tree.specs.Straight.{begun_frame, serves, stmts_done};
ghost use Rattle.single_path.specs.Masked.{stmts_mask};
ghost use Rattle.single_path.specs.Single.{single};

/// A function that is run under another mask than 1 changes no word of a memory and no flag, and starts no send,
/// whatever it calls; and of its frame it changes masks alone: the words of its variables and its result stand, and of
/// all words each that no `Mask` statement of its body sets. A law: it does nothing.
#[tactic(auto, using(crate::proofs::TakenLaws::taken_quiet))]
pub fn other_masks_change_nothing()
    ensures world { (items : List PlainItem) (n k under : ℕ) (args : List ℕ) (w : World) → under ≢ 1
        → (serves (single items).functions n k under args w).world ≡ w }
    ensures frame { (items : List PlainItem) (n k under : ℕ) (args : List ℕ) (w : World) (x : ℕ) → under ≢ 1
        → let f = slice_index_or (single items).functions k no_function in x ≤ f.result
        → (stmts_done (serves (single items).functions n) f.body
        (record { frame = begun_frame f under args; world = w })).frame x
        ≡ begun_frame f under args x }
    ensures masks_alone { (items : List PlainItem) (n k under : ℕ) (args : List ℕ) (w : World) (x : ℕ) → under ≢ 1
        → let f = slice_index_or (single items).functions k no_function in stmts_mask x f.body ≡ false
        → (stmts_done (serves (single items).functions n) f.body
        (record { frame = begun_frame f under args; world = w })).frame x
        ≡ begun_frame f under args x }
{}
