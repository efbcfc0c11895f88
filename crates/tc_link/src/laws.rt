//! Laws of images that were made of shapes.
ghost use Rattle.std.specs.Prelude.{◌≡◌, ℕ, ◌+◌, ◌-◌, ◌<◌, List, ◌∷◌, ◌++◌, Some, None, true, length, slice_index};
ghost use Rattle.std.specs.List.{All, Contains};
ghost use Rattle.patmos_instr.specs.Bundles.{PlainBundle, FitsBundle};
ghost use Rattle.patmos_code.specs.Codes.{code};
ghost use Rattle.patmos_code.specs.Decoding.{bundle_at};
ghost use Rattle.patmos_code.specs.Images.{IsImage};
ghost use Rattle.patmos_model.specs.Begin.{entry};
ghost use Rattle.patmos_model.specs.Bundle.{advanced, asked_flow};
ghost use Rattle.patmos_model.specs.Checks.{fault_of};
ghost use Rattle.patmos_model.specs.Flows as model;
ghost use Rattle.patmos_model.specs.Flows.{is_placed};
ghost use Rattle.patmos_model.specs.State.{Plain, Core};
ghost use Rattle.patmos_model.specs.declared.flow.Goal.{Goal};
ghost use Rattle.patmos_sem.specs.Bundles.{effect_of};
ghost use Rattle.patmos_sem.specs.Registers.{FitsRegisters};
ghost use Rattle.patmos_sem.specs.declared.effects.Effect.TheVariants as effect;
ghost use Rattle.patmos_sem.specs.declared.effects.FlowKind.{FlowKind};
ghost use Rattle.sp_shape.specs.Bundles.{has_word, parts_all};
ghost use Rattle.sp_shape.specs.Formed.{is_formed};
ghost use Rattle.sp_shape.specs.Parts.{PlainParts, PlainShape};
ghost use Rattle.sp_shape.specs.Run.{Run, Sources, late, run_late};
ghost use Rattle.sp_shape.specs.Trail.{trail};
ghost use Rattle.sp_shape.specs.Iterating.{ShapeIterations, back_of};
ghost use Rattle.tc_link.specs.Dues.{dues_of};
ghost use Rattle.sp_shape.specs.Words.{bundles_words};
ghost use Rattle.tc_link.specs.Backs.{backs_of};
ghost use Rattle.tc_link.specs.Fits.{FitsImage};
ghost use Rattle.tc_link.specs.Flat.{flat_parts};
ghost use Rattle.tc_link.specs.Placed.{function, size_of, start_of, flat, linked};
ghost use Rattle.tc_link.specs.Stands.{StandAt, HasAt, PartsAt};
ghost use Rattle.tc_link.specs.Walk.{Walk, is_place, gone, bundle_done, erased, walk_from, IsAlone, Follows, IsAs};

/// What is made of a well-formed shape that fits is an image.
#[tactic(auto, using(crate::proofs::Kept::linked_is_image))]
pub fn images_are_kept()
    ensures { (s : PlainShape) → is_formed s ≡ true → FitsImage s → IsImage (linked s) }
{}

/// Each function starts at one of the starts, has its size in the word before, and from there on its bundles, one after
/// another: after any first ones come the words of the next.
#[tactic(auto, using(crate::proofs::Standing::size_stands, crate::proofs::Standing::bundles_stand, crate::proofs::Started::started))]
pub fn bundles_stand_in_order()
    ensures start { (s : PlainShape) (k : ℕ) → k < length s.functions → Contains (linked s).starts (start_of s k) }
    ensures size { (s : PlainShape) (k : ℕ) → k < length s.functions
        → slice_index (linked s).words (start_of s k - 1) ≡ size_of s k }
    ensures bundles { (s : PlainShape) (k : ℕ) → k < length s.functions → (us vs : List PlainBundle) (b : PlainBundle)
        → us ++ b ∷ vs ≡ flat s k
        → StandAt (linked s).words (start_of s k + bundles_words us) (code b) }
{}

/// Each function has its parts from its start on; and whatever has the bundles of parts, one after another, has the
/// parts.
#[tactic(auto, using(crate::proofs::Standing::function_parts_stand, crate::proofs::Standing::parts_at))]
pub fn parts_stand()
    ensures functions { (s : PlainShape) (k : ℕ) → k < length s.functions
        → PartsAt (linked s).words (start_of s) (start_of s k) (function s k) }
    ensures parts { (words : List ℕ) (start : ℕ → ℕ) (at : ℕ) (ps : PlainParts) → HasAt words at (flat_parts start ps)
        → PartsAt words start at ps }
{}

/// A bundle whose words stand in others is what is decoded there.
#[tactic(auto, using(crate::proofs::Fetched::fetched))]
pub fn standing_bundles_are_decoded()
    ensures { (words : List ℕ) (at : ℕ) (b : PlainBundle) → FitsBundle b → StandAt words at (code b)
        → bundle_at (slice_index words at) (slice_index words (at + 1)) ≡ Some b }
{}

/// Bundles of a linked function that have their fields in range have words of 32 bits as their long constants, and so
/// have those of its parts.
#[tactic(auto, using(crate::proofs::Constants::function_words_fit))]
pub fn linked_constants_are_words()
    ensures { (s : PlainShape) (k : ℕ) → All FitsBundle (flat s k) → parts_all has_word (function s k) ≡ true }
{}

/// A target changes nothing of what a bundle does to registers and words.
#[tactic(auto, using(crate::proofs::Erased::late_same))]
pub fn targets_change_nothing()
    ensures { (from : Sources) (b c : PlainBundle) (m : Run) → erased b ≡ erased c → late from b m ≡ late from c m }
{}

/// A core that is put where the entry starts, and that fetches the words of the image and obeys its flows, does the
/// bundles of the shape's trail one after another: where its loops make all their iterations and its functions come back,
/// and where the places to which its calls return are told as they are. Each flow goes to a place, and none stands in a
/// delay slot of another. After the last bundle the entry's return is due.
pub fn code_follows_the_trail()
    ensures { (s : PlainShape) (from : Sources) (m : Run) → is_formed s ≡ true → FitsImage s
        → ((k : ℕ) → k < length s.functions → All FitsBundle (flat s k))
        → FitsRegisters m.regs → m.backs ≡ backs_of s → ShapeIterations (run_late from) s m
        → Follows (linked s) from (trail s) (dues_of s (back_of m)) (walk_from (entry (linked s)) m) }
{}

/// Flows take effect in a walk as they do in a core: the same goals are places, the core goes on where the
/// walk does, and after a bundle both are at the same offset with the same flow pending. A flow that
/// stands in no delay slot passes the core's check.
#[tactic(auto, using(crate::proofs::Cores::placed_alike, crate::proofs::Cores::gone_alike, crate::proofs::Cores::offset_alike, crate::proofs::Cores::flow_alike, crate::proofs::Cores::no_fault))]
pub fn walks_go_as_cores()
    ensures placed { (to : Goal) (x : Plain) → is_placed to x ≡ is_place x.site.image x.base to }
    ensures gone { (to : Goal) (c : Core) (w : Walk) → IsAs w c.plain → IsAs (gone to w) (model.gone to c).plain }
    ensures offset { (from : Sources) (b : PlainBundle) (words : ℕ) (w : Walk) (x : Plain) → IsAs w x
        → (bundle_done from b words w).offset ≡ (advanced words b x).offset }
    ensures flow { (from : Sources) (b : PlainBundle) (words : ℕ) (w : Walk) (x : Plain) → IsAs w x
        → (bundle_done from b words w).flow ≡ (advanced words b x).flow }
    ensures check { (b : PlainBundle) (flow : FlowKind) (w : Walk) (x : Plain) → IsAs w x
        → IsAlone w.flow (asked_flow w.offset (effect_of b w.run.regs))
        → effect_of b x.regs ≡ effect.Flow flow → fault_of x (effect.Flow flow) ≡ None }
{}
