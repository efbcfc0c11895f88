//! Laws of units with the calls that their functions take in.
ghost use Rattle.std.specs.Prelude.{◌≡◌, ◌<◌, ◌≤◌, ℕ, Bool, List, length, slice_index, slice_index_or, true};
ghost use Rattle.std.specs.List.{list_all};
ghost use Rattle.c_world.specs.World.{World};
ghost use Rattle.sp_tree.specs.Begun.{straight};
ghost use Rattle.sp_tree.specs.Cost.{cost};
ghost use Rattle.sp_tree.specs.Formed.{is_formed};
ghost use Rattle.sp_tree.specs.Statements.{PlainFunction, PlainUnit, no_function};
ghost use Rattle.sp_tree.specs.Straight.{serves};
ghost use Rattle.sp_tree.specs.Uses.{Use, uses_of};
ghost use Rattle.sp_inline.specs.Taken.{first_taken, unit_taken};

/// Calls that are taken in change nothing: a task gives what it gave, and its functions give what they gave,
/// whatever the unit, its input and the words of the memories. A law: it does nothing.
#[tactic(auto, using(crate::proofs::Taking::taken_straight, crate::proofs::Taking::functions_same))]
pub fn taken_calls_change_nothing()
    ensures task { (most frames : List ℕ) (u : PlainUnit) (input : List ℕ) (shared comm : ℕ → ℕ)
        → straight (unit_taken most frames u) input shared comm ≡ straight u input shared comm }
    ensures functions { (most frames : List ℕ) (fs : List PlainFunction) (n k mask : ℕ) (args : List ℕ) (w : World)
        → serves (first_taken most frames fs (length fs)) n k mask args w ≡ serves fs n k mask args w }
{}

/// A well-formed unit whose frames are within what is given for them, which is within what a frame may have, is well
/// formed with the calls that its functions take in. A law: it does nothing.
#[tactic(auto, using(crate::proofs::Forms::still_formed))]
pub fn taken_calls_are_formed()
    ensures { (most frames : List ℕ) (u : PlainUnit) → is_formed u ≡ true
        → ((k : ℕ) → k < length u.functions → (slice_index_or u.functions k no_function).frame ≤ slice_index frames k)
        → ((k : ℕ) → k < length u.functions → slice_index frames k ≤ 128)
        → is_formed (unit_taken most frames u) ≡ true }
{}

/// A function that keeps to its most words of code, or to those of its frame, does so with the calls that it takes in.
/// A law: it does nothing.
#[tactic(auto, using(crate::proofs::Forms::cost_kept, crate::proofs::Forms::frame_kept))]
pub fn taken_calls_keep_limits()
    ensures cost { (most frames : List ℕ) (u : PlainUnit) (k : ℕ) → is_formed u ≡ true → k < length u.functions
        → cost (slice_index_or u.functions k no_function) ≤ slice_index most k
        → cost (slice_index_or (unit_taken most frames u).functions k no_function) ≤ slice_index most k }
    ensures frame { (most frames : List ℕ) (u : PlainUnit) (k : ℕ) → is_formed u ≡ true → k < length u.functions
        → (slice_index_or u.functions k no_function).frame ≤ slice_index frames k
        → (slice_index_or (unit_taken most frames u).functions k no_function).frame ≤ slice_index frames k }
{}

/// What is so of each use of a unit is so of each with the calls that its functions take in. A law: it does nothing.
#[tactic(auto, using(crate::proofs::Used::all_uses))]
pub fn taken_calls_use_no_more()
    ensures { (q : Use → Bool) (most frames : List ℕ) (u : PlainUnit) → list_all q (uses_of u) ≡ true
        → list_all q (uses_of (unit_taken most frames u)) ≡ true }
{}
