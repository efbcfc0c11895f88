//! Worked examples: what goes back, what becomes one, what goes into a delay slot, and
//! where a bundle that does nothing is put.
ghost use Rattle.std.specs.Prelude.{◌≡◌, [], ◌∷◌, ◌++◌, replicate, true, false};
ghost use Rattle.bundle_sched.specs.Ordered.{ordered};
ghost use Rattle.bundle_sched.specs.Packed.{pair, is_packed};
ghost use Rattle.bundle_sched.specs.Packing.{packed, way, iteration_packed};
ghost use Rattle.bundle_sched.specs.Placed.{spaced, part_placed, placed};
ghost use Rattle.bundle_sched.specs.Scheduled.{scheduled};
ghost use Rattle.bundle_sched.specs.Shown.{add_to, set, set_on, test, ready, packed_ready, turning, packed_turning, waiting, ordered_waiting};
ghost use Rattle.patmos_instr.specs.declared.instructions.Op.TheVariants.{Return};
ghost use Rattle.sp_shape.specs.Parts.{one, part, straight, repeats, calls_to};
ghost use Rattle.sp_shape.specs.Small as small;

/// After a load and after a product that the next bundle reads, or that is the last, and nowhere else: in a body that
/// is repeated and in the tail of its iteration too. The tail of a call has no such place.
pub fn worked_places()
    ensures nowhere { spaced (small.add 1 ∷ small.add 2 ∷ []) ≡ small.add 1 ∷ small.add 2 ∷ [] }
    ensures load { spaced (small.load ∷ small.add 1 ∷ []) ≡ small.load ∷ small.idle ∷ small.add 1 ∷ [] }
    ensures product { spaced (small.load ∷ small.square ∷ [])
        ≡ small.load ∷ small.idle ∷ small.square ∷ small.idle ∷ [] }
    ensures ignored { spaced (small.square ∷ small.add 1 ∷ []) ≡ small.square ∷ small.add 1 ∷ [] }
    ensures iterations { part_placed (repeats 3 (one (straight (small.load ∷ []))) (small.load ∷ small.again))
        ≡ repeats 3 (one (straight (small.load ∷ small.idle ∷ []))) (small.load ∷ small.again) }
    ensures call { part_placed (calls_to 1 small.call) ≡ calls_to 1 small.call }
{}

/// Neighbours become one where the second is free of the first, and else stand apart; what does nothing is left out, in
/// a second slot too; a load's value still comes in time; the last bundles go into a return's delay slots, as many as
/// there are; and what stands beside the return comes into the first.
pub fn worked_packing()
    ensures pair { packed (add_to 2 ∷ add_to 3 ∷ []) ≡ pair (add_to 2) (add_to 3) ∷ [] }
    ensures reads { packed (small.add 1 ∷ small.add 2 ∷ []) ≡ small.add 1 ∷ small.add 2 ∷ [] }
    ensures writes { packed (add_to 2 ∷ add_to 2 ∷ []) ≡ add_to 2 ∷ add_to 2 ∷ [] }
    ensures idle { packed (add_to 2 ∷ small.idle ∷ add_to 3 ∷ []) ≡ pair (add_to 2) (add_to 3) ∷ [] }
    ensures nop { packed (pair (add_to 2) small.idle ∷ []) ≡ add_to 2 ∷ [] }
    ensures late { packed (small.load ∷ add_to 2 ∷ []) ≡ small.load ∷ add_to 2 ∷ [] }
    ensures slot { way (add_to 2 ∷ []) small.return
        ≡ small.under small.always Return ∷ add_to 2 ∷ small.idle ∷ small.idle ∷ [] }
    ensures slots { way (set 1 ∷ set 2 ∷ set 3 ∷ set 4 ∷ []) small.return
        ≡ small.under small.always Return ∷ set 2 ∷ set 3 ∷ set 4 ∷ [] }
    ensures some_slots { way (set 1 ∷ small.load ∷ set 2 ∷ []) small.return
        ≡ small.under small.always Return ∷ set 2 ∷ small.idle ∷ small.idle ∷ [] }
    ensures stays { way (small.load ∷ []) small.return ≡ small.return }
    ensures beside { way (set 2 ∷ [])
        (pair (small.under small.always Return) (add_to 3) ∷ small.idle ∷ small.idle ∷ small.idle ∷ [])
        ≡ small.under small.always Return ∷ set 2 ∷ add_to 3 ∷ small.idle ∷ [] }
    ensures function { scheduled (small.shape_of (ready ∷ []) 0) ≡ small.shape_of (packed_ready ∷ []) 0 }
{}

/// An instruction goes back to the first row that has room for it: where one waits for a load, or beside another. It
/// goes by none that gives what it reads, reads what it writes, or sets the predicate that its guard asks for, and
/// looks back at sixteen rows at most.
pub fn worked_ordering()
    ensures time { ordered (small.load ∷ small.square ∷ set 2 ∷ [])
        ≡ pair small.load (set 2) ∷ small.idle ∷ small.square ∷ [] }
    ensures slot { ordered (add_to 2 ∷ small.load ∷ set 3 ∷ []) ≡ pair (add_to 2) (set 3) ∷ small.load ∷ [] }
    ensures reads { ordered (add_to 2 ∷ small.load ∷ small.add 1 ∷ [])
        ≡ add_to 2 ∷ small.load ∷ small.idle ∷ small.add 1 ∷ [] }
    ensures read { ordered (add_to 2 ∷ small.square ∷ set 1 ∷ []) ≡ pair small.square (add_to 2) ∷ set 1 ∷ [] }
    ensures guard { ordered (test ∷ small.load ∷ set_on 3 ∷ []) ≡ test ∷ pair small.load (set_on 3) ∷ [] }
    ensures near { ordered (add_to 2 ∷ (replicate 15 small.load ++ set 3 ∷ []))
        ≡ pair (add_to 2) (set 3) ∷ replicate 15 small.load }
    ensures far { ordered (add_to 2 ∷ (replicate 16 small.load ++ set 3 ∷ []))
        ≡ add_to 2 ∷ (pair small.load (set 3) ∷ replicate 15 small.load) }
    ensures function { scheduled (small.shape_of (waiting ∷ []) 0) ≡ small.shape_of (ordered_waiting ∷ []) 0 }
{}

/// The straight code at the end of a loop's body is one piece with what stands before its branch, and the last of it
/// goes into the branch's delay slots, but not where it sets the predicate that the branch asks for. So what stands before
/// the branch comes first where the tail is shorter so, but not where it reads what the code writes.
pub fn worked_loops()
    ensures slot { iteration_packed [] (test ∷ small.load ∷ add_to 2 ∷ small.again)
        ≡ test ∷ small.load ∷ small.under small.p1 small.branch ∷ add_to 2 ∷ small.idle ∷ [] }
    ensures guard { iteration_packed [] (add_to 2 ∷ test ∷ small.again) ≡ pair (add_to 2) test ∷ small.again }
    ensures first { iteration_packed (set 2 ∷ set 3 ∷ set 4 ∷ set 5 ∷ []) (test ∷ small.again)
        ≡ pair test (set 2) ∷ small.under small.p1 small.branch ∷ pair (set 3) (set 4) ∷ set 5 ∷ [] }
    ensures reads { iteration_packed (set 2 ∷ set 3 ∷ set 4 ∷ small.add 1 ∷ []) (test ∷ small.again)
        ≡ pair (set 2) (set 3) ∷ pair (set 4) (small.add 1) ∷ test ∷ small.again }
    ensures function { scheduled (small.shape_of (turning ∷ []) 0) ≡ small.shape_of (packed_turning ∷ []) 0 }
{}

/// What is packed and what is not: two neighbours that could be one, the first two of a piece too, a delay slot that the
/// bundle before could fill, and two neighbours after a load, whose value comes in the first of them.
pub fn worked_packed()
    ensures straight { is_packed (scheduled (small.shape_of (ready ∷ []) 0)) ≡ true }
    ensures turning { is_packed (scheduled (small.shape_of (turning ∷ []) 0)) ≡ true }
    ensures unpacked { is_packed (placed (small.shape_of (ready ∷ []) 0)) ≡ false }
    ensures slot_left { is_packed (small.shape_of (part (straight (small.add 1 ∷ [])) small.empty ∷ []) 0) ≡ false }
    ensures idle_left { is_packed (small.shape_of
        (part (straight (small.load ∷ small.idle ∷ add_to 2 ∷ small.idle ∷ [])) small.empty ∷ []) 0) ≡ false }
    ensures after_load { is_packed
        (small.shape_of (part (straight (small.load ∷ small.idle ∷ [])) small.empty ∷ []) 0) ≡ true }
    ensures first_two { is_packed (small.shape_of
        (part (straight (add_to 2 ∷ add_to 3 ∷ small.load ∷ small.idle ∷ [])) small.empty ∷ []) 0) ≡ false }
{}
