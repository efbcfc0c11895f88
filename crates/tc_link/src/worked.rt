//! Worked examples: the words of small shapes, and walks over them.
ghost use Rattle.std.specs.Prelude.{◌≡◌, [], ◌∷◌, ◌++◌, pos, negsuc, true, None};
ghost use Rattle.patmos_instr.specs.declared.instructions.Op.TheVariants.{Branch, Call};
ghost use Rattle.patmos_model.specs.Bundle.{fetched_at};
ghost use Rattle.patmos_model.specs.declared.fetched.Fetched.TheVariants.{Found};
ghost use Rattle.patmos_model.specs.declared.flow.Goal.TheVariants as goal;
ghost use Rattle.sp_shape.specs.Formed.{is_formed};
ghost use Rattle.sp_shape.specs.Run.{by_words};
ghost use Rattle.sp_shape.specs.Iterating.{back_of};
ghost use Rattle.tc_link.specs.Dues.{dues_of};
ghost use Rattle.sp_shape.specs.Small as small;
ghost use Rattle.sp_shape.specs.Trail.{trail};
ghost use Rattle.tc_link.specs.Backs.{back, backs_of};
ghost use Rattle.tc_link.specs.Examples.{adds_long, asking, first_run, second_run, one_call, task_of};
ghost use Rattle.tc_link.specs.Fits.{FitsImage};
ghost use Rattle.tc_link.specs.Flat.{turned};
ghost use Rattle.tc_link.specs.Placed.{flat, linked};
ghost use Rattle.tc_link.specs.Walk.{erased, flowed, walk_from, Follows};

/// The bundles of a function that calls another one, which starts at word 15, in a loop: the branch
/// goes back over the call and its delay slots. A branch that has nothing before it goes to itself,
/// and words of its tail that stand before it count.
pub fn worked_targets()
    ensures flat { flat second_run 1
        ≡ small.add 1 ∷ small.under small.always (Call 15) ∷ small.idle ∷ small.idle ∷ small.idle
        ∷ small.under small.p1 (Branch (negsuc 3)) ∷ small.idle ∷ small.idle ∷ small.add 2 ∷ small.return }
    ensures nothing_before { turned 0 small.again
        ≡ small.under small.p1 (Branch (pos 0)) ∷ small.idle ∷ small.idle ∷ [] }
    ensures tail_counts { turned 4 (adds_long ∷ small.add 1 ∷ small.again)
        ≡ adds_long ∷ small.add 1 ∷ small.under small.p1 (Branch (negsuc 6)) ∷ small.idle ∷ small.idle ∷ [] }
{}

/// The words of a function that returns at once and of one that calls it, where the second is run, and where the first
/// is.
#[tactic(auto, using(crate::proofs::Example::second_run_fits), unfolding(patmos_code::specs::Codes::code))]
pub fn worked_images()
    ensures formed { is_formed second_run ≡ true }
    ensures fits { FitsImage second_run }
    ensures words { (linked second_run).words
        ≡ 13 ∷ 0x2_1001 ∷ 0x04c0_000f ∷ 0 ∷ 0 ∷ 0 ∷ 0x0cbf_fffc ∷ 0 ∷ 0 ∷ 0x2_1002 ∷ 0x0540_0000 ∷ 0 ∷ 0 ∷ 0 ∷ 4
        ∷ 0x0540_0000 ∷ 0 ∷ 0 ∷ 0 ∷ [] }
    ensures starts { (linked second_run).starts ≡ 1 ∷ 15 ∷ [] }
    ensures other_words { (linked first_run).words
        ≡ 4 ∷ 0x0540_0000 ∷ 0 ∷ 0 ∷ 0 ∷ 13 ∷ 0x2_1001 ∷ 0x04c0_0001 ∷ 0 ∷ 0 ∷ 0 ∷ 0x0cbf_fffc ∷ 0 ∷ 0 ∷ 0x2_1002
        ∷ 0x0540_0000 ∷ 0 ∷ 0 ∷ 0 ∷ [] }
    ensures other_starts { (linked first_run).starts ≡ 1 ∷ 6 ∷ [] }
{}

/// To where the calls of a shape return, in the order of its trail; and flows that take effect: a
/// call sets the place after it, a branch stays in its function, and a flow with a delay slot left
/// waits. A call's bundle is fetched with its target.
#[tactic(auto, unfolding(patmos_model::specs::Bundle::fetched_at, patmos_code::specs::Decoding::bundle_at, patmos_code::specs::Codes::code))]
pub fn worked_walks()
    ensures backs { backs_of second_run ≡ back 1 5 ∷ back 1 5 ∷ back 1 5 ∷ [] }
    ensures no_backs { backs_of first_run ≡ [] }
    ensures call { let w = flowed (asking (goal.Call 15) 0) in (w.base ≡ 15) × (w.offset ≡ 0) × (w.run.regs.srb ≡ 1)
        × (w.run.regs.sro ≡ 5) × (w.flow ≡ None) }
    ensures branch { let w = flowed (asking (goal.Within 1) 0) in (w.base ≡ 1) × (w.offset ≡ 1) × (w.run.regs.srb ≡ 0) }
    ensures returns { let w = flowed (asking (goal.Return 15 3) 0) in (w.base ≡ 15) × (w.offset ≡ 3)
        × (w.run.regs.srb ≡ 0) }
    ensures waits { flowed (asking (goal.Call 15) 1) ≡ asking (goal.Call 15) 1 }
    ensures erased { erased (small.under small.always (Call 15)) ≡ small.under small.always (Call 0) }
    ensures found { fetched_at (linked second_run) 1 1 ≡ Found (small.under small.always (Call 15)) 1 }
{}

/// A task that calls a function in an iteration, and comes back: its code follows its trail.
#[tactic(auto, using(crate::proofs::Example::one_followed))]
pub fn worked_walk()
    ensures { Follows (linked one_call) by_words (trail one_call) (dues_of one_call (back_of (task_of one_call)))
        (walk_from 1 (task_of one_call)) }
{}
