ghost use Rattle.std.specs.Prelude.{◌≡◌, None, ℕ, ◌+◌, ◌^◌, ◌≤◌, ◌<◌};
ghost use Rattle.patmos_model.specs.Flows.{counted};
ghost use Rattle.patmos_step.specs.Plan.{passed};
ghost use Rattle.patmos_alone.specs.Alone.{left, landed, with_registers, HasBundleAt, IsPrivateIn, IsAlone, CanBegin};
ghost use Rattle.patmos_alone.specs.AtOnce as specs;
ghost use Rattle.patmos_instr.specs.Bundles.{PlainBundle};
ghost use Rattle.patmos_sem.specs.declared.effects.Effect.TheVariants as effect;
ghost use Rattle.patmos_model.specs.declared.fetched.Fetched.TheVariants.{Found};
ghost use Rattle.patmos_model.specs.State.{History};
ghost use Rattle.patmos_model.specs.Bundle.{fetched_at, ends};
ghost use Rattle.patmos_step.specs.Ready.{CanGoOn, IsAtRest};
ghost use Rattle.patmos_step.specs.Shown.{core_of, plain_of, OnlyPlain};
ghost use Rattle.patmos_alone.specs.AtOnce.{IsBranchIn};

use patmos_instr::Guard;
use patmos_model::{Flow, Goal};
use patmos_sem::write_back;
use patmos_step::{Body, branch_target};
use slot_arbiter::MOST_CYCLES;

// Bundles that a core does at once, as most are: those that ask for nothing, and branches alone.

/// Does a bundle that asks for nothing.
#[inline(always)]
#[tactic(auto, using(patmos_step::proofs::Rests::can_at_rest))]
pub fn do_silent(body: &mut Body, offset: u32, words: u32, cycle: u64)
    requires next { IsPrivateIn cycle body.old
        (record { offset = offset; words = words; effect = effect.Nothing }) }
    requires can { CanGoOn body.old }
    requires early { cycle ≤ MOST_CYCLES }
    ensures alone { (h : History) → IsAlone cycle (core_of body.old h) (core_of body.new h) }
    ensures begins { CanBegin (cycle + 1) (plain_of body.new) }
    ensures can { CanGoOn body.new }
    ensures only { OnlyPlain body.old body.new }
{
    prove!(words <= body.size);
    write_registers(body, offset);
    go_by(body, offset, words, cycle);
}

/// Does a branch alone.
#[inline(always)]
#[tactic(auto, using(patmos_step::proofs::Rests::can_at_rest))]
pub fn do_branch(body: &mut Body, offset: u32, words: u32, guard: Guard, by: i32, cycle: u64)
    requires next { IsBranchIn cycle body.old offset words guard by }
    requires can { CanGoOn body.old }
    requires early { cycle ≤ MOST_CYCLES }
    ensures alone { (h : History) → IsAlone cycle (core_of body.old h) (core_of body.new h) }
    ensures begins { CanBegin (cycle + 1) (plain_of body.new) }
    ensures can { CanGoOn body.new }
    ensures only { OnlyPlain body.old body.new }
{
    prove!(words <= body.size);
    let taken = body.regs.holds(guard);
    body.regs.settle();
    body.flow = branched(taken, offset, by);
    body.offset = offset + words;
    body.free = cycle + 1;
}

// writes the registers as the bundle at an offset does
#[inline(always)]
fn write_registers(body: &mut Body, offset: u32)
    requires there { HasBundleAt body.old offset }
    ensures plain { (b : PlainBundle) (words : ℕ) → fetched_at body.old.image body.old.base offset ≡ Found b words
        → plain_of body.new ≡ with_registers b (plain_of body.old) }
    ensures rest { IsAtRest body.old → IsAtRest body.new }
    ensures only { OnlyPlain body.old body.new }
{
    let found = &body.code[body.base as usize + offset as usize];
    let Some(bundle) = &found.bundle else {
        unreachable!()
    };
    write_back(&mut body.regs, bundle, body.stack.st(), body.stack.ss());
}

// goes on after a bundle at an offset that asks for nothing
#[inline(always)]
fn go_by(body: &mut Body, offset: u32, words: u32, cycle: u64)
    requires within { offset + words < 2 ^ 32 }
    requires early { cycle ≤ MOST_CYCLES }
    ensures plain { plain_of body.new
        ≡ ends cycle (passed words effect.Nothing (landed offset (plain_of body.old))) }
    ensures rest { IsAtRest body.old → IsAtRest body.new }
    ensures only { OnlyPlain body.old body.new }
{
    count_slot(&mut body.flow);
    body.offset = offset + words;
    body.free = cycle + 1;
}

// the flow after a bundle that asks for none: a branch that was due has come, and of another a delay slot is done
#[inline(always)]
fn count_slot(flow: &mut Option<Flow>)
    ensures { flow.new ≡ counted (left flow.old) None }
{
    if let Some(pending) = flow {
        if pending.slots == 0 {
            *flow = None;
        } else {
            pending.slots -= 1;
        }
    }
}

// the flow after a branch at an offset
#[inline(always)]
fn branched(taken: bool, offset: u32, by: i32) -> Option<Flow>
    ensures { result ≡ specs.branched taken offset by }
{
    if taken {
        let offset = branch_target(offset, by);
        Some(Flow {
            goal: Goal::Within { offset },
            slots: 2,
        })
    } else {
        None
    }
}
