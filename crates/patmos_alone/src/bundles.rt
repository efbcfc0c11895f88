ghost use Rattle.std.specs.Prelude.{◌≡◌, true, ◌≢◌, ℕ, ◌+◌, ◌≤◌, ◌<◌, None, IfSome};
ghost use Rattle.patmos_step.specs.Plan.{passed};
ghost use Rattle.patmos_alone.specs.Alone.{BeginsBefore, IsOwn, landed, with_registers, IsLocal, HasBundleAt, IsNextBundle, IsAlone, CanBegin, CanLand, HasGone};
ghost use Rattle.patmos_instr.specs.declared.memories.Mem.TheVariants as mem;
ghost use Rattle.patmos_sem.specs.declared.effects.Effect.TheVariants as effect;
ghost use Rattle.patmos_sem.specs.declared.pending.Pending.TheVariants as pending;
ghost use Rattle.patmos_sem.specs.Bundles.{effect_of};
ghost use Rattle.patmos_instr.specs.Bundles.{PlainBundle};
ghost use Rattle.patmos_model.specs.declared.fetched.Fetched.TheVariants.{Found};
ghost use Rattle.patmos_model.specs.Bundle.{fetched_at};
ghost use Rattle.patmos_model.specs.Checks.{load_fault, store_fault};
ghost use Rattle.patmos_model.specs.State.{History};
ghost use Rattle.patmos_step.specs.Ready.{CanGoOn, IsAtRest};
ghost use Rattle.patmos_step.specs.Shown.{core_of, plain_of, OnlyPlain};

use crate::finish::{finish_load, finish_store};
use crate::quick::do_silent;
use crate::run::{NextBundle, Went, has_no_slot_left, wait_until};
use local_store::{Cell, Space};
use patmos_instr::{Mem, Reg, StoreWidth, Width};
use patmos_model::Flow;
use patmos_sem::{Effect, asked_by, write_second};
use patmos_step::{Body, cell_of};
use slot_arbiter::{MOST_CYCLES, start_of};

// Bundles that a core does by itself, each in the way of what it asks for.

/// Does the bundle at the offset in the way of what it asks for, if the core does it by itself.
#[tactic(auto, using(crate::proofs::ByItself::silent_bundle, crate::proofs::Stretches::goes_by))]
pub(crate) fn do_other(body: &mut Body, offset: u32, cycle: u64, limit: u64) -> Went
    requires begins { BeginsBefore limit cycle body.old }
    requires lands { CanLand offset (plain_of body.old) }
    ensures went { HasGone result cycle limit body.old body.new }
{
    let Some(next) = asked_at(body, offset) else {
        return Went::Nowhere;
    };
    match next.effect {
        Effect::Nothing => {
            do_silent(body, next.offset, next.words, cycle);
            Went::On
        }
        Effect::Flow { .. } => do_flow(body, &next, cycle),
        Effect::Load { .. } => do_load(body, &next, cycle, limit),
        Effect::Store { .. } => do_store(body, &next, cycle, limit),
        Effect::StackOp { .. } => Went::Nowhere,
    }
}

// the bundle at the offset, if there is one, with what it asks for
#[inline(always)]
fn asked_at(body: &Body, offset: u32) -> Option<NextBundle>
    requires lands { CanLand offset (plain_of body.now) }
    ensures { IfSome result (IsNextBundle body.now) }
{
    let found = body.decoded_at(offset)?;
    let Some(bundle) = &found.bundle else {
        return None;
    };
    Some(NextBundle {
        offset,
        words: found.words,
        effect: asked_by(&body.regs, bundle),
    })
}

// does a bundle with a flow, if no other one has delay slots left
#[inline(always)]
#[tactic(auto, using(patmos_step::proofs::Rests::can_at_rest, crate::proofs::Stretches::goes_by))]
fn do_flow(body: &mut Body, next: &NextBundle, cycle: u64) -> Went
    requires begins { CanBegin cycle (plain_of body.old) }
    requires next { IsNextBundle body.old next.now }
    requires can { CanGoOn body.old }
    requires early { cycle ≤ MOST_CYCLES }
    ensures went { (limit : ℕ) → HasGone result cycle limit body.old body.new }
{
    let Effect::Flow { .. } = next.effect else {
        return Went::Nowhere;
    };
    if !has_no_slot_left(body) {
        return Went::Nowhere;
    }
    go_through(body, next);
    body.end(cycle);
    Went::On
}

// does a bundle with a load of a word of the core's own, or one that leaves a word to be moved
#[inline(always)]
#[tactic(auto, using(crate::proofs::Stretches::goes_by))]
fn do_load(body: &mut Body, next: &NextBundle, cycle: u64, limit: u64) -> Went
    requires begins { BeginsBefore limit cycle body.old }
    requires next { IsNextBundle body.old next.now }
    ensures went { HasGone result cycle limit body.old body.new }
{
    let Effect::Load {
        space,
        width,
        rd,
        address,
    } = next.effect
    else {
        return Went::Nowhere;
    };
    if !can_load(body, space, width, address) {
        return Went::Nowhere;
    }
    match space {
        Mem::S | Mem::L => {
            load_own(body, next, space, width, rd, address, cycle);
            Went::On
        }
        Mem::M => load_main(body, next, width, rd, address, cycle, limit),
        Mem::C => Went::Nowhere,
    }
}

// does one with a load of a word of the core's own stack or scratchpad
#[inline(always)]
#[tactic(auto, using(patmos_step::proofs::Rests::can_at_rest))]
fn load_own(
    body: &mut Body,
    next: &NextBundle,
    space: Mem,
    width: Width,
    rd: Reg,
    address: u32,
    cycle: u64,
)
    requires begins { CanBegin cycle (plain_of body.old) }
    requires next { IsNextBundle body.old next.now }
    requires asks { next.now.effect ≡ effect.Load space width rd address }
    requires local { IsLocal space }
    requires own { IsOwn space address }
    requires granted { load_fault (plain_of body.old) space width address ≡ None }
    requires can { CanGoOn body.old }
    requires early { cycle ≤ MOST_CYCLES }
    ensures alone { (h : History) → IsAlone cycle (core_of body.old h) (core_of body.new h) }
    ensures begins { CanBegin (cycle + 1) (plain_of body.new) }
    ensures can { CanGoOn body.new }
    ensures only { OnlyPlain body.old body.new }
{
    go_through(body, next);
    finish_load(body, space, width, rd, address, cycle);
}

// does one with a load of a word of main memory, which moves in the first slot, unless that starts in the
// bundle's own cycle
#[inline(always)]
fn load_main(
    body: &mut Body,
    next: &NextBundle,
    width: Width,
    rd: Reg,
    address: u32,
    cycle: u64,
    limit: u64,
) -> Went
    requires begins { BeginsBefore limit cycle body.old }
    requires next { IsNextBundle body.old next.now }
    requires asks { next.now.effect ≡ effect.Load mem.M width rd address }
    requires granted { load_fault (plain_of body.old) mem.M width address ≡ None }
    ensures went { HasGone result cycle limit body.old body.new }
{
    let start = start_of(&body.place, cycle);
    if start == cycle {
        return Went::Nowhere;
    }
    go_through(body, next);
    finish_load(body, Mem::M, width, rd, address, cycle);
    Went::Until(wait_until(body, cycle + 1, start, limit))
}

// whether a load is of a word of the core's own, or leaves one to be moved, and no check of it fails
#[inline(always)]
fn can_load(body: &Body, space: Mem, width: Width, address: u32) -> bool
    ensures own { result ≡ true → IsOwn space address }
    ensures granted { result ≡ true → load_fault (plain_of body.now) space width address ≡ None }
{
    is_own(space, address) && body.load_fault(space, width, address).is_none()
}

// does a bundle with a store to a word of the core's own, or one that leaves a word to be moved
#[inline(always)]
#[tactic(auto, using(crate::proofs::Stretches::goes_by))]
fn do_store(body: &mut Body, next: &NextBundle, cycle: u64, limit: u64) -> Went
    requires begins { BeginsBefore limit cycle body.old }
    requires next { IsNextBundle body.old next.now }
    ensures went { HasGone result cycle limit body.old body.new }
{
    let Effect::Store {
        space,
        width,
        address,
        value,
    } = next.effect
    else {
        return Went::Nowhere;
    };
    if !can_store(body, space, width, address, value) {
        return Went::Nowhere;
    }
    match space {
        Mem::S | Mem::L => {
            store_own(body, next, space, width, address, value, cycle);
            Went::On
        }
        Mem::M => store_main(body, next, width, address, value, cycle, limit),
        Mem::C => Went::Nowhere,
    }
}

// does one with a store to a word of the core's own stack or scratchpad
#[inline(always)]
#[tactic(auto, using(patmos_step::proofs::Rests::can_at_rest))]
fn store_own(
    body: &mut Body,
    next: &NextBundle,
    space: Mem,
    width: StoreWidth,
    address: u32,
    value: u32,
    cycle: u64,
)
    requires begins { CanBegin cycle (plain_of body.old) }
    requires next { IsNextBundle body.old next.now }
    requires asks { next.now.effect ≡ effect.Store space width address value }
    requires local { IsLocal space }
    requires own { IsOwn space address }
    requires granted { store_fault (plain_of body.old) space width address value ≡ None }
    requires can { CanGoOn body.old }
    requires early { cycle ≤ MOST_CYCLES }
    ensures alone { (h : History) → IsAlone cycle (core_of body.old h) (core_of body.new h) }
    ensures begins { CanBegin (cycle + 1) (plain_of body.new) }
    ensures can { CanGoOn body.new }
    ensures only { OnlyPlain body.old body.new }
{
    go_through(body, next);
    finish_store(body, space, width, address, value, cycle);
}

// does one with a store to a word of main memory, which moves in the first slot, unless that starts in the
// bundle's own cycle
#[inline(always)]
fn store_main(
    body: &mut Body,
    next: &NextBundle,
    width: StoreWidth,
    address: u32,
    value: u32,
    cycle: u64,
    limit: u64,
) -> Went
    requires begins { BeginsBefore limit cycle body.old }
    requires next { IsNextBundle body.old next.now }
    requires asks { next.now.effect ≡ effect.Store mem.M width address value }
    requires granted { store_fault (plain_of body.old) mem.M width address value ≡ None }
    ensures went { HasGone result cycle limit body.old body.new }
{
    let start = start_of(&body.place, cycle);
    if start == cycle {
        return Went::Nowhere;
    }
    go_through(body, next);
    finish_store(body, Mem::M, width, address, value, cycle);
    Went::Until(wait_until(body, cycle + 1, start, limit))
}

// whether a store is to a word of the core's own, or leaves one to be moved, and no check of it fails
#[inline(always)]
fn can_store(body: &Body, space: Mem, width: StoreWidth, address: u32, value: u32) -> bool
    ensures own { result ≡ true → IsOwn space address }
    ensures granted { result ≡ true → store_fault (plain_of body.now) space width address value ≡ None }
{
    is_own(space, address) && body.store_fault(space, width, address, value).is_none()
}

// goes through a bundle that asks for something, but for what it asks for
#[inline(always)]
fn go_through(body: &mut Body, next: &NextBundle)
    requires next { IsNextBundle body.old next.now }
    requires asks { next.now.effect ≢ effect.Nothing }
    ensures plain { (b : PlainBundle) → fetched_at body.old.image body.old.base next.now.offset ≡ Found b next.now.words
        → plain_of body.new ≡ passed next.now.words next.now.effect
        (landed next.now.offset (with_registers b (plain_of body.old))) }
    ensures pending { body.new.regs.pending ≡ pending.Nothing }
    ensures rest { IsAtRest body.old → IsAtRest body.new }
    ensures only { OnlyPlain body.old body.new }
{
    prove!(next.words <= body.size);
    write_asking(body, next.offset);
    land(body, next.offset);
    body.pass(next.words, &next.effect);
}

// writes the registers as the bundle at an offset does, which asks for something
#[inline(always)]
fn write_asking(body: &mut Body, offset: u32)
    requires there { HasBundleAt body.old offset }
    requires asks { (b : PlainBundle) (words : ℕ) → fetched_at body.old.image body.old.base offset ≡ Found b words
        → effect_of b body.old.regs ≢ effect.Nothing }
    ensures plain { (b : PlainBundle) (words : ℕ) → fetched_at body.old.image body.old.base offset ≡ Found b words
        → plain_of body.new ≡ with_registers b (plain_of body.old) }
    ensures pending { body.new.regs.pending ≡ pending.Nothing }
    ensures rest { IsAtRest body.old → IsAtRest body.new }
    ensures only { OnlyPlain body.old body.new }
{
    let found = &body.code[body.base as usize + offset as usize];
    let Some(bundle) = &found.bundle else {
        unreachable!()
    };
    write_second(&mut body.regs, bundle, body.stack.st(), body.stack.ss());
}

// goes on at an offset, to which a branch that is due has come
#[inline(always)]
fn land(body: &mut Body, offset: u32)
    ensures plain { plain_of body.new ≡ landed offset (plain_of body.old) }
    ensures offset { body.new.offset ≡ offset }
    ensures regs { body.new.regs ≡ body.old.regs }
    ensures rest { IsAtRest body.old → IsAtRest body.new }
    ensures only { OnlyPlain body.old body.new }
{
    body.offset = offset;
    if let Some(Flow { slots: 0, .. }) = body.flow {
        body.flow = None;
    }
}

// whether an address is one of a core's own stack or scratchpad, or of main memory past the data cache
#[inline(always)]
fn is_own(space: Mem, address: u32) -> bool
    ensures { result ≡ true → IsOwn space address }
{
    match space {
        Mem::S => true,
        Mem::L => matches!(cell_of(Space::Local, address), Some(Cell::Scratch(_))),
        Mem::C => false,
        Mem::M => true,
    }
}
