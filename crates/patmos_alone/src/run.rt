ghost use Rattle.std.specs.Prelude.{◌≡◌, ◌≤◌, ◌<◌, true, IfSome};
ghost use Rattle.patmos_step.specs.Ready.{CanGoOn};
ghost use Rattle.patmos_step.specs.Shown.{plain_of};
ghost use Rattle.patmos_model.specs.Transaction.{is_due};
ghost use Rattle.patmos_alone.specs.Alone.{BeginsBefore, GoesAlone, no_slot_left, CanBegin, CanLand, CanFirstMove, IsDueBefore, HasGone};

use crate::bundles::do_other;
use crate::moving::{move_own, moves_own};
use crate::next_active::active;
use crate::quick::{do_branch, do_silent};
use patmos_model::{Flow, Goal, Status};
use patmos_sem::Effect;
use patmos_step::{Body, Class};
use slot_arbiter::MOST_CYCLES;

/// A core's next bundle, with what it asks for.
#[derive(Clone, Copy, Debug, PartialEq, Eq)]
pub struct NextBundle {
    /// The offset at which it stands, to which a branch that is due has come.
    pub offset: u32,
    /// How many words of code it has.
    pub words: u32,
    /// What it asks for.
    pub effect: Effect,
}

/// How far a core goes by itself in a cycle in which its next bundle comes.
#[derive(Clone, Copy, Debug, PartialEq, Eq)]
pub enum Went {
    /// Nowhere: it does not do the bundle by itself.
    Nowhere,
    /// After the bundle, and the next one comes in the next cycle.
    On,
    /// After the bundle, where it waited until this cycle.
    Until(u64),
}

/// From a cycle on goes on as long as the core does all by itself: its bundles, waiting, and moving words of
/// its own memory; up to the first cycle in which it may do something else, or up to the limit. Gives that
/// cycle.
#[tactic(auto, using(crate::proofs::ByItself::begins_alone))]
pub fn run_alone(body: &mut Body, from: u64, limit: u64) -> u64
    requires can { CanGoOn body.old }
    requires within { from ≤ limit }
    requires most { limit ≤ MOST_CYCLES }
    ensures goes { GoesAlone from result body.old body.new }
    ensures within { result ≤ limit }
    ensures due { IsDueBefore limit result (plain_of body.new) }
{
    let mut cycle = from;
    while cycle < limit {
        let next = run_bundles(body, cycle, limit);
        if cycle < next && 0 < body.transfer.words {
            return next;
        }
        let after = wait_alone(body, next, limit);
        if after == next {
            return after;
        }
        cycle = after;
    }
    cycle
}

// waits until the core may do something, and moves words of its own memory if it is that
fn wait_alone(body: &mut Body, from: u64, limit: u64) -> u64
    requires can { CanGoOn body.old }
    requires within { from ≤ limit }
    requires most { limit ≤ MOST_CYCLES }
    ensures goes { GoesAlone from result body.old body.new }
    ensures within { result ≤ limit }
    ensures due { IsDueBefore limit result (plain_of body.new) }
{
    let active = active(body, from, limit).min(limit);
    if active == limit {
        return active;
    }
    move_at(body, active, limit)
}

/// Waits for the first cycle in which the words that are to be moved can be, and moves them there if they are of
/// the core's own memory.
#[inline(always)]
pub(crate) fn wait_until(body: &mut Body, from: u64, start: u64, limit: u64) -> u64
    requires first { CanFirstMove from start (plain_of body.old) }
    requires can { CanGoOn body.old }
    requires within { from ≤ limit }
    requires most { limit ≤ MOST_CYCLES }
    ensures goes { GoesAlone from result body.old body.new }
    ensures within { result ≤ limit }
    ensures due { IsDueBefore limit result (plain_of body.new) }
{
    if limit <= start {
        return limit;
    }
    move_at(body, start, limit)
}

// moves the words that are to be moved, if they are of its own memory, and waits after them
#[inline(always)]
fn move_at(body: &mut Body, from: u64, limit: u64) -> u64
    requires due { 0 < body.old.transfer.words → is_due from (plain_of body.old) ≡ true }
    requires can { CanGoOn body.old }
    requires within { from < limit }
    requires most { limit ≤ MOST_CYCLES }
    ensures goes { GoesAlone from result body.old body.new }
    ensures within { result ≤ limit }
    ensures due { IsDueBefore limit result (plain_of body.new) }
{
    if !moves_own(body) {
        return from;
    }
    move_own(body, from);
    active(body, from + 1, limit).min(limit)
}

// does bundles one a cycle, as long as each is one that the core does by itself
#[tactic(auto, using(crate::proofs::ByItself::begins_alone, crate::proofs::Waits::none_moves))]
fn run_bundles(body: &mut Body, from: u64, limit: u64) -> u64
    requires can { CanGoOn body.old }
    requires within { from ≤ limit }
    requires most { limit ≤ MOST_CYCLES }
    ensures goes { GoesAlone from result body.old body.new }
    ensures within { result ≤ limit }
    ensures due { from < result → IsDueBefore limit result (plain_of body.new) }
{
    if !can_begin(body, from) {
        return from;
    }
    let mut cycle = from;
    while cycle < limit {
        match do_next(body, cycle, limit) {
            Went::Nowhere => return cycle,
            Went::On => cycle += 1,
            Went::Until(next) => {
                if !can_begin(body, next) {
                    return next;
                }
                cycle = next;
            }
        }
    }
    cycle
}

// does the bundle that comes in the cycle, if the core does it by itself
#[inline(always)]
#[tactic(auto, using(crate::proofs::AtOnce::silent_next, crate::proofs::AtOnce::branch_next, crate::proofs::Stretches::goes_by))]
fn do_next(body: &mut Body, cycle: u64, limit: u64) -> Went
    requires begins { BeginsBefore limit cycle body.old }
    ensures went { HasGone result cycle limit body.old body.new }
{
    let Some(offset) = next_offset(body) else {
        return Went::Nowhere;
    };
    let Some(found) = body.decoded_at(offset) else {
        return Went::Nowhere;
    };
    let words = found.words;
    match found.class {
        Class::Silent => {
            do_silent(body, offset, words, cycle);
            Went::On
        }
        Class::Branch { guard, by } if has_no_slot_left(body) => {
            do_branch(body, offset, words, guard, by, cycle);
            Went::On
        }
        Class::Branch { .. } | Class::Other => do_other(body, offset, cycle, limit),
    }
}

// whether the core's next bundle comes in the cycle, if its task has not ended
#[inline(always)]
fn can_begin(body: &Body, cycle: u64) -> bool
    ensures { result ≡ true → CanBegin cycle (plain_of body.now) }
{
    matches!(body.status, Status::Running) && body.transfer.words == 0 && body.free == cycle
}

/// The offset of the next bundle, where no flow is due but a branch to a place in the function.
#[inline(always)]
#[tactic(auto, using(crate::proofs::ByItself::lands_here, crate::proofs::ByItself::lands_later, crate::proofs::ByItself::lands_within))]
pub fn next_offset(body: &Body) -> Option<u32>
    ensures { IfSome result (λ offset. CanLand offset (plain_of body.now)) }
{
    match body.flow {
        Some(
            Flow {
                goal: Goal::Within { offset },
                slots: 0,
            },
        ) if offset < body.size => Some(offset),
        Some(Flow { slots: 0, .. }) => None,
        _ => Some(body.offset),
    }
}

/// Whether no flow has delay slots left.
#[inline(always)]
pub fn has_no_slot_left(body: &Body) -> bool
    ensures { result ≡ no_slot_left body.now.flow }
{
    match body.flow {
        Some(flow) => flow.slots == 0,
        None => true,
    }
}
