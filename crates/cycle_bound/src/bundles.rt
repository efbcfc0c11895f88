//! Bundles: their words, and the cycles that they take at most.
ghost use Rattle.std.specs.Prelude.{◌≡◌, ◌+◌, ◌≤◌, length};
ghost use Rattle.cycle_bound.specs.Bound.{op_moves, stack_moves, access_moves, bundle_bound, bundles_bound};
ghost use Rattle.sp_shape.specs.Words.{bundles_words};
ghost use Rattle.cycle_bound.specs.Held.{held};

use crate::held::plus;
use crate::steps::Steps;
use patmos_instr::{Bundle, Mem, Op, StackFunc};
use sp_shape::words_of_bundle;
use stack_cache::STACK_CACHE_WORDS;
use std::sync::ledger::Ledger;

/// The fewest cycles that the longest transaction of a core takes at a place: a slot's, of at least 6.
pub const LEAST_EACH: u64 = 6;

/// The most cycles that a transaction takes at a place: at most a gap, of 4,096, and a slot, of 64.
pub const MOST_EACH: u64 = 4_160;

/// How many words bundles have together.
#[tactic(auto, using(crate::proofs::Sums::words_next, crate::proofs::Sums::words_at_end))]
pub fn words_of_bundles<L: Ledger>(bundles: &[Bundle], steps: &mut Steps<L>) -> u64
    ensures words { result ≡ held (bundles_words bundles.now) }
    ensures steps { steps.new ≡ steps.old + length bundles.now }
{
    let mut words = 0;
    for bundle in bundles {
        steps.tick();
        words = plus(words, u64::from(words_of_bundle(bundle)));
    }
    words
}

/// How many transactions an access may make.
fn moves_of_access(space: Mem) -> u64
    ensures { result ≡ access_moves space }
{
    match space {
        Mem::C | Mem::M => 1,
        Mem::S | Mem::L => 0,
    }
}

/// How many transactions a stack instruction may make.
fn moves_of_stack(func: StackFunc, count: u32) -> u64
    ensures { result ≡ stack_moves func count }
{
    match func {
        StackFunc::Sres | StackFunc::Sens => u64::from(count.min(STACK_CACHE_WORDS)).div_ceil(4),
        StackFunc::Sfree => 0,
    }
}

/// How many transactions an operation may make.
fn moves_of_op(op: &Op) -> u64
    ensures moves { result ≡ op_moves op.now }
    ensures few { result ≤ 32 }
{
    match *op {
        Op::Load { space, .. } | Op::Store { space, .. } => moves_of_access(space),
        Op::Stack { func, count } => moves_of_stack(func, count.number()),
        _ => 0,
    }
}

/// The cycles that a bundle takes at most.
fn cycles_of_bundle(bundle: &Bundle, each: u64) -> u64
    requires few { each ≤ MOST_EACH }
    ensures { result ≡ bundle_bound each bundle.now }
{
    1 + each * moves_of_op(&bundle.first().op)
}

/// The cycles that bundles take at most.
#[tactic(auto, using(crate::proofs::Sums::cycles_next, crate::proofs::Sums::cycles_at_end))]
pub fn cycles_of_bundles<L: Ledger>(bundles: &[Bundle], each: u64, steps: &mut Steps<L>) -> u64
    requires few { each ≤ MOST_EACH }
    ensures cycles { result ≡ held (bundles_bound each bundles.now) }
    ensures steps { steps.new ≡ steps.old + length bundles.now }
{
    let mut cycles = 0;
    for bundle in bundles {
        steps.tick();
        cycles = plus(cycles, cycles_of_bundle(bundle, each));
    }
    cycles
}
