//! Where the words of a frame stand.
ghost use Rattle.std.specs.Prelude.{◌≡◌, ◌<◌, ◌≤◌, map, slice_index_or};
ghost use Rattle.sp_emit.specs.Chains.{stmt_calls, stmts_call};
ghost use Rattle.sp_emit.specs.Places.{capped};
ghost use Rattle.sp_emit.specs.Fits.{ArgsFit, TargetFits, StmtFits, StmtsFit, FunctionFits};
ghost use Rattle.sp_emit.specs.declared.registers.TheConstants.{FIRST};
ghost use Rattle.sp_tree.specs.Formed.{stmt_levels, stmts_levels, slots_of};
ghost use Rattle.sp_tree.specs.Plain.{plain_sp};
ghost use Rattle.sp_tree.specs.Shown.{plain_sp_target, plain_stmt, stmts_of, plain_function};
ghost use Rattle.sp_emit.specs.Functions as functions;
ghost use Rattle.sp_emit.specs.Places as specs;

use crate::expressions::need_of;
use crate::instructions::{always, compare_short, copy, idle, load_slot, store_slot, with_short};
use crate::registers::{FIRST, FLAGS, OVERRUN, SPARE, TEST, pred, reg};
use crate::stands::{Flags, Homes};
use patmos_instr::{Bundle, CmpFunc, Guard, ImmFunc, Pred, Reg};
use sp_tree::{SpExpr, SpFunction, SpStmt, SpTarget};

// whether a word of those that stand in predicates is that of a number
fn is_that(word: Option<u32>, slot: u32) -> bool
    ensures { result ≡ specs.is_that word slot }
{
    match word {
        Some(word) => word == slot,
        None => false,
    }
}

/// The predicate in which a word stands.
#[tactic(auto, unfolding(crate::specs::Places::flag_of))]
pub fn flag_of(flags: Flags, slot: u32) -> Option<Pred>
    ensures { result ≡ specs.flag_of flags slot }
{
    if is_that(flags.first, slot) {
        Some(pred(FLAGS))
    } else if is_that(flags.second, slot) {
        Some(pred(FLAGS + 1))
    } else if is_that(flags.third, slot) {
        Some(pred(FLAGS + 2))
    } else if is_that(flags.fourth, slot) {
        Some(pred(FLAGS + 3))
    } else {
        None
    }
}

/// Whether a word stands in a register, where the first one stands in that of this number.
pub fn is_in_register(homes: u32, slot: u32) -> bool
    ensures { result ≡ specs.in_register homes slot }
{
    homes < OVERRUN && slot < OVERRUN - homes
}

/// The word of the stack, from its top on, in which a word of the frame stands that finds no register.
pub fn stack_word(homes: u32, slot: u32) -> u32
    ensures { result ≡ specs.stack_word homes slot }
{
    slot.saturating_sub(OVERRUN.saturating_sub(homes))
}

/// A register gets what a word holds.
#[tactic(auto, unfolding(crate::specs::Places::read_op))]
pub fn read_word(homes: u32, rd: Reg, slot: u32) -> Bundle
    requires { slot < 128 }
    ensures { result ≡ specs.read_word homes rd slot }
{
    if is_in_register(homes, slot) {
        copy(rd, reg(homes + slot))
    } else {
        load_slot(rd, stack_word(homes, slot))
    }
}

/// The spare register gets what a word of the stack holds; where the word stands in a register, nothing is done.
#[tactic(auto, unfolding(crate::specs::Places::fetch_op))]
pub fn fetch_word(homes: u32, slot: u32) -> Bundle
    requires { slot < 128 }
    ensures { result ≡ specs.fetch_word homes slot }
{
    if is_in_register(homes, slot) {
        idle()
    } else {
        load_slot(reg(SPARE), stack_word(homes, slot))
    }
}

/// The register in which the word stands then.
pub fn fetched_at(homes: u32, slot: u32) -> Reg
    ensures { result ≡ specs.fetched_at homes slot }
{
    if is_in_register(homes, slot) {
        reg(homes + slot)
    } else {
        reg(SPARE)
    }
}

/// A word of the stack gets what the spare register holds; where the word stands in a register, nothing is done.
#[tactic(auto, unfolding(crate::specs::Places::keep_op))]
pub fn keep_word(homes: u32, slot: u32) -> Bundle
    requires { slot < 128 }
    ensures { result ≡ specs.keep_word homes slot }
{
    if is_in_register(homes, slot) {
        idle()
    } else {
        store_slot(always(), stack_word(homes, slot), reg(SPARE))
    }
}

/// A word gets what a register holds.
#[tactic(auto, unfolding(crate::specs::Places::set_op))]
pub fn set_word(homes: u32, guard: Guard, slot: u32, rs: Reg) -> Bundle
    requires { slot < 128 }
    ensures { result ≡ specs.set_word homes guard slot rs }
{
    if is_in_register(homes, slot) {
        with_short(guard, ImmFunc::Add, reg(homes + slot), rs, 0)
    } else {
        store_slot(guard, stack_word(homes, slot), rs)
    }
}

/// Whether a mask is 1: nothing is done where it stands in a predicate.
#[tactic(auto, unfolding(crate::specs::Places::seek_op, crate::specs::Places::match_op))]
pub fn mask_test(homes: Homes, mask: u32) -> [Bundle; 2]
    requires { mask < 128 }
    ensures { result ≡ specs.mask_test homes mask }
{
    match flag_of(homes.flags, mask) {
        Some(_) => [idle(), idle()],
        None => [
            fetch_word(homes.first, mask),
            compare_short(CmpFunc::Eq, pred(TEST), fetched_at(homes.first, mask), 1),
        ],
    }
}

/// The predicate that says it then.
pub fn told_at(homes: Homes, mask: u32) -> Pred
    ensures { result ≡ specs.told_at homes mask }
{
    flag_of(homes.flags, mask).unwrap_or(pred(TEST))
}

// ---- how many words the tree of a function names

#[cycle(levels)]
#[tactic(auto, unfolding(sp_tree::specs::Shown::plain_stmt))]
fn statement_levels(t: &SpStmt) -> u32
    ensures { result ≡ capped (stmt_levels (plain_stmt t.now)) }
{
    match t {
        SpStmt::Iterations { body, .. } => {
            let inner = levels_of(body.as_slice());
            inner.saturating_add(1)
        }
        _ => 0,
    }
}

#[cycle(levels)]
#[tactic(auto)]
fn levels_of(stmts: &[SpStmt]) -> u32
    ensures { result ≡ capped (stmts_levels (stmts_of stmts.now)) }
{
    let mut most = 0;
    for t in stmts {
        let levels = statement_levels(t);
        most = levels.max(most);
    }
    most
}

/// How many words of a function's frame its tree names.
pub fn words_of(f: &SpFunction) -> u32
    requires { FunctionFits (plain_function f.now) }
    ensures { result ≡ slots_of (plain_function f.now) }
{
    f.frame - (levels_of(f.body.as_slice()) + 2)
}

// ---- whether a function calls others

#[cycle(calls)]
#[tactic(auto, unfolding(sp_tree::specs::Shown::plain_stmt))]
fn has_call(t: &SpStmt) -> bool
    ensures { result ≡ stmt_calls (plain_stmt t.now) }
{
    match t {
        SpStmt::Call { .. } => true,
        SpStmt::Iterations { body, .. } => have_calls(body.as_slice()),
        _ => false,
    }
}

/// Whether statements call a function.
#[cycle(calls)]
#[tactic(auto)]
pub fn have_calls(stmts: &[SpStmt]) -> bool
    ensures { result ≡ stmts_call (stmts_of stmts.now) }
{
    for t in stmts {
        if has_call(t) {
            return true;
        }
    }
    false
}

/// Where the place stands to which a function returns, from the stack's top on: after the words of its frame that find no
/// register, where its first word would stand in the register of this number.
pub fn base_slot(homes: u32, f: &SpFunction) -> u32
    requires { FunctionFits (plain_function f.now) }
    ensures { result ≡ functions.base_slot homes (plain_function f.now) }
{
    stack_word(homes, f.frame - 2)
}

/// How many words of the stack a function takes: two more where it calls others.
#[tactic(auto, using(crate::proofs::Fitting::frame_most, crate::proofs::Fitting::frame_least))]
pub fn frame_words(homes: u32, f: &SpFunction) -> u32
    requires { FunctionFits (plain_function f.now) }
    ensures words { result ≡ functions.frame_words homes (plain_function f.now) }
    ensures few { result ≤ 128 }
{
    let place = if have_calls(f.body.as_slice()) { 2 } else { 0 };
    base_slot(homes, f) + place
}

// ---- from which register on they stand

// after the values of arguments
fn arguments_least(args: &[SpExpr]) -> u32
    requires { ArgsFit (map plain_sp args.now) FIRST }
    ensures { result ≡ specs.args_least (map plain_sp args.now) FIRST }
{
    let mut least = FIRST;
    let mut rd = FIRST;
    for e in args {
        least = least.max(rd + need_of(e));
        rd += 1;
    }
    least
}

fn target_least(target: &SpTarget) -> u32
    requires { TargetFits 0 (plain_sp_target target.now) }
    ensures { result ≡ specs.target_least (plain_sp_target target.now) }
{
    match target {
        SpTarget::Frame { .. } | SpTarget::Scalar { .. } => 0,
        SpTarget::Element { index, .. } => FIRST + 1 + need_of(index),
    }
}

// where the window of an earlier function ends
fn top_at(tops: &[u32], function: u32) -> u32
    ensures { result ≡ slice_index_or tops.now function 0 }
{
    match tops.get(function as usize) {
        Some(top) => *top,
        None => 0,
    }
}

#[cycle(least)]
#[tactic(auto, unfolding(sp_tree::specs::Shown::plain_stmt))]
fn statement_least(tops: &[u32], t: &SpStmt, frame: u32, counter: u32) -> u32
    requires { StmtFits frame counter (plain_stmt t.now) }
    ensures { result ≡ specs.stmt_least tops.now (plain_stmt t.now) }
{
    match t {
        SpStmt::Mask { value, .. } | SpStmt::Overrun { value, .. } => FIRST + need_of(value),
        SpStmt::Write { target, value, .. } => (FIRST + need_of(value)).max(target_least(target)),
        SpStmt::Call { function, args, .. } => {
            top_at(tops, *function).max(arguments_least(args.as_slice()))
        }
        SpStmt::Send {
            source,
            target,
            count,
            ..
        } => {
            let values = (FIRST + need_of(source)).max(
                (FIRST + 1 + need_of(target)).max(FIRST + 2 + need_of(count)),
            );
            values.max(FIRST + 4)
        }
        SpStmt::Iterations { body, .. } => {
            let inner = statements_least(tops, body.as_slice(), frame, counter - 1);
            FIRST.max(inner)
        }
    }
}

#[cycle(least)]
fn statements_least(tops: &[u32], body: &[SpStmt], frame: u32, counter: u32) -> u32
    requires { StmtsFit frame counter (stmts_of body.now) }
    ensures { result ≡ specs.stmts_least tops.now (stmts_of body.now) }
{
    let mut least = 0;
    for t in body {
        least = statement_least(tops, t, frame, counter).max(least);
    }
    least
}

/// From which register on the words of a function stand, where the windows of the earlier ones end there.
pub fn homes_over(tops: &[u32], f: &SpFunction) -> u32
    requires { FunctionFits (plain_function f.now) }
    ensures { result ≡ specs.homes_over tops.now (plain_function f.now) }
{
    (FIRST + f.parameters).max(statements_least(tops, f.body.as_slice(), f.frame, f.frame - 3))
}

/// Where the window of a function ends that begins with the register of this number.
#[tactic(auto, using(crate::proofs::Fitting::frame_least))]
pub fn top_from(homes: u32, f: &SpFunction) -> u32
    requires { FunctionFits (plain_function f.now) }
    ensures { result ≡ specs.top_from homes (plain_function f.now) }
{
    homes.saturating_add(f.frame - 2).min(OVERRUN)
}
