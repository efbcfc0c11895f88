//! Which words of a function's frame stand in predicates.
ghost use Rattle.std.specs.Prelude.{◌≡◌, is_none, slice_index_or};
ghost use Rattle.std.specs.List.{list_all};
ghost use Rattle.sp_emit.specs.Places.{flag_words, capped};
ghost use Rattle.sp_emit.specs.Fits.{FunctionFits};
ghost use Rattle.sp_emit.specs.Flags as specs;
ghost use Rattle.sp_tree.specs.Formed.{slots_of};
ghost use Rattle.sp_tree.specs.Plain.{plain_sp};
ghost use Rattle.sp_tree.specs.Shown.{plain_sp_target, plain_stmt, stmts_of, plain_function};

use crate::places::{flag_of, words_of};
use crate::stands::Flags;
use crate::truths::{is_joining, is_test, is_truth};
use sp_tree::{SpBinary, SpExpr, SpFunction, SpStmt, SpTarget, tests_mask};

// ---- when they may

fn target_hinders(flags: Flags, target: &SpTarget) -> bool
    ensures { result ≡ specs.target_hinders flags (plain_sp_target target.now) }
{
    match target {
        SpTarget::Frame { slot } => flag_of(flags, *slot).is_some(),
        _ => false,
    }
}

// whether the result of a call goes to one
fn result_hinders(flags: Flags, slot: Option<u32>) -> bool
    ensures { result ≡ specs.result_hinders flags slot }
{
    match slot {
        None => false,
        Some(slot) => flag_of(flags, slot).is_some(),
    }
}

// whether a statement writes one, sets one to what is no truth, or has a call whose result goes to one
#[cycle(hinders)]
#[tactic(auto, unfolding(sp_tree::specs::Shown::plain_stmt))]
fn statement_hinders(flags: Flags, t: &SpStmt) -> bool
    ensures { result ≡ specs.stmt_hinders flags (plain_stmt t.now) }
{
    match t {
        SpStmt::Mask { slot, value } => flag_of(flags, *slot).is_some() && !is_truth(flags, value),
        SpStmt::Write { target, .. } => target_hinders(flags, target),
        SpStmt::Call { result, .. } => result_hinders(flags, *result),
        SpStmt::Iterations { body, .. } => statements_hinder(flags, body.as_slice()),
        _ => false,
    }
}

#[cycle(hinders)]
#[tactic(auto)]
fn statements_hinder(flags: Flags, stmts: &[SpStmt]) -> bool
    ensures { result ≡ specs.stmts_hinder flags (stmts_of stmts.now) }
{
    for t in stmts {
        if statement_hinders(flags, t) {
            return true;
        }
    }
    false
}

/// The statements of a function's body that have code: all but the test of its mask where that stands in a predicate.
pub fn begun_body(flags: Flags, f: &SpFunction) -> &[SpStmt]
    ensures { stmts_of result.now ≡ specs.begun_body flags (plain_function f.now) }
{
    let body = f.body.as_slice();
    if flag_of(flags, f.mask).is_none() {
        return body;
    }
    match body {
        [_, rest @ ..] => rest,
        [] => body,
    }
}

// whether a word that does stands past so many words
fn is_past(most: u32, word: Option<u32>) -> bool
    ensures { result ≡ specs.is_past most word }
{
    match word {
        Some(word) => most <= word,
        None => true,
    }
}

// and whether all do
fn are_past(flags: Flags, most: u32) -> bool
    ensures { result ≡ list_all (specs.is_past most) (flag_words flags) }
{
    is_past(most, flags.first)
        && is_past(most, flags.second)
        && is_past(most, flags.third)
        && is_past(most, flags.fourth)
}

// whether they may all stand there in a function
fn function_stands(flags: Flags, f: &SpFunction) -> bool
    ensures { result ≡ specs.function_stands flags (plain_function f.now) }
{
    flag_of(flags, f.result).is_none()
        && are_past(flags, f.parameters)
        && (flag_of(flags, f.mask).is_none() || tests_mask(f.mask, f.body.as_slice()))
        && !statements_hinder(flags, begun_body(flags, f))
}

// ---- which do

// no words
fn no_flags() -> Flags
    ensures { result ≡ specs.no_flags }
{
    Flags {
        first: None,
        second: None,
        third: None,
        fourth: None,
    }
}

// one word more: the first one goes where there are four
fn with_flag(flags: Flags, slot: u32) -> Flags
    ensures { result ≡ specs.with_flag flags slot }
{
    let word = Some(slot);
    let Flags {
        first,
        second,
        third,
        fourth,
    } = flags;
    if first.is_none() {
        Flags {
            first: word,
            second,
            third,
            fourth,
        }
    } else if second.is_none() {
        Flags {
            first,
            second: word,
            third,
            fourth,
        }
    } else if third.is_none() {
        Flags {
            first,
            second,
            third: word,
            fourth,
        }
    } else if fourth.is_none() {
        Flags {
            first,
            second,
            third,
            fourth: word,
        }
    } else {
        Flags {
            first: second,
            second: third,
            third: fourth,
            fourth: word,
        }
    }
}

// whether a value is a truth if the words in it are, of which the first one that counts is a mask
#[tactic(auto, unfolding(sp_tree::specs::Plain::plain_sp))]
fn may_be(mask: u32, e: &SpExpr) -> bool
    ensures { result ≡ specs.may_be mask (plain_sp e.now) }
{
    match e {
        SpExpr::Const { value } => *value <= 1,
        SpExpr::Frame { slot } => mask <= *slot,
        SpExpr::Unary { .. } => is_test(e),
        SpExpr::Binary { op, a, b } => {
            is_test(e) || (is_joining(*op) && may_be(mask, a) && may_be(mask, b))
        }
        _ => false,
    }
}

fn is_target(slot: u32, target: &SpTarget) -> bool
    ensures { result ≡ specs.is_target slot (plain_sp_target target.now) }
{
    match target {
        SpTarget::Frame { slot: word } => *word == slot,
        _ => false,
    }
}

// whether a word is set to what is no truth, or by a write
#[cycle(spoils)]
#[tactic(auto, unfolding(sp_tree::specs::Shown::plain_stmt))]
fn statement_spoils(mask: u32, slot: u32, t: &SpStmt) -> bool
    ensures { result ≡ specs.stmt_spoils mask slot (plain_stmt t.now) }
{
    match t {
        SpStmt::Mask { slot: word, value } => *word == slot && !may_be(mask, value),
        SpStmt::Write { target, .. } => is_target(slot, target),
        SpStmt::Iterations { body, .. } => statements_spoil(mask, slot, body.as_slice()),
        _ => false,
    }
}

#[cycle(spoils)]
#[tactic(auto)]
fn statements_spoil(mask: u32, slot: u32, stmts: &[SpStmt]) -> bool
    ensures { result ≡ specs.stmts_spoil mask slot (stmts_of stmts.now) }
{
    for t in stmts {
        if statement_spoils(mask, slot, t) {
            return true;
        }
    }
    false
}

// ---- how often a word is named

fn named_as(slot: u32, word: u32) -> u32
    ensures { result ≡ specs.named_as slot word }
{
    if word == slot { 1 } else { 0 }
}

#[tactic(auto, unfolding(sp_tree::specs::Plain::plain_sp))]
fn expression_names(slot: u32, e: &SpExpr) -> u32
    ensures { result ≡ capped (specs.expr_names slot (plain_sp e.now)) }
{
    match e {
        SpExpr::Const { .. } | SpExpr::Scalar { .. } => 0,
        SpExpr::Frame { slot: word } => named_as(slot, *word),
        SpExpr::Element { index, .. } => expression_names(slot, index),
        SpExpr::Unary { of, .. } => expression_names(slot, of),
        SpExpr::Binary { a, b, .. } => {
            let first = expression_names(slot, a);
            let second = expression_names(slot, b);
            first.saturating_add(second)
        }
    }
}

#[cycle(names)]
#[tactic(auto, unfolding(sp_tree::specs::Shown::plain_stmt))]
fn statement_names(slot: u32, t: &SpStmt) -> u32
    ensures { result ≡ capped (specs.stmt_names slot (plain_stmt t.now)) }
{
    match t {
        SpStmt::Mask { slot: word, value } => {
            let inside = expression_names(slot, value);
            inside.saturating_add(named_as(slot, *word))
        }
        SpStmt::Write { mask, .. }
        | SpStmt::Call { mask, .. }
        | SpStmt::Send { mask, .. }
        | SpStmt::Overrun { mask, .. } => named_as(slot, *mask),
        SpStmt::Iterations { body, .. } => {
            let inside = statements_name(slot, body.as_slice());
            inside.saturating_mul(8)
        }
    }
}

#[cycle(names)]
#[tactic(auto)]
fn statements_name(slot: u32, stmts: &[SpStmt]) -> u32
    ensures { result ≡ capped (specs.stmts_name slot (stmts_of stmts.now)) }
{
    let mut total: u32 = 0;
    for t in stmts {
        let more = statement_names(slot, t);
        total = total.saturating_add(more);
    }
    total
}

fn times_named(f: &SpFunction, word: Option<u32>) -> u32
    ensures value { result ≡ specs.times_named (plain_function f.now) word }
{
    match word {
        None => 0,
        Some(slot) => statements_name(slot, f.body.as_slice()),
    }
}

fn flags_named(f: &SpFunction, flags: Flags) -> u64
    ensures { result ≡ specs.flags_named (plain_function f.now) flags }
{
    let first = u64::from(times_named(f, flags.first));
    let second = u64::from(times_named(f, flags.second));
    let third = u64::from(times_named(f, flags.third));
    let fourth = u64::from(times_named(f, flags.fourth));
    (first + second) + (third + fourth)
}

// ---- which do

// words that stand after one another among those of a function that may stand in predicates: the last ones so far, and
// those that the function names most
#[derive(Clone, Copy)]
pub struct Choice {
    pub last: Flags,
    pub best: Flags,
}

// whether a word is one of those that may stand in a predicate if the ones in its values do
fn may_stand(f: &SpFunction, slot: u32) -> bool
    ensures { result ≡ specs.may_stand (plain_function f.now) slot }
{
    f.mask <= slot
        && times_named(f, Some(slot)) > 0
        && !statements_spoil(f.mask, slot, f.body.as_slice())
}

fn heavier(f: &SpFunction, best: Flags, last: Flags) -> Flags
    ensures { result ≡ specs.heavier (plain_function f.now) best last }
{
    if flags_named(f, best) < flags_named(f, last) {
        last
    } else {
        best
    }
}

fn next_choice(f: &SpFunction, choice: Choice, slot: u32) -> Choice
    ensures { result ≡ specs.next_choice (plain_function f.now) choice slot }
{
    if !may_stand(f, slot) {
        return choice;
    }
    let last = with_flag(choice.last, slot);
    let best = heavier(f, choice.best, last);
    Choice { last, best }
}

fn choice_in(f: &SpFunction) -> Choice
    requires fits { FunctionFits (plain_function f.now) }
    ensures { result ≡ specs.first_choice (plain_function f.now) (slots_of (plain_function f.now)) }
{
    let mut choice = Choice {
        last: no_flags(),
        best: no_flags(),
    };
    for slot in 0..words_of(f) {
        choice = next_choice(f, choice, slot);
    }
    choice
}

// a word that is one of the first so many
fn if_within(count: u32, i: u32, word: Option<u32>) -> Option<u32>
    ensures { result ≡ specs.if_within count i word }
{
    if i < count { word } else { None }
}

// the first so many
fn first_flags(count: u32, flags: Flags) -> Flags
    ensures { result ≡ specs.first_flags count flags }
{
    Flags {
        first: if_within(count, 0, flags.first),
        second: if_within(count, 1, flags.second),
        third: if_within(count, 2, flags.third),
        fourth: if_within(count, 3, flags.fourth),
    }
}

// as many as may, at most so many
#[cycle(most)]
fn most_flags(count: u32, flags: Flags, f: &SpFunction) -> Flags
    ensures { result ≡ specs.most_flags count flags (plain_function f.now) }
{
    if count == 0 {
        return first_flags(0, flags);
    }
    let fewer = first_flags(count, flags);
    if function_stands(fewer, f) {
        fewer
    } else {
        most_flags(count - 1, flags, f)
    }
}

// ---- from which predicate on

// how many of the four the code of an earlier function may set
fn spared_at(tops: &[u32], function: u32) -> u32
    ensures { result ≡ slice_index_or tops.now function 4 }
{
    match tops.get(function as usize) {
        Some(top) => *top,
        None => 4,
    }
}

#[cycle(spared)]
#[tactic(auto, unfolding(sp_tree::specs::Shown::plain_stmt))]
fn statement_spared(tops: &[u32], t: &SpStmt) -> u32
    ensures { result ≡ specs.stmt_spared tops.now (plain_stmt t.now) }
{
    match t {
        SpStmt::Call { function, .. } => spared_at(tops, *function),
        SpStmt::Iterations { body, .. } => statements_spared(tops, body.as_slice()),
        _ => 0,
    }
}

/// How many of the four predicates the code may set of the functions that statements call, where it is told of each earlier
/// function how many its code may set.
#[cycle(spared)]
#[tactic(auto)]
pub fn statements_spared(tops: &[u32], stmts: &[SpStmt]) -> u32
    ensures { result ≡ specs.stmts_spared tops.now (stmts_of stmts.now) }
{
    let mut most = 0;
    for t in stmts {
        let spared = statement_spared(tops, t);
        most = spared.max(most);
    }
    most
}

// words so many predicates further on
fn moved_up(count: u32, flags: Flags) -> Flags
    ensures { result ≡ specs.moved_up count flags }
{
    let Flags {
        first,
        second,
        third,
        ..
    } = flags;
    if count == 0 {
        flags
    } else if count == 1 {
        Flags {
            first: None,
            second: first,
            third: second,
            fourth: third,
        }
    } else if count == 2 {
        Flags {
            first: None,
            second: None,
            third: first,
            fourth: second,
        }
    } else if count == 3 {
        Flags {
            first: None,
            second: None,
            third: None,
            fourth: first,
        }
    } else {
        no_flags()
    }
}

/// How many of the four predicates there are up to the last one that holds a word.
pub fn flags_end(flags: Flags) -> u32
    ensures { result ≡ specs.flags_end flags }
{
    if flags.fourth.is_some() {
        4
    } else if flags.third.is_some() {
        3
    } else if flags.second.is_some() {
        2
    } else if flags.first.is_some() {
        1
    } else {
        0
    }
}

/// The words of a function that stand in predicates, after so many of the four.
pub fn flags_from(base: u32, f: &SpFunction) -> Flags
    requires fits { FunctionFits (plain_function f.now) }
    ensures { result ≡ specs.flags_from base (plain_function f.now) }
{
    most_flags(4, moved_up(base, choice_in(f).best), f)
}
