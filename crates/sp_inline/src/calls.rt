//! The statements that stand in the place of a call.
ghost use Rattle.std.specs.Prelude.{◌≡◌, ◌+◌, ◌-◌, ◌<◌, ◌≤◌, ◌^◌, [], length, map, IfOk, OnOk};
ghost use Rattle.sp_tree.specs.Plain.{plain_sp};
ghost use Rattle.sp_tree.specs.Shown.{plain_function, plain_stmt, stmts_of};
ghost use Rattle.sp_tree.specs.Statements.{joined, one, masks};
ghost use Rattle.sp_inline.specs.Shown.{args_of, statements_for};
ghost use Rattle.sp_inline.specs.Taken as specs;
ghost use Rattle.sp_inline.specs.Reach.{stmts_reach};

use crate::measured::Measured;
use crate::moves::add_moved;
use sp_tree::{SpBinary, SpExpr, SpStmt, SpTarget, between_operands, copied};
use std::alloc::Global;
use tc_word::OutOfMemory;

/// A call: the word of its mask, the number of its function, its arguments, and the word that is set, if one is.
#[derive(Clone, Copy, Debug)]
pub struct Call<'a> {
    pub mask: u32,
    pub function: u32,
    pub args: &'a [SpExpr],
    pub result: Option<u32>,
}

/// One statement more.
#[tactic(auto, using(crate::proofs::Steps::one_more))]
pub fn add(out: &mut Vec<SpStmt>, statement: SpStmt) -> Result<(), OutOfMemory>
    ensures { OnOk result (stmts_of out.new.items ≡ joined (stmts_of out.old.items) (one (plain_stmt statement))) }
{
    out.push(statement)?;
    Ok(())
}

// a word is set in any case
#[tactic(auto, unfolding(sp_tree::specs::Shown::plain_stmt))]
fn add_mask(out: &mut Vec<SpStmt>, slot: u32, value: SpExpr) -> Result<(), OutOfMemory>
    ensures { OnOk result (stmts_of out.new.items
        ≡ joined (stmts_of out.old.items) (one (masks slot (plain_sp value)))) }
{
    add(out, SpStmt::Mask { slot, value })
}

// the words from a place on are set to the arguments
fn add_arguments(
    alloc: Global,
    place: u32,
    args: &[SpExpr],
    out: &mut Vec<SpStmt>,
) -> Result<(), OutOfMemory>
    requires { place + length args.now < 2 ^ 32 }
    ensures { OnOk result (stmts_of out.new.items
        ≡ joined (stmts_of out.old.items) (specs.begun_words place (length args.now) (map plain_sp args.now))) }
{
    for (k, e) in args.iter().enumerate() {
        let value = copied(alloc, e)?;
        add_mask(out, place + k as u32, value)?;
    }
    Ok(())
}

// a word is set to 0
#[tactic(auto, unfolding(sp_tree::specs::Plain::plain_sp))]
fn add_zero(out: &mut Vec<SpStmt>, slot: u32) -> Result<(), OutOfMemory>
    ensures { OnOk result (stmts_of out.new.items
        ≡ joined (stmts_of out.old.items) (specs.begun_words slot 1 [])) }
{
    add_mask(out, slot, SpExpr::Const { value: 0 })
}

// the words from one on up to another are set to 0
fn add_zeros(out: &mut Vec<SpStmt>, from: u32, to: u32) -> Result<(), OutOfMemory>
    requires { from ≤ to }
    ensures { OnOk result (stmts_of out.new.items
        ≡ joined (stmts_of out.old.items) (specs.begun_words from (to - from) [])) }
{
    for slot in from..to {
        add_zero(out, slot)?;
    }
    Ok(())
}

// what the mask of a function is, which may begin by testing it
#[tactic(auto, unfolding(sp_tree::specs::Plain::plain_sp))]
fn call_mask(alloc: Global, tests: bool, mask: u32) -> Result<SpExpr, OutOfMemory>
    ensures { IfOk result (λ e. plain_sp e ≡ specs.call_mask tests mask) }
{
    let word = SpExpr::Frame { slot: mask };
    if tests {
        between_operands(alloc, SpBinary::Equal, word, SpExpr::Const { value: 1 })
    } else {
        Ok(word)
    }
}

// the words from a place on up to that of the mask are set to the arguments, and then to 0
fn add_handed(
    alloc: Global,
    place: u32,
    callee: &Measured,
    call: &Call<'_>,
    out: &mut Vec<SpStmt>,
) -> Result<(), OutOfMemory>
    requires room { place + callee.now.function.mask + 1 < 2 ^ 32 }
    requires few { length call.now.args.now ≤ callee.now.function.mask }
    ensures { let mask = callee.now.function.mask in
        OnOk result (stmts_of out.new.items ≡ joined (stmts_of out.old.items) (specs.begun_words place (mask + 1)
        (specs.handed mask (specs.call_mask callee.now.tests call.now.mask) (args_of call.now)))) }
{
    let mask = callee.function.mask;
    add_arguments(alloc, place, call.args, out)?;
    add_zeros(out, place + call.args.len() as u32, place + mask)?;
    let value = call_mask(alloc, callee.tests, call.mask)?;
    add_mask(out, place + mask, value)
}

// the words of a function from a place on are set as it begins with them
fn add_begun(
    alloc: Global,
    place: u32,
    callee: &Measured,
    call: &Call<'_>,
    out: &mut Vec<SpStmt>,
) -> Result<(), OutOfMemory>
    requires room { place + callee.now.words < 2 ^ 32 }
    requires mask { callee.now.function.mask < callee.now.words }
    requires few { length call.now.args.now ≤ callee.now.function.mask }
    ensures { OnOk result (stmts_of out.new.items ≡ joined (stmts_of out.old.items)
        (specs.begun_words place callee.now.words (specs.handed callee.now.function.mask
        (specs.call_mask callee.now.tests call.now.mask) (args_of call.now)))) }
{
    add_handed(alloc, place, callee, call, out)?;
    add_zeros(out, place + callee.function.mask + 1, place + callee.words)
}

// under a mask a word is set to another, if one is to be set
#[tactic(auto, using(crate::proofs::Steps::nothing_set), unfolding(sp_tree::specs::Plain::plain_sp, sp_tree::specs::Shown::plain_stmt))]
fn add_given(
    out: &mut Vec<SpStmt>,
    mask: u32,
    given: Option<u32>,
    from: u32,
) -> Result<(), OutOfMemory>
    ensures { OnOk result (stmts_of out.new.items
        ≡ joined (stmts_of out.old.items) (specs.given_set mask given from)) }
{
    match given {
        None => Ok(()),
        Some(slot) => add(
            out,
            SpStmt::Write {
                mask,
                target: SpTarget::Frame { slot },
                value: SpExpr::Frame { slot: from },
            },
        ),
    }
}

/// The statements of a function, over the words from a place on, in the place of a call.
pub fn add_call(
    alloc: Global,
    place: u32,
    callee: &Measured,
    call: &Call<'_>,
    out: &mut Vec<SpStmt>,
) -> Result<(), OutOfMemory>
    requires room { place + callee.now.words < 2 ^ 32 }
    requires few { length call.now.args.now ≤ callee.now.function.mask }
    requires reach { stmts_reach (stmts_of callee.now.function.body) ≤ callee.now.words }
    requires mask { callee.now.function.mask < callee.now.words }
    requires result { callee.now.function.result < callee.now.words }
    ensures { OnOk result (stmts_of out.new.items ≡ joined (stmts_of out.old.items)
        (statements_for place (plain_function callee.now.function) call.now)) }
{
    add_begun(alloc, place, callee, call, out)?;
    add_moved(alloc, place, out, callee.statements())?;
    add_given(out, call.mask, call.result, place + callee.function.result)
}
