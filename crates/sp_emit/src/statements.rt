//! Statements.
ghost use Rattle.std.specs.Prelude.{◌≡◌, ◌+◌, ◌<◌, map, OnOk};
ghost use Rattle.sp_emit.specs.Fits.{ExprFits, ArgsFit, TargetFits, StmtFits, StmtsFit};
ghost use Rattle.sp_emit.specs.Statements as specs;
ghost use Rattle.sp_shape.specs.Parts.{joined};
ghost use Rattle.sp_shape.specs.Shown.{parts_of};
ghost use Rattle.sp_tree.specs.Plain.{plain_sp};
ghost use Rattle.sp_tree.specs.Shown.{plain_sp_target, plain_stmt, stmts_of};
ghost use Rattle.sp_tree.specs.Statements as plain;
ghost use Rattle.sp_emit.specs.Expressions.{expr_code};
ghost use Rattle.sp_emit.specs.declared.registers.TheConstants.{FIRST};
ghost use Rattle.slot_arbiter.specs.declared.table.TheConstants.{MOST_CORES};

use crate::calls::{begin_iterations, call_of, overrun, repeat, send};
use crate::expressions::{expression, expression_to, operands};
use crate::instructions::{always, under, where_so};
use crate::last::last_op;
use crate::parts::push_straight;
use crate::places::{flag_of, is_in_register, mask_test, set_word, told_at};
use crate::registers::{FIRST, reg, register_after};
use crate::stands::Homes;
use crate::truths::set_flag;
use crate::writes::{cell_write, element_write, slot_write};
use patmos_instr::{Op, Reg};
use sp_shape::Part;
use sp_tree::{SpExpr, SpStmt, SpTarget};
use tc_word::OutOfMemory;

// a target is set to the value in the first register
#[tactic(auto, using(crate::proofs::Pushed::two_pushed, crate::proofs::Fitting::target_mask, crate::proofs::Fitting::slot_fits, crate::proofs::Fitting::index_fits, crate::proofs::Fitting::cell_fits, crate::proofs::Fitting::array_fits))]
fn target(out: &mut Vec<Part>, homes: Homes, mask: u32, to: &SpTarget) -> Result<(), OutOfMemory>
    requires fits { TargetFits mask (plain_sp_target to.now) }
    ensures { OnOk result (parts_of out.new.items
        ≡ joined (parts_of out.old.items) (specs.target_write homes mask (plain_sp_target to.now))) }
{
    match to {
        SpTarget::Frame { slot } => slot_write(out, homes, mask, *slot),
        SpTarget::Scalar { cell } => cell_write(out, homes, mask, *cell),
        SpTarget::Element { array, index } => {
            expression(out, homes, index, register_after(reg(FIRST)))?;
            element_write(out, homes, mask, *array)
        }
    }
}

// the instruction in which a value ends, where it sets a word in a register
#[tactic(auto, unfolding(sp_tree::specs::Shown::plain_sp_target))]
fn straight_op(homes: Homes, to: &SpTarget, value: &SpExpr) -> Option<Op>
    requires { ExprFits (plain_sp value.now) FIRST }
    ensures { result ≡ specs.straight_op homes (plain_sp_target to.now) (plain_sp value.now) }
{
    match to {
        SpTarget::Frame { slot } if is_in_register(homes.first, *slot) => {
            last_op(homes, value, reg(FIRST), reg(homes.first + *slot))
        }
        _ => None,
    }
}

// a value's operands are worked out, and its instruction is done where a mask is 1
#[tactic(auto, using(crate::proofs::Pushed::two_pushed))]
fn guarded(
    out: &mut Vec<Part>,
    homes: Homes,
    mask: u32,
    value: &SpExpr,
    op: Op,
) -> Result<(), OutOfMemory>
    requires mask { mask < 128 }
    requires value { ExprFits (plain_sp value.now) FIRST }
    ensures { OnOk result (parts_of out.new.items
        ≡ joined (parts_of out.old.items) (specs.guarded_code homes mask (plain_sp value.now) op)) }
{
    operands(out, homes, value, reg(FIRST))?;
    let [load, test] = mask_test(homes, mask);
    push_straight(
        out,
        &[load, test, under(where_so(told_at(homes, mask)), op)],
    )
}

// a target is set to a value where a mask is 1
#[tactic(auto, using(crate::proofs::Pushed::two_pushed, crate::proofs::Pushed::guarded_pushed, crate::proofs::Pushed::stored_pushed, crate::proofs::Fitting::target_mask))]
fn write(
    out: &mut Vec<Part>,
    homes: Homes,
    mask: u32,
    to: &SpTarget,
    value: &SpExpr,
) -> Result<(), OutOfMemory>
    requires target { TargetFits mask (plain_sp_target to.now) }
    requires value { ExprFits (plain_sp value.now) FIRST }
    ensures { OnOk result (parts_of out.new.items
        ≡ joined (parts_of out.old.items) (specs.write_code homes mask (plain_sp_target to.now) (plain_sp value.now))) }
{
    if let Some(op) = straight_op(homes, to, value) {
        return guarded(out, homes, mask, value, op);
    }
    expression(out, homes, value, reg(FIRST))?;
    target(out, homes, mask, to)
}

// the values of arguments go to registers, one after another
#[tactic(auto, using(crate::proofs::Fitting::first_argument, crate::proofs::Fitting::room_behind))]
fn arguments(
    out: &mut Vec<Part>,
    homes: Homes,
    args: &[SpExpr],
    first: Reg,
) -> Result<(), OutOfMemory>
    requires fits { ArgsFit (map plain_sp args.now) first }
    ensures { OnOk result (parts_of out.new.items
        ≡ joined (parts_of out.old.items) (specs.args_code homes (map plain_sp args.now) first)) }
{
    let mut rd = first;
    for e in args {
        expression(out, homes, e, rd)?;
        rd = register_after(rd);
    }
    Ok(())
}

// the values of a send go to registers
#[tactic(auto, using(crate::proofs::Pushed::three_pushed))]
fn send_values(
    out: &mut Vec<Part>,
    homes: Homes,
    source: &SpExpr,
    target: &SpExpr,
    count: &SpExpr,
) -> Result<(), OutOfMemory>
    requires source { ExprFits (plain_sp source.now) FIRST }
    requires target { ExprFits (plain_sp target.now) (FIRST + 1) }
    requires count { ExprFits (plain_sp count.now) (FIRST + 2) }
    ensures { OnOk result (parts_of out.new.items ≡ joined (parts_of out.old.items)
        (joined (expr_code homes (plain_sp source.now) FIRST)
        (joined (expr_code homes (plain_sp target.now) (FIRST + 1)) (expr_code homes (plain_sp count.now) (FIRST + 2))))) }
{
    let first = reg(FIRST);
    let second = register_after(first);
    expression(out, homes, source, first)?;
    expression(out, homes, target, second)?;
    expression(out, homes, count, register_after(second))
}

// a send with its values
#[tactic(auto, using(crate::proofs::Pushed::send_pushed))]
fn send_of(
    out: &mut Vec<Part>,
    homes: Homes,
    mask: u32,
    core: u32,
    source: &SpExpr,
    target: &SpExpr,
    count: &SpExpr,
) -> Result<(), OutOfMemory>
    requires mask { mask < 128 }
    requires core { core < MOST_CORES }
    requires source { ExprFits (plain_sp source.now) FIRST }
    requires target { ExprFits (plain_sp target.now) (FIRST + 1) }
    requires count { ExprFits (plain_sp count.now) (FIRST + 2) }
    ensures { OnOk result (parts_of out.new.items ≡ joined (parts_of out.old.items)
        (specs.stmt_code homes 0 0 (plain.transfers mask core (plain_sp source.now) (plain_sp target.now)
        (plain_sp count.now)))) }
{
    send_values(out, homes, source, target, count)?;
    send(out, homes, mask, core)
}

// a word of the frame is set in any case: in a predicate and in a register straight, else from the first one
#[tactic(auto, using(crate::proofs::Pushed::two_pushed))]
fn mask(out: &mut Vec<Part>, homes: Homes, slot: u32, value: &SpExpr) -> Result<(), OutOfMemory>
    requires slot { slot < 128 }
    requires value { ExprFits (plain_sp value.now) FIRST }
    ensures { OnOk result (parts_of out.new.items
        ≡ joined (parts_of out.old.items) (specs.mask_code homes slot (plain_sp value.now))) }
{
    let first = reg(FIRST);
    if let Some(p) = flag_of(homes.flags, slot) {
        return set_flag(out, homes, p, value);
    }
    if is_in_register(homes.first, slot) {
        return expression_to(out, homes, value, first, reg(homes.first + slot));
    }
    expression(out, homes, value, first)?;
    push_straight(out, &[set_word(homes.first, always(), slot, first)])
}

/// The code of a statement stands after the parts. It is `Err` where memory runs out.
#[cycle(statement)]
#[tactic(auto, using(crate::proofs::Pushed::two_pushed, crate::proofs::Fitting::masks_value, crate::proofs::Fitting::masks_slot, crate::proofs::Fitting::writes_value, crate::proofs::Fitting::writes_target, crate::proofs::Fitting::calls_mask, crate::proofs::Fitting::calls_args, crate::proofs::Fitting::calls_result, crate::proofs::Fitting::sends_mask, crate::proofs::Fitting::sends_core, crate::proofs::Fitting::sends_source, crate::proofs::Fitting::sends_target, crate::proofs::Fitting::sends_count, crate::proofs::Fitting::overruns_mask, crate::proofs::Fitting::overruns_value), unfolding(sp_tree::specs::Shown::plain_stmt))]
pub fn statement(
    out: &mut Vec<Part>,
    homes: Homes,
    t: &SpStmt,
    frame: u32,
    counter: u32,
) -> Result<(), OutOfMemory>
    requires fits { StmtFits frame counter (plain_stmt t.now) }
    ensures { OnOk result (parts_of out.new.items
        ≡ joined (parts_of out.old.items) (specs.stmt_code homes frame counter (plain_stmt t.now))) }
{
    match t {
        SpStmt::Mask { slot, value } => mask(out, homes, *slot, value),
        SpStmt::Write {
            mask,
            target: to,
            value,
        } => write(out, homes, *mask, to, value),
        SpStmt::Call {
            mask,
            function,
            args,
            result,
        } => {
            arguments(out, homes, args.as_slice(), reg(FIRST))?;
            call_of(out, homes, frame, *mask, *function, *result)
        }
        SpStmt::Send {
            mask,
            core,
            source,
            target,
            count,
        } => send_of(out, homes, *mask, *core, source, target, count),
        SpStmt::Overrun { mask, value } => {
            expression(out, homes, value, reg(FIRST))?;
            overrun(out, homes, *mask)
        }
        SpStmt::Iterations { count, body } => iterations(
            out,
            homes,
            *count,
            body.as_slice(),
            frame,
            counter,
        ),
    }
}

// so many iterations of statements
#[cycle(statement)]
#[tactic(auto, using(crate::proofs::Pushed::iterations_pushed, crate::proofs::Fitting::counter_fits, crate::proofs::Fitting::counter_some, crate::proofs::Fitting::iterations_body))]
fn iterations(
    out: &mut Vec<Part>,
    homes: Homes,
    count: u32,
    body: &[SpStmt],
    frame: u32,
    counter: u32,
) -> Result<(), OutOfMemory>
    requires fits { StmtFits frame counter (plain.iterations count (stmts_of body.now)) }
    ensures { OnOk result (parts_of out.new.items
        ≡ joined (parts_of out.old.items) (specs.stmt_code homes frame counter (plain.iterations count (stmts_of body.now)))) }
{
    begin_iterations(out, homes.first, counter, count)?;
    let mut iteration = Vec::new(*out.allocator());
    statements(&mut iteration, homes, body, frame, counter - 1)?;
    repeat(out, homes.first, counter, count, iteration)
}

/// The code of statements stands after the parts. It is `Err` where memory runs out.
#[cycle(statement)]
#[tactic(auto)]
pub fn statements(
    out: &mut Vec<Part>,
    homes: Homes,
    body: &[SpStmt],
    frame: u32,
    counter: u32,
) -> Result<(), OutOfMemory>
    requires fits { StmtsFit frame counter (stmts_of body.now) }
    ensures { OnOk result (parts_of out.new.items
        ≡ joined (parts_of out.old.items) (specs.stmts_code homes frame counter (stmts_of body.now))) }
{
    for t in body {
        statement(out, homes, t, frame, counter)?;
    }
    Ok(())
}
