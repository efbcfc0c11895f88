//! Statements, made of actions.
ghost use Rattle.std.specs.Prelude.{◌≡◌, ◌==◌, ◌&&◌, ◌+◌, ◌<◌, ◌^◌, if◌then◌else◌, Option, map, option_map, IfOk, OnOk};
ghost use Rattle.sp_tree.specs.Plain.{plain_sp, frame_word};
ghost use Rattle.sp_tree.specs.Shown.{plain_sp_target, plain_stmt, stmts_of};
ghost use Rattle.sp_tree.specs.Statements.{masks, writes, calls, overruns, joined, no_stmt, one, stmt};
ghost use Rattle.sp_tree.specs.Statements as tree;
ghost use Rattle.c_meaning.specs.Shown.{plain_target, plain_assignment, plain_action, actions_of, branches_of};
ghost use Rattle.c_meaning.specs.Actions as plain;
ghost use Rattle.single_path.specs.Made as specs;
ghost use Rattle.single_path.specs.PartWords as part_words;
ghost use Rattle.single_path.specs.Widths as widths;

use crate::counted::{Start, is_counted, start_of};
use crate::exits::{any_exit, by_continue, by_return, choice_exits, ends, may_exit};
use crate::masks::{
    bit_of, broken, continued, not_zero, otherwise_mask, returned_function, returned_iteration,
    where_not_returned, where_on, where_so, word,
};
use crate::part_words::PartWords;
use c_meaning::{Action, Arguments, Assignment, Branch, Target};
use sp_tree::{SpExpr, SpStmt, SpTarget, copied};
use std::alloc::Global;
use tc_word::{List, OutOfMemory};

// one statement more
#[tactic(auto, using(crate::proofs::Stated::stmts_push))]
fn add(out: &mut Vec<SpStmt>, statement: SpStmt) -> Result<(), OutOfMemory>
    ensures { OnOk result (stmts_of out.new.items ≡ joined (stmts_of out.old.items) (one (plain_stmt statement))) }
{
    out.push(statement)?;
    Ok(())
}

/// A mask is set, after others.
#[tactic(auto, unfolding(sp_tree::specs::Shown::plain_stmt))]
pub fn add_mask(out: &mut Vec<SpStmt>, slot: u32, value: SpExpr) -> Result<(), OutOfMemory>
    ensures { OnOk result (stmts_of out.new.items
        ≡ joined (stmts_of out.old.items) (one (masks slot (plain_sp value)))) }
{
    add(out, SpStmt::Mask { slot, value })
}

#[tactic(auto, unfolding(sp_tree::specs::Shown::plain_stmt))]
fn add_write(
    out: &mut Vec<SpStmt>,
    mask: u32,
    target: SpTarget,
    value: SpExpr,
) -> Result<(), OutOfMemory>
    ensures { OnOk result (stmts_of out.new.items
        ≡ joined (stmts_of out.old.items) (one (writes mask (plain_sp_target target) (plain_sp value)))) }
{
    add(
        out,
        SpStmt::Write {
            mask,
            target,
            value,
        },
    )
}

#[tactic(auto, unfolding(sp_tree::specs::Shown::plain_stmt))]
fn add_overrun(out: &mut Vec<SpStmt>, mask: u32, value: SpExpr) -> Result<(), OutOfMemory>
    ensures { OnOk result (stmts_of out.new.items
        ≡ joined (stmts_of out.old.items) (one (overruns mask (plain_sp value)))) }
{
    add(out, SpStmt::Overrun { mask, value })
}

#[tactic(auto, using(sp_tree::proofs::Forms::plain_iterations))]
fn add_iterations(out: &mut Vec<SpStmt>, count: u32, body: List<SpStmt>) -> Result<(), OutOfMemory>
    ensures { OnOk result (stmts_of out.new.items
        ≡ joined (stmts_of out.old.items) (one (tree.iterations count (stmts_of body)))) }
{
    add(out, SpStmt::Iterations { count, body })
}

// what an action sets
fn target_of(target: Target) -> SpTarget
    ensures { plain_sp_target result ≡ specs.made_target (plain_target target) }
{
    match target {
        Target::Variable { level } => SpTarget::Frame { slot: level.number },
        Target::Scalar { word } => SpTarget::Scalar { cell: word.cell },
        Target::Element { array, index } => SpTarget::Element {
            array: array.words,
            index,
        },
    }
}

fn add_assignment(
    out: &mut Vec<SpStmt>,
    mask: u32,
    assignment: Assignment,
) -> Result<(), OutOfMemory>
    ensures { OnOk result (stmts_of out.new.items
        ≡ joined (stmts_of out.old.items) (one (specs.made_assignment mask (plain_assignment assignment)))) }
{
    let Assignment { target, value } = assignment;
    add_write(out, mask, target_of(target), value)
}

// what is set after each iteration
#[tactic(auto, using(crate::proofs::Stated::joined_none))]
fn add_step(out: &mut Vec<SpStmt>, mask: u32, step: Option<Assignment>) -> Result<(), OutOfMemory>
    ensures { OnOk result (stmts_of out.new.items
        ≡ joined (stmts_of out.old.items) (specs.made_step mask (option_map plain_assignment step))) }
{
    match step {
        None => Ok(()),
        Some(assignment) => add_assignment(out, mask, assignment),
    }
}

// ---- calls and sends

// a call, with the word of the frame that is set to what the function gives
#[tactic(auto, unfolding(sp_tree::specs::Shown::plain_stmt))]
fn add_call_to(
    out: &mut Vec<SpStmt>,
    mask: u32,
    function: u32,
    args: List<SpExpr>,
    given: Option<u32>,
) -> Result<(), OutOfMemory>
    ensures { OnOk result (stmts_of out.new.items
        ≡ joined (stmts_of out.old.items) (one (calls mask function (map plain_sp args) given))) }
{
    add(
        out,
        SpStmt::Call {
            mask,
            function,
            args,
            result: given,
        },
    )
}

#[tactic(auto, using(crate::proofs::Stated::joined_twice))]
fn add_call(
    part: PartWords,
    out: &mut Vec<SpStmt>,
    function: u32,
    args: Arguments,
    target: Option<Target>,
) -> Result<(), OutOfMemory>
    ensures { OnOk result (stmts_of out.new.items
        ≡ joined (stmts_of out.old.items)
        (specs.made_call part function (map plain_sp args.values) (option_map plain_target target))) }
{
    let Arguments { values, .. } = args;
    match target {
        None => add_call_to(out, part.own, function, values, None),
        Some(Target::Variable { level }) => {
            add_call_to(out, part.own, function, values, Some(level.number))
        }
        Some(target) => {
            add_call_to(out, part.own, function, values, Some(part.free))?;
            add_write(out, part.own, target_of(target), word(part.free))
        }
    }
}

#[tactic(auto, unfolding(sp_tree::specs::Shown::plain_stmt))]
fn add_send(
    out: &mut Vec<SpStmt>,
    mask: u32,
    core: u32,
    source: SpExpr,
    target: SpExpr,
    count: SpExpr,
) -> Result<(), OutOfMemory>
    ensures { OnOk result (stmts_of out.new.items
        ≡ joined (stmts_of out.old.items)
        (one (tree.transfers mask core (plain_sp source) (plain_sp target) (plain_sp count)))) }
{
    add(
        out,
        SpStmt::Send {
            mask,
            core,
            source,
            target,
            count,
        },
    )
}

// ---- ways on

// the result is 0 as it stands
#[tactic(auto, unfolding(sp_tree::specs::Plain::plain_sp))]
fn is_zero(e: &SpExpr) -> bool
    ensures { result ≡ specs.is_zero (plain_sp e.now) }
{
    match e {
        SpExpr::Const { value } => *value == 0,
        _ => false,
    }
}

#[tactic(auto, using(crate::proofs::Stated::joined_none))]
fn add_result(part: PartWords, out: &mut Vec<SpStmt>, e: SpExpr) -> Result<(), OutOfMemory>
    ensures { OnOk result (stmts_of out.new.items
        ≡ joined (stmts_of out.old.items) (specs.made_result part (plain_sp e))) }
{
    if is_zero(&e) {
        return Ok(());
    }
    add_write(out, part.own, SpTarget::Frame { slot: part.result }, e)
}

#[tactic(auto, using(crate::proofs::Stated::joined_one, crate::proofs::Stated::joined_two))]
fn add_return(
    alloc: Global,
    part: PartWords,
    out: &mut Vec<SpStmt>,
    e: SpExpr,
) -> Result<(), OutOfMemory>
    ensures { OnOk result (stmts_of out.new.items
        ≡ joined (stmts_of out.old.items) (specs.made_return part (plain_sp e))) }
{
    add_result(part, out, e)?;
    let function = returned_function(alloc, part)?;
    add_mask(out, part.function, function)?;
    if part.function != part.iteration {
        let iteration = returned_iteration(alloc, part)?;
        add_mask(out, part.iteration, iteration)?;
    }
    Ok(())
}

#[tactic(auto)]
fn add_break(alloc: Global, part: PartWords, out: &mut Vec<SpStmt>) -> Result<(), OutOfMemory>
    ensures { OnOk result (stmts_of out.new.items
        ≡ joined (stmts_of out.old.items) (specs.made_action None part plain.breaks)) }
{
    let iteration = broken(alloc, part)?;
    add_mask(out, part.iteration, iteration)
}

fn add_continue(alloc: Global, part: PartWords, out: &mut Vec<SpStmt>) -> Result<(), OutOfMemory>
    ensures { OnOk result (stmts_of out.new.items
        ≡ joined (stmts_of out.old.items) (specs.made_action None part plain.continues)) }
{
    let iteration = continued(alloc, part)?;
    add_mask(out, part.iteration, iteration)
}

// ---- arms

// the mask of an arm, and the arm's words
fn begin_arm(
    alloc: Global,
    part: PartWords,
    out: &mut Vec<SpStmt>,
    condition: SpExpr,
) -> Result<PartWords, OutOfMemory>
    requires { part.free + 1 < 2 ^ 32 }
    ensures arm { IfOk result (λ p. p ≡ part_words.in_arm part) }
    ensures mask { OnOk result (stmts_of out.new.items
        ≡ joined (stmts_of out.old.items)
        (one (masks part.free (part_words.where_so part.own (plain_sp condition))))) }
{
    let taken = where_so(alloc, part.own, condition)?;
    add_mask(out, part.free, taken)?;
    Ok(part.in_arm())
}

// the mask of what stands after `else`
fn begin_otherwise(
    alloc: Global,
    part: PartWords,
    exits: bool,
    out: &mut Vec<SpStmt>,
) -> Result<(), OutOfMemory>
    ensures { OnOk result (stmts_of out.new.items
        ≡ joined (stmts_of out.old.items) (one (masks part.free
        (if exits then part_words.where_not_taken part else part_words.where_other part)))) }
{
    let other = otherwise_mask(alloc, part, exits)?;
    add_mask(out, part.free, other)
}

// whether no arm is left, and nothing stands after the last `else`
#[tactic(auto, using(crate::proofs::Converted::no_actions))]
fn stands_nothing(arms: usize, otherwise: &[Action]) -> bool
    ensures { result ≡ (arms == 0 && specs.is_no_action (actions_of otherwise.now)) }
{
    arms == 0 && otherwise.is_empty()
}

// the mask of the part itself, where it is another than the loop's
#[tactic(auto, using(crate::proofs::Stated::joined_none))]
fn repair(alloc: Global, part: PartWords, out: &mut Vec<SpStmt>) -> Result<(), OutOfMemory>
    ensures { OnOk result (stmts_of out.new.items
        ≡ joined (stmts_of out.old.items) (specs.made_on part)) }
{
    if part.own == part.iteration {
        return Ok(());
    }
    let own = where_on(alloc, part)?;
    add_mask(out, part.own, own)
}

// after arms of which one may go elsewhere
#[tactic(auto, using(crate::proofs::Stated::joined_none))]
fn repair_after(
    alloc: Global,
    part: PartWords,
    out: &mut Vec<SpStmt>,
    exits: bool,
) -> Result<(), OutOfMemory>
    ensures { OnOk result (stmts_of out.new.items
        ≡ joined (stmts_of out.old.items) (specs.made_after part exits)) }
{
    if !exits {
        return Ok(());
    }
    repair(alloc, part, out)
}

// ---- loops

// the mask of the loop around, where there is one
#[tactic(auto, using(crate::proofs::Stated::joined_none))]
fn repair_iteration(
    alloc: Global,
    part: PartWords,
    out: &mut Vec<SpStmt>,
) -> Result<(), OutOfMemory>
    ensures { OnOk result (stmts_of out.new.items ≡ joined (stmts_of out.old.items)
        (if part.function == part.iteration then no_stmt else one (masks part.iteration (part_words.where_not_returned part)))) }
{
    if part.function == part.iteration {
        return Ok(());
    }
    let outer = where_not_returned(alloc, part)?;
    add_mask(out, part.iteration, outer)
}

// after a loop in which the function may return
#[tactic(auto, using(crate::proofs::Stated::joined_none, crate::proofs::Stated::joined_joined))]
fn repair_behind(
    alloc: Global,
    part: PartWords,
    out: &mut Vec<SpStmt>,
    exits: bool,
) -> Result<(), OutOfMemory>
    ensures { OnOk result (stmts_of out.new.items
        ≡ joined (stmts_of out.old.items) (specs.made_behind part exits)) }
{
    if !exits {
        return Ok(());
    }
    repair_iteration(alloc, part, out)?;
    repair(alloc, part, out)
}

// at the end of an iteration in which there may be a `continue`
#[tactic(auto, using(crate::proofs::Stated::joined_none))]
fn add_again(
    alloc: Global,
    part: PartWords,
    iteration: &mut Vec<SpStmt>,
    exits: bool,
) -> Result<(), OutOfMemory>
    ensures { OnOk result (stmts_of iteration.new.items
        ≡ joined (stmts_of iteration.old.items) (specs.made_again part exits)) }
{
    if !exits {
        return Ok(());
    }
    let again = not_zero(alloc, word(part.free))?;
    add_mask(iteration, part.free, again)
}

// the test of an iteration; the condition stands once more after the loop
fn begin_iteration(
    alloc: Global,
    part: PartWords,
    condition: &SpExpr,
) -> Result<Vec<SpStmt>, OutOfMemory>
    ensures { IfOk result (λ r. stmts_of r.items
        ≡ one (masks part.free (part_words.where_so part.free (plain_sp condition.now)))) }
{
    let mut iteration = Vec::new(alloc);
    let holds = copied(alloc, condition)?;
    let goes_on = where_so(alloc, part.free, holds)?;
    add_mask(&mut iteration, part.free, goes_on)?;
    Ok(iteration)
}

// the end of an iteration
#[tactic(auto, using(crate::proofs::Stated::joined_joined))]
fn end_iteration(
    alloc: Global,
    part: PartWords,
    iteration: &mut Vec<SpStmt>,
    exits: bool,
    step: Option<Assignment>,
) -> Result<(), OutOfMemory>
    ensures { OnOk result (stmts_of iteration.new.items ≡ joined (stmts_of iteration.old.items)
        (joined (specs.made_again part exits)
        (specs.made_step part.free (option_map plain_assignment step)))) }
{
    add_again(alloc, part, iteration, exits)?;
    add_step(iteration, part.free, step)
}

// a loop of one iteration or more
#[tactic(auto, using(crate::proofs::Stated::three_more))]
fn add_loop(
    alloc: Global,
    part: PartWords,
    out: &mut Vec<SpStmt>,
    max: u32,
    condition: SpExpr,
    exits: bool,
    iteration: List<SpStmt>,
) -> Result<(), OutOfMemory>
    ensures { OnOk result (stmts_of out.new.items ≡ joined (stmts_of out.old.items)
        (stmt (masks part.free (part_words.bit_of part.own))
        (stmt (tree.iterations max (stmts_of iteration)) (stmt (overruns part.free (plain_sp condition))
        (specs.made_behind part exits))))) }
{
    let on = bit_of(alloc, part.own)?;
    add_mask(out, part.free, on)?;
    add_iterations(out, max, iteration)?;
    add_overrun(out, part.free, condition)?;
    repair_behind(alloc, part, out, exits)
}

// the words of the body of a loop that counts
fn counted_part(part: PartWords, resumes: bool) -> PartWords
    requires { part.free + 1 < 2 ^ 32 }
    ensures { result ≡ specs.counted_part part resumes }
{
    if resumes {
        return part.in_counted();
    }
    part
}

// the mask of its iterations, where they have one of their own
#[tactic(auto, using(crate::proofs::Stated::joined_none))]
fn begin_counted(
    alloc: Global,
    part: PartWords,
    iteration: &mut Vec<SpStmt>,
    resumes: bool,
) -> Result<(), OutOfMemory>
    ensures { OnOk result (stmts_of iteration.new.items
        ≡ joined (stmts_of iteration.old.items) (specs.made_begun part resumes)) }
{
    if !resumes {
        return Ok(());
    }
    let on = bit_of(alloc, part.own)?;
    add_mask(iteration, part.free, on)
}

// ---- all actions

#[cycle(conversion)]
#[tactic(none)]
fn add_action(
    alloc: Global,
    known: Option<Start>,
    part: PartWords,
    out: &mut Vec<SpStmt>,
    action: Action,
) -> Result<(), OutOfMemory>
    requires { part.free + widths.action_masks (plain_action action) < 2 ^ 32 }
    ensures { OnOk result (stmts_of out.new.items
        ≡ joined (stmts_of out.old.items) (specs.made_action known part (plain_action action))) }
{
    match action {
        Action::Set { assignment } => add_assignment(out, part.own, assignment),
        Action::Call {
            function,
            args,
            target,
        } => add_call(part, out, function, args, target),
        Action::Send {
            core,
            source,
            target,
            count,
        } => add_send(out, part.own, core, source, target, count),
        Action::Choose {
            branches,
            otherwise,
        } => add_choice(alloc, part, out, branches, otherwise),
        Action::Loop {
            max,
            condition,
            body,
            step,
        } => {
            if is_counted(known, max, &condition, body.as_slice(), &step) {
                return add_counted(part, out, max, body, step);
            }
            add_repeated(part, out, max, condition, body, step)
        }
        Action::Break => add_break(alloc, part, out),
        Action::Continue => add_continue(alloc, part, out),
        Action::Return { value } => add_return(alloc, part, out, value),
    }
}

/// Statements that do what these actions do, after others.
#[cycle(conversion)]
#[tactic(auto)]
pub fn add_all(
    alloc: Global,
    part: PartWords,
    out: &mut Vec<SpStmt>,
    actions: List<Action>,
) -> Result<(), OutOfMemory>
    requires { part.free + widths.masks (actions_of actions) < 2 ^ 32 }
    ensures { OnOk result (stmts_of out.new.items
        ≡ joined (stmts_of out.old.items) (specs.made None part (actions_of actions))) }
{
    let mut known = None;
    for action in actions.into_vec() {
        let last = ends(&action);
        let next = start_of(&action);
        add_action(alloc, known, part, out, action)?;
        if last {
            return Ok(());
        }
        known = next;
    }
    Ok(())
}

// arms, and what stands after `else`, with the repair of the part's mask after them
#[cycle(conversion)]
#[tactic(auto, using(crate::proofs::Stated::joined_joined))]
fn add_choice(
    alloc: Global,
    part: PartWords,
    out: &mut Vec<SpStmt>,
    branches: List<Branch>,
    otherwise: List<Action>,
) -> Result<(), OutOfMemory>
    requires { part.free + widths.branches_masks (branches_of branches) (widths.masks (actions_of otherwise)) < 2 ^ 32 }
    ensures { OnOk result (stmts_of out.new.items
        ≡ joined (stmts_of out.old.items)
        (specs.made_action None part (plain.chooses (branches_of branches) (actions_of otherwise)))) }
{
    let exits = choice_exits(any_exit(), branches.as_slice(), otherwise.as_slice());
    add_arms(alloc, part, out, branches, otherwise)?;
    repair_after(alloc, part, out, exits)
}

// arms, each with those that stand after its `else`, under a mask of their own
#[cycle(conversion)]
#[tactic(auto)]
fn add_arms(
    alloc: Global,
    part: PartWords,
    out: &mut Vec<SpStmt>,
    branches: List<Branch>,
    otherwise: List<Action>,
) -> Result<(), OutOfMemory>
    requires { part.free + widths.branches_masks (branches_of branches) (widths.masks (actions_of otherwise)) < 2 ^ 32 }
    ensures { OnOk result (stmts_of out.new.items
        ≡ joined (stmts_of out.old.items)
        (specs.made_branches part (branches_of branches) (specs.is_no_action (actions_of otherwise))
        (λ q. specs.made None q (actions_of otherwise)))) }
{
    let mut around = part;
    let mut left = branches.into_vec().into_iter();
    while let Some(branch) = left.next() {
        let Branch { condition, body } = branch;
        let exits = may_exit(any_exit(), body.as_slice());
        let arm = begin_arm(alloc, around, out, condition)?;
        add_all(alloc, arm, out, body)?;
        if stands_nothing(left.len(), otherwise.as_slice()) {
            return Ok(());
        }
        begin_otherwise(alloc, around, exits, out)?;
        around = arm;
    }
    add_all(alloc, around, out, otherwise)
}

// a loop that counts
#[cycle(conversion)]
#[tactic(auto, using(crate::proofs::Stated::joined_none))]
fn add_counted(
    part: PartWords,
    out: &mut Vec<SpStmt>,
    max: u32,
    body: List<Action>,
    step: Option<Assignment>,
) -> Result<(), OutOfMemory>
    requires { part.free + (1 + widths.masks (actions_of body)) < 2 ^ 32 }
    ensures { OnOk result (stmts_of out.new.items ≡ joined (stmts_of out.old.items)
        (specs.made_counted part max (specs.actions_exit specs.by_continue (actions_of body))
        (specs.made None (specs.counted_part part (specs.actions_exit specs.by_continue (actions_of body)))
        (actions_of body)) (option_map plain_assignment step))) }
{
    let alloc = *out.allocator();
    let mut iteration = Vec::new(alloc);
    let resumes = may_exit(by_continue(), body.as_slice());
    let inner = counted_part(part, resumes);
    begin_counted(alloc, part, &mut iteration, resumes)?;
    add_all(alloc, inner, &mut iteration, body)?;
    add_step(&mut iteration, part.own, step)?;
    add_iterations(out, max, List::of(iteration))
}

// a loop
#[cycle(conversion)]
#[tactic(auto)]
fn add_repeated(
    part: PartWords,
    out: &mut Vec<SpStmt>,
    max: u32,
    condition: SpExpr,
    body: List<Action>,
    step: Option<Assignment>,
) -> Result<(), OutOfMemory>
    requires { part.free + widths.loop_masks max (widths.masks (actions_of body)) < 2 ^ 32 }
    ensures { OnOk result (stmts_of out.new.items ≡ joined (stmts_of out.old.items)
        (specs.made_loop part max (plain_sp condition) (specs.actions_exit specs.by_return (actions_of body))
        (specs.made_iteration part (plain_sp condition) (specs.actions_exit specs.by_continue (actions_of body))
        (specs.made None (part_words.in_loop part) (actions_of body)) (option_map plain_assignment step)))) }
{
    let alloc = *out.allocator();
    if max == 0 {
        return add_overrun(out, part.own, condition);
    }
    let again = may_exit(by_continue(), body.as_slice());
    let returned = may_exit(by_return(), body.as_slice());
    let mut iteration = begin_iteration(alloc, part, &condition)?;
    add_all(alloc, part.in_loop(), &mut iteration, body)?;
    end_iteration(alloc, part, &mut iteration, again, step)?;
    add_loop(
        alloc,
        part,
        out,
        max,
        condition,
        returned,
        List::of(iteration),
    )
}
