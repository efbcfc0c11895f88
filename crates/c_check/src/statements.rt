//! Faults of statements.
ghost use Rattle.std.specs.Prelude.{◌≡◌, ◌+◌, length, take, option_map, OnOk};
ghost use Rattle.c_tree.specs.Least.{least_with};
ghost use Rattle.c_tree.specs.Plain.{plain_expr, plain_right, plain_head, plain_stmt};
ghost use Rattle.c_tree.specs.Sizes.{expr_size, argument_size, bound_size, head_size, stmt_size, arms_size, block_size};
ghost use Rattle.c_tree.specs.Sizes as sizes;
ghost use Rattle.c_tree.specs.Checks as faults;
ghost use Rattle.c_tree.specs.Names.{declared};
ghost use Rattle.c_tree.specs.Plains.{block_of, arms_of};
ghost use Rattle.c_check.specs.Open.{names_of};

use crate::expressions::{argument, array, call, right, scalar, whole};
use crate::names::Names;
use crate::walk::Walk;
use c_tree::{
    Arm, Bound, CheckFault, Expr, Head, Kind, MOST_ITERATIONS, Meaning, Right, Stmt, Within,
};
use tc_word::{OutOfMemory, Text};

/// How many tokens a type is written with.
pub fn kind_size(kind: Kind) -> usize
    ensures { result ≡ sizes.kind_size kind }
{
    match kind {
        Kind::Int | Kind::Unsigned => 1,
        Kind::UnsignedInt => 2,
    }
}

/// A name that is declared, where the first `outer` names are declared outside of the block.
pub fn twice(outer: usize, names: &Names<'_>, walk: &mut Walk, name: &Text)
    ensures at { walk.new.at ≡ walk.old.at }
    ensures least { walk.new.least
        ≡ least_with walk.old.least (faults.twice_faults outer (names_of names.now) walk.old.at name.now) }
{
    let declared = names.is_declared(name.as_str(), outer);
    walk.note_if(declared, CheckFault::Twice);
}

// a block's own statements, where so many names are open
fn opened(within: &Within, open_names: usize) -> Within
    ensures { result ≡ faults.opened within.now open_names }
{
    Within {
        outer: open_names,
        ..*within
    }
}

fn looped(within: &Within, open_names: usize) -> Within
    ensures { result ≡ faults.looped within.now open_names }
{
    Within {
        in_loop: true,
        outer: open_names,
        ..*within
    }
}

#[tactic(auto, using(c_tree::proofs::Leasts::least_of_both), unfolding(c_tree::specs::Sizes::stmt_size, c_tree::specs::Plain::plain_stmt))]
fn declare<'a>(
    outer: usize,
    names: &mut Names<'a>,
    walk: &mut Walk,
    kind: Kind,
    name: &'a Text,
    value: &Option<Right>,
) -> Result<(), OutOfMemory>
    ensures at { OnOk result (walk.new.at
        ≡ walk.old.at + stmt_size (plain_stmt (Stmt.Declare kind name.now value.now))) }
    ensures least { OnOk result (walk.new.least
        ≡ least_with walk.old.least (faults.declare_faults outer (names_of names.old) walk.old.at kind name.now
        (option_map plain_right value.now))) }
    ensures names { OnOk result (names_of names.new ≡ declared (names_of names.old) name.now Meaning.Scalar) }
{
    walk.pass(kind_size(kind))?;
    twice(outer, names, walk, name);
    names.declare(name.as_str(), Meaning::Scalar)?;
    match value {
        None => walk.pass(2),
        Some(value) => {
            walk.pass(2)?;
            right(names, walk, value)?;
            walk.pass(1)
        }
    }
}

#[tactic(auto, using(c_tree::proofs::Leasts::least_of_both), unfolding(c_tree::specs::Sizes::stmt_size, c_tree::specs::Plain::plain_stmt))]
fn set(names: &Names<'_>, walk: &mut Walk, name: &Text, value: &Right) -> Result<(), OutOfMemory>
    ensures at { OnOk result (walk.new.at ≡ walk.old.at + stmt_size (plain_stmt (Stmt.Set name.now value.now))) }
    ensures least { OnOk result (walk.new.least
        ≡ least_with walk.old.least (faults.set_faults (names_of names.now) walk.old.at name.now
        (plain_right value.now))) }
{
    scalar(names, walk, name);
    walk.pass(2)?;
    right(names, walk, value)?;
    walk.pass(1)
}

#[tactic(auto, using(c_tree::proofs::Leasts::least_of_both), unfolding(c_tree::specs::Sizes::stmt_size, c_tree::specs::Plain::plain_stmt))]
fn set_element(
    names: &Names<'_>,
    walk: &mut Walk,
    name: &Text,
    index: &Expr,
    value: &Right,
) -> Result<(), OutOfMemory>
    ensures at { OnOk result (walk.new.at
        ≡ walk.old.at + stmt_size (plain_stmt (Stmt.SetElement name.now index.now value.now))) }
    ensures least { OnOk result (walk.new.least
        ≡ least_with walk.old.least (faults.set_element_faults (names_of names.now) walk.old.at name.now
        (plain_expr index.now) (plain_right value.now))) }
{
    array(names, walk, name);
    walk.pass(2)?;
    whole(names, walk, index)?;
    walk.pass(2)?;
    right(names, walk, value)?;
    walk.pass(1)
}

/// What a send takes: the words' source, their target, and how many they are.
#[derive(Drop)]
struct Range<'a> {
    source: &'a Expr,
    target: &'a Expr,
    count: &'a Expr,
}

// the faults of a send, from its first word on
#[tactic(auto, using(crate::proofs::StmtRows::send_told))]
fn send(
    within: &Within,
    names: &Names<'_>,
    walk: &mut Walk,
    core: u32,
    range: &Range<'_>,
) -> Result<(), OutOfMemory>
    ensures at { OnOk result (walk.new.at
        ≡ walk.old.at + 4 + argument_size (plain_expr range.now.source.now)
        + argument_size (plain_expr range.now.target.now) + argument_size (plain_expr range.now.count.now)) }
    ensures least { OnOk result (walk.new.least
        ≡ least_with walk.old.least (faults.send_faults within.now.cores within.now.own
        (names_of names.now) walk.old.at core (plain_expr range.now.source.now) (plain_expr range.now.target.now)
        (plain_expr range.now.count.now))) }
{
    walk.pass(2)?;
    walk.note_if(
        core >= within.cores || core == within.own,
        CheckFault::Target,
    );
    walk.pass(2)?;
    argument(names, walk, range.source)?;
    argument(names, walk, range.target)?;
    argument(names, walk, range.count)
}

// a bound, or the loop's keyword where there is none
fn bound(walk: &mut Walk, bound: Option<Bound>) -> Result<(), OutOfMemory>
    ensures at { OnOk result (walk.new.at ≡ walk.old.at + bound_size bound) }
    ensures least { OnOk result (walk.new.least ≡ least_with walk.old.least (faults.bound_faults walk.old.at bound)) }
{
    match bound {
        None => {
            walk.note(CheckFault::NoBound);
            Ok(())
        }
        Some(bound) => {
            walk.note_if(
                bound.max < bound.min || bound.max > MOST_ITERATIONS,
                CheckFault::BoundRange,
            );
            walk.pass(1)
        }
    }
}

// a variable, and the expression that it is set to
#[tactic(auto, using(c_tree::proofs::Leasts::least_of_both))]
fn assigned(names: &Names<'_>, walk: &mut Walk, name: &Text, e: &Expr) -> Result<(), OutOfMemory>
    ensures at { OnOk result (walk.new.at ≡ walk.old.at + 2 + expr_size (plain_expr e.now)) }
    ensures least { OnOk result (walk.new.least
        ≡ least_with walk.old.least (faults.assigned_faults (names_of names.now) walk.old.at name.now
        (plain_expr e.now))) }
{
    scalar(names, walk, name);
    walk.pass(2)?;
    whole(names, walk, e)
}

#[tactic(auto, using(c_tree::proofs::Leasts::least_of_both))]
fn head(names: &Names<'_>, walk: &mut Walk, h: &Head) -> Result<(), OutOfMemory>
    ensures at { OnOk result (walk.new.at ≡ walk.old.at + head_size (plain_head h.now)) }
    ensures least { OnOk result (walk.new.least
        ≡ least_with walk.old.least (faults.head_faults (names_of names.now) walk.old.at (plain_head h.now))) }
{
    match h {
        Head::While { condition } => {
            walk.pass(2)?;
            whole(names, walk, condition)?;
            walk.pass(1)
        }
        Head::For {
            first,
            from,
            condition,
            step,
            to,
        } => {
            walk.pass(2)?;
            assigned(names, walk, first, from)?;
            walk.pass(1)?;
            whole(names, walk, condition)?;
            walk.pass(1)?;
            assigned(names, walk, step, to)?;
            walk.pass(1)
        }
    }
}

#[tactic(auto, using(c_tree::proofs::Leasts::least_of_both), unfolding(c_tree::specs::Sizes::stmt_size, c_tree::specs::Plain::plain_stmt))]
fn returned(
    gives: bool,
    names: &Names<'_>,
    walk: &mut Walk,
    value: &Option<Expr>,
) -> Result<(), OutOfMemory>
    ensures at { OnOk result (walk.new.at ≡ walk.old.at + stmt_size (plain_stmt (Stmt.Return value.now))) }
    ensures least { OnOk result (walk.new.least
        ≡ least_with walk.old.least (faults.return_faults gives (names_of names.now) walk.old.at
        (option_map plain_expr value.now))) }
{
    match value {
        None => {
            walk.note_if(gives, CheckFault::WrongType);
            walk.pass(2)
        }
        Some(value) => {
            walk.note_if(!gives, CheckFault::WrongType);
            walk.pass(1)?;
            whole(names, walk, value)?;
            walk.pass(1)
        }
    }
}

// a bound and the head of a loop
fn loop_head(
    names: &Names<'_>,
    walk: &mut Walk,
    b: Option<Bound>,
    h: &Head,
) -> Result<(), OutOfMemory>
    ensures at { OnOk result (walk.new.at ≡ walk.old.at + bound_size b + head_size (plain_head h.now)) }
    ensures least { OnOk result (walk.new.least
        ≡ least_with (least_with walk.old.least (faults.bound_faults walk.old.at b))
        (faults.head_faults (names_of names.now) (walk.old.at + bound_size b) (plain_head h.now))) }
{
    bound(walk, b)?;
    head(names, walk, h)
}

/// A statement.
#[cycle(statement)]
#[tactic(auto, using(crate::proofs::StmtRows::statement_rows))]
fn stmt<'a>(
    within: &Within,
    names: &mut Names<'a>,
    walk: &mut Walk,
    s: &'a Stmt,
) -> Result<(), OutOfMemory>
    ensures at { OnOk result (walk.new.at ≡ walk.old.at + stmt_size (plain_stmt s.now)) }
    ensures least { OnOk result (walk.new.least
        ≡ least_with walk.old.least (faults.stmt_faults within.now (names_of names.old) walk.old.at
        (plain_stmt s.now))) }
    ensures names { OnOk result (names_of names.new ≡ faults.after (names_of names.old) (plain_stmt s.now)) }
{
    match s {
        Stmt::Declare { kind, name, right } => {
            declare(within.outer, names, walk, *kind, name, right)
        }
        Stmt::Set { name, right } => set(names, walk, name, right),
        Stmt::SetElement { name, index, right } => set_element(names, walk, name, index, right),
        Stmt::Call { name, args } => {
            call(names, walk, false, name, args.as_slice())?;
            walk.pass(1)
        }
        Stmt::Send {
            core,
            source,
            target,
            count,
            ..
        } => {
            let range = Range {
                source,
                target,
                count,
            };
            send(within, names, walk, *core, &range)?;
            walk.pass(1)
        }
        Stmt::If { arms, otherwise } => {
            branches(within, names, walk, arms.as_slice())?;
            match otherwise {
                None => Ok(()),
                Some(body) => last(within, names, walk, body.as_slice()),
            }
        }
        Stmt::Loop {
            bound: b,
            head: h,
            body,
        } => {
            loop_head(names, walk, *b, h)?;
            let inner = looped(within, names.len());
            block(&inner, names, walk, body.as_slice())
        }
        Stmt::Break | Stmt::Continue => {
            walk.note_if(!within.in_loop, CheckFault::WrongType);
            walk.pass(2)
        }
        Stmt::Return { value } => returned(within.gives, names, walk, value),
        Stmt::Inner { body } => {
            let inner = opened(within, names.len());
            block(&inner, names, walk, body.as_slice())
        }
    }
}

/// Statements one after another. The names that they declare stay open.
#[cycle(statement)]
#[tactic(auto, using(crate::proofs::Next::body_next, crate::proofs::Kept::kept_after), unfolding(c_tree::specs::Checks::block_faults))]
pub fn statements<'a>(
    within: &Within,
    names: &mut Names<'a>,
    walk: &mut Walk,
    body: &'a [Stmt],
) -> Result<(), OutOfMemory>
    ensures at { OnOk result (walk.new.at ≡ walk.old.at + block_size (block_of body.now)) }
    ensures least { OnOk result (walk.new.least
        ≡ least_with walk.old.least (faults.block_faults within.now (names_of names.old) walk.old.at
        (block_of body.now))) }
    ensures kept { OnOk result (take (length (names_of names.old)) (names_of names.new) ≡ names_of names.old) }
{
    for s in body {
        stmt(within, names, walk, s)?;
    }
    Ok(())
}

// a block in braces, whose names are closed at its end
#[cycle(statement)]
fn block<'a>(
    within: &Within,
    names: &mut Names<'a>,
    walk: &mut Walk,
    body: &'a [Stmt],
) -> Result<(), OutOfMemory>
    ensures at { OnOk result (walk.new.at ≡ walk.old.at + 2 + block_size (block_of body.now)) }
    ensures least { OnOk result (walk.new.least
        ≡ least_with walk.old.least (faults.block_faults within.now (names_of names.old) (walk.old.at
        + 1) (block_of body.now))) }
    ensures names { OnOk result (names_of names.new ≡ names_of names.old) }
{
    let open_names = names.len();
    walk.pass(1)?;
    statements(within, names, walk, body)?;
    names.close(open_names);
    walk.pass(1)
}

// an arm, from its `if`
#[cycle(statement)]
#[tactic(auto, using(c_tree::proofs::Leasts::least_of_both))]
fn branch<'a>(
    within: &Within,
    names: &mut Names<'a>,
    walk: &mut Walk,
    arm: &'a Arm,
) -> Result<(), OutOfMemory>
    ensures at { OnOk result (walk.new.at
        ≡ walk.old.at + expr_size (plain_expr arm.now.condition) + block_size (block_of arm.now.body) + 5) }
    ensures least { OnOk result (walk.new.least
        ≡ least_with (least_with walk.old.least
        (faults.whole_faults (names_of names.old) (walk.old.at + 2) (plain_expr arm.now.condition)))
        (faults.block_faults (faults.opened within.now (length (names_of names.old))) (names_of names.old)
        (walk.old.at + 2 + expr_size (plain_expr arm.now.condition) + 2) (block_of arm.now.body))) }
    ensures names { OnOk result (names_of names.new ≡ names_of names.old) }
{
    walk.pass(2)?;
    whole(names, walk, &arm.condition)?;
    walk.pass(1)?;
    let inner = opened(within, names.len());
    block(&inner, names, walk, arm.body.as_slice())
}

// arms, with `else` between them
#[cycle(statement)]
#[tactic(auto, using(crate::proofs::Sums::arms_sized), unfolding(c_tree::specs::Checks::arms_faults, c_tree::specs::Sizes::arms_size))]
fn branches<'a>(
    within: &Within,
    names: &mut Names<'a>,
    walk: &mut Walk,
    arms: &'a [Arm],
) -> Result<(), OutOfMemory>
    ensures at { OnOk result (walk.new.at ≡ walk.old.at + arms_size (arms_of arms.now)) }
    ensures least { OnOk result (walk.new.least
        ≡ least_with walk.old.least (faults.arms_faults within.now (names_of names.old) walk.old.at
        (arms_of arms.now))) }
    ensures names { OnOk result (names_of names.new ≡ names_of names.old) }
{
    for arm in arms {
        branch(within, names, walk, arm)?;
        walk.pass(1)?;
    }
    // no `else` stands after the last
    if !arms.is_empty() {
        walk.back();
    }
    Ok(())
}

// `else` and its block
#[cycle(statement)]
fn last<'a>(
    within: &Within,
    names: &mut Names<'a>,
    walk: &mut Walk,
    body: &'a [Stmt],
) -> Result<(), OutOfMemory>
    ensures at { OnOk result (walk.new.at ≡ walk.old.at + (3 + block_size (block_of body.now))) }
    ensures least { OnOk result (walk.new.least
        ≡ least_with walk.old.least (faults.block_faults (faults.opened within.now (length (names_of names.old)))
        (names_of names.old) (walk.old.at + 1 + 1) (block_of body.now))) }
    ensures names { OnOk result (names_of names.new ≡ names_of names.old) }
{
    walk.pass(1)?;
    let inner = opened(within, names.len());
    block(&inner, names, walk, body)
}
