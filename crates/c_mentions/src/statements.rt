//! What statements mention.
ghost use Rattle.std.specs.Prelude.{◌≡◌, ◌∷◌, ◌++◌};
ghost use Rattle.c_tree.specs.Plain.{plain_expr, plain_head, plain_stmt};
ghost use Rattle.c_tree.specs.Plains.{block_of, arms_of};
ghost use Rattle.c_meaning.specs.Meaning.{names_after};
ghost use Rattle.c_meaning.specs.Values.{Names};
ghost use Rattle.c_mentions.specs.Hidden.{Hides};
ghost use Rattle.c_mentions.specs.Noted.{Notes};
ghost use Rattle.c_mentions.specs.Uses.{sends, expr_uses, head_uses, stmt_uses, block_uses, arms_uses};

use crate::arrays::{Arrays, hidden_behind};
use crate::expressions::{note_arguments, note_expression, note_first, note_returned, note_right};
use crate::noted::{Flags, note_send, note_set};
use c_tree::{Arm, Expr, Head, Stmt};

// how a loop goes on
fn note_head(m: &mut Flags, hidden: Arrays, head: &Head)
    ensures { Notes hidden m.old m.new (λ names. head_uses names (plain_head head.now)) }
{
    match head {
        Head::While { condition } => note_expression(m, hidden, condition),
        Head::For {
            first,
            from,
            condition,
            step,
            to,
        } => {
            note_set(m, hidden, first.as_str());
            note_expression(m, hidden, from);
            note_expression(m, hidden, condition);
            note_set(m, hidden, step.as_str());
            note_expression(m, hidden, to);
        }
    }
}

// words that are sent
fn note_sending(
    m: &mut Flags,
    hidden: Arrays,
    core: u32,
    source: &Expr,
    target: &Expr,
    count: &Expr,
)
    ensures { Notes hidden m.old m.new (λ names. sends core
        ∷ (expr_uses names (plain_expr source.now)
        ++ (expr_uses names (plain_expr target.now) ++ expr_uses names (plain_expr count.now)))) }
{
    note_send(m, core);
    note_expression(m, hidden, source);
    note_expression(m, hidden, target);
    note_expression(m, hidden, count);
}

// which arrays are hidden after a statement: a declaration alone hides more
fn hidden_after(hidden: Arrays, s: &Stmt) -> Arrays
    ensures { (names : Names) → Hides hidden names → Hides result (names_after names (plain_stmt s.now)) }
{
    match s {
        Stmt::Declare { name, .. } => hidden_behind(hidden, name.as_str()),
        Stmt::Set { .. } => hidden,
        Stmt::SetElement { .. } => hidden,
        Stmt::Call { .. } => hidden,
        Stmt::Send { .. } => hidden,
        Stmt::If { .. } => hidden,
        Stmt::Loop { .. } => hidden,
        Stmt::Break => hidden,
        Stmt::Continue => hidden,
        Stmt::Return { .. } => hidden,
        Stmt::Inner { .. } => hidden,
    }
}

// a statement: a variable that is declared stands in its own first value
#[cycle(statement)]
#[tactic(auto)]
fn note_statement(m: &mut Flags, hidden: Arrays, s: &Stmt)
    ensures { Notes hidden m.old m.new (λ names. stmt_uses names (plain_stmt s.now)) }
{
    match s {
        Stmt::Declare { name, right, .. } => {
            let behind = hidden_behind(hidden, name.as_str());
            note_first(m, behind, right);
        }
        Stmt::Set { name, right } => {
            note_set(m, hidden, name.as_str());
            note_right(m, hidden, right);
        }
        Stmt::SetElement { name, index, right } => {
            note_set(m, hidden, name.as_str());
            note_expression(m, hidden, index);
            note_right(m, hidden, right);
        }
        Stmt::Call { args, .. } => note_arguments(m, hidden, args.as_slice()),
        Stmt::Send {
            core,
            source,
            target,
            count,
            ..
        } => note_sending(m, hidden, *core, source, target, count),
        Stmt::If { arms, otherwise } => {
            note_arms(m, hidden, arms.as_slice());
            match otherwise {
                None => {}
                Some(body) => note_block(m, hidden, body.as_slice()),
            }
        }
        Stmt::Loop { head, body, .. } => {
            note_head(m, hidden, head);
            note_block(m, hidden, body.as_slice());
        }
        Stmt::Break => {}
        Stmt::Continue => {}
        Stmt::Return { value } => note_returned(m, hidden, value),
        Stmt::Inner { body } => note_block(m, hidden, body.as_slice()),
    }
}

/// The statements of a block, whose names are closed at its end.
#[cycle(statement)]
#[tactic(auto)]
pub fn note_block(m: &mut Flags, hidden: Arrays, body: &[Stmt])
    ensures { Notes hidden m.old m.new (λ names. block_uses names (block_of body.now)) }
{
    let mut behind = hidden;
    for s in body {
        note_statement(m, behind, s);
        behind = hidden_after(behind, s);
    }
}

// the arms of an `if`
#[cycle(statement)]
#[tactic(auto)]
fn note_arms(m: &mut Flags, hidden: Arrays, arms: &[Arm])
    ensures { Notes hidden m.old m.new (λ names. arms_uses names (arms_of arms.now)) }
{
    for arm in arms {
        note_expression(m, hidden, &arm.condition);
        note_block(m, hidden, arm.body.as_slice());
    }
}
