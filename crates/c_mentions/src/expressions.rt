//! What expressions mention.
ghost use Rattle.std.specs.Prelude.{map, option_map};
ghost use Rattle.c_tree.specs.Plain.{plain_expr, plain_right};
ghost use Rattle.c_tree.specs.Plains.{steps_of};
ghost use Rattle.c_mentions.specs.Noted.{Notes};
ghost use Rattle.c_mentions.specs.Uses.{expr_uses, steps_uses, args_uses, right_uses, first_uses, returned_uses};

use crate::arrays::Arrays;
use crate::noted::{Flags, note_read};
use c_tree::{Expr, Right, Step};

/// An expression.
#[cycle(expression)]
#[tactic(auto)]
pub fn note_expression(m: &mut Flags, hidden: Arrays, e: &Expr)
    ensures { Notes hidden m.old m.new (λ names. expr_uses names (plain_expr e.now)) }
{
    match e {
        Expr::Chain { first, rest, .. } => {
            note_expression(m, hidden, first);
            note_steps(m, hidden, rest.as_slice());
        }
        Expr::Unary { of, .. } => note_expression(m, hidden, of),
        Expr::Number { .. } => {}
        Expr::Name { name } => note_read(m, hidden, name.as_str()),
        Expr::Element { name, index } => {
            note_read(m, hidden, name.as_str());
            note_expression(m, hidden, index);
        }
        Expr::Paren { inner } => note_expression(m, hidden, inner),
    }
}

// the operands of a chain
#[cycle(expression)]
#[tactic(auto)]
fn note_steps(m: &mut Flags, hidden: Arrays, steps: &[Step])
    ensures { Notes hidden m.old m.new (λ names. steps_uses names (steps_of steps.now)) }
{
    for step in steps {
        note_expression(m, hidden, &step.operand);
    }
}

/// Arguments.
pub fn note_arguments(m: &mut Flags, hidden: Arrays, args: &[Expr])
    ensures { Notes hidden m.old m.new (λ names. args_uses names (map plain_expr args.now)) }
{
    for e in args {
        note_expression(m, hidden, e);
    }
}

/// A right side.
pub fn note_right(m: &mut Flags, hidden: Arrays, right: &Right)
    ensures { Notes hidden m.old m.new (λ names. right_uses names (plain_right right.now)) }
{
    match right {
        Right::Value { of } => note_expression(m, hidden, of),
        Right::Call { args, .. } => note_arguments(m, hidden, args.as_slice()),
    }
}

/// The first value of a variable, if that is written.
pub fn note_first(m: &mut Flags, hidden: Arrays, right: &Option<Right>)
    ensures { Notes hidden m.old m.new (λ names. first_uses names (option_map plain_right right.now)) }
{
    match right {
        None => {}
        Some(right) => note_right(m, hidden, right),
    }
}

/// What a function gives, if that is written.
pub fn note_returned(m: &mut Flags, hidden: Arrays, value: &Option<Expr>)
    ensures { Notes hidden m.old m.new (λ names. returned_uses names (option_map plain_expr value.now)) }
{
    match value {
        None => {}
        Some(e) => note_expression(m, hidden, e),
    }
}
