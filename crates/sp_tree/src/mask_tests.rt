//! Whether the statements of a function begin by testing its mask.
ghost use Rattle.std.specs.Prelude.{◌≡◌};
ghost use Rattle.sp_tree.specs.MaskTests as specs;
ghost use Rattle.sp_tree.specs.Plain.{plain_sp};
ghost use Rattle.sp_tree.specs.Shown.{stmts_of};

use crate::expressions::SpExpr;
use crate::operators::SpBinary;
use crate::statements::SpStmt;

#[tactic(auto, unfolding(crate::specs::Plain::plain_sp))]
fn is_word(word: u32, e: &SpExpr) -> bool
    ensures { result ≡ specs.is_word word (plain_sp e.now) }
{
    match e {
        SpExpr::Frame { slot } => *slot == word,
        _ => false,
    }
}

/// Whether an expression is the number 1.
#[tactic(auto, unfolding(crate::specs::Plain::plain_sp))]
pub fn is_one(e: &SpExpr) -> bool
    ensures { result ≡ specs.is_one (plain_sp e.now) }
{
    match e {
        SpExpr::Const { value } => *value == 1,
        _ => false,
    }
}

/// Whether the first statement sets the word of a mask to whether it is 1.
#[tactic(auto, unfolding(crate::specs::Plain::plain_sp, crate::specs::Shown::plain_stmt))]
pub fn tests_mask(mask: u32, body: &[SpStmt]) -> bool
    ensures { result ≡ specs.tests_mask mask (stmts_of body.now) }
{
    match body {
        [SpStmt::Mask { slot, value }, ..] => match value {
            SpExpr::Binary { op, a, b } => {
                *slot == mask && matches!(op, SpBinary::Equal) && is_word(mask, a) && is_one(b)
            }
            _ => false,
        },
        _ => false,
    }
}
