//! Which statements of a function stand in the place of a call: all but a mask that is set last.
ghost use Rattle.std.specs.Prelude.{◌≡◌, false};
ghost use Rattle.sp_tree.specs.Shown.{plain_stmt, stmts_of};
ghost use Rattle.sp_inline.specs.Kept.{kept_count};
ghost use Rattle.sp_inline.specs.Taken as specs;

use sp_tree::SpStmt;

// whether a statement sets a word in any case, which is not that of the result
#[tactic(auto, unfolding(sp_tree::specs::Shown::plain_stmt))]
fn is_other_mask(result_slot: u32, t: &SpStmt) -> bool
    ensures { result ≡ specs.is_other_mask result_slot (plain_stmt t.now) }
{
    match t {
        SpStmt::Mask { slot, .. } => *slot != result_slot,
        _ => false,
    }
}

// whether the last statement does
fn ends_by_mask(result_slot: u32, body: &[SpStmt]) -> bool
    ensures { result ≡ specs.ends_so result_slot false (stmts_of body.now) }
{
    let mut ends = false;
    for t in body {
        ends = is_other_mask(result_slot, t);
    }
    ends
}

/// How many statements of a function whose result stands in a word are taken in.
#[tactic(auto, using(crate::proofs::Shortened::less_one, crate::proofs::Shortened::no_less))]
pub fn kept_of(result_slot: u32, body: &[SpStmt]) -> usize
    ensures { result ≡ kept_count result_slot body.now }
{
    if ends_by_mask(result_slot, body) {
        body.len().saturating_sub(1)
    } else {
        body.len()
    }
}
