//! What masks are set to.
ghost use Rattle.std.specs.Prelude.{◌≡◌, ◌==◌, if◌then◌else◌, IfOk};
ghost use Rattle.sp_tree.specs.Plain.{plain_sp, constant, frame_word};
ghost use Rattle.single_path.specs.PartWords as specs;
ghost use Rattle.single_path.specs.Single.{begun_mask};

use crate::part_words::PartWords;
use sp_tree::{SpBinary, SpExpr, SpUnary, before_operand, between_operands};
use std::alloc::Global;
use tc_word::OutOfMemory;

/// A word of the frame.
#[tactic(auto, unfolding(sp_tree::specs::Plain::plain_sp))]
pub fn word(slot: u32) -> SpExpr
    ensures { plain_sp result ≡ frame_word slot }
{
    SpExpr::Frame { slot }
}

#[tactic(auto, unfolding(sp_tree::specs::Plain::plain_sp))]
fn number(value: u32) -> SpExpr
    ensures { plain_sp result ≡ constant value }
{
    SpExpr::Const { value }
}

/// Whether a word isn't 0.
pub fn not_zero(alloc: Global, e: SpExpr) -> Result<SpExpr, OutOfMemory>
    ensures { IfOk result (λ m. plain_sp m ≡ specs.not_zero (plain_sp e)) }
{
    between_operands(alloc, SpBinary::NotEqual, e, number(0))
}

/// Whether a mask is 1, of the words 0, 1 and 2.
pub fn bit_of(alloc: Global, mask: u32) -> Result<SpExpr, OutOfMemory>
    ensures { IfOk result (λ m. plain_sp m ≡ specs.bit_of mask) }
{
    between_operands(alloc, SpBinary::BitAnd, word(mask), number(1))
}

// operators whose value is 0 or 1
fn is_test_before(op: SpUnary) -> bool
    ensures { result ≡ specs.is_test_before op }
{
    matches!(op, SpUnary::Not)
}

fn is_test(op: SpBinary) -> bool
    ensures { result ≡ specs.is_test op }
{
    matches!(
        op,
        SpBinary::Or
            | SpBinary::And
            | SpBinary::Equal
            | SpBinary::NotEqual
            | SpBinary::Less
            | SpBinary::LessUnsigned
            | SpBinary::LessEqual
            | SpBinary::LessEqualUnsigned
    )
}

// an expression whose value is 0 or 1 by its form
#[tactic(auto, unfolding(sp_tree::specs::Plain::plain_sp))]
fn is_truth(e: &SpExpr) -> bool
    ensures { result ≡ specs.is_truth (plain_sp e.now) }
{
    match e {
        SpExpr::Unary { op, .. } => is_test_before(*op),
        SpExpr::Binary { op, .. } => is_test(*op),
        _ => false,
    }
}

/// Whether a word isn't 0, as a word that is 0 or 1.
pub fn truth(alloc: Global, e: SpExpr) -> Result<SpExpr, OutOfMemory>
    ensures { IfOk result (λ m. plain_sp m ≡ specs.truth (plain_sp e)) }
{
    if is_truth(&e) {
        return Ok(e);
    }
    not_zero(alloc, e)
}

/// A mask, where a condition holds besides.
pub fn where_so(alloc: Global, mask: u32, condition: SpExpr) -> Result<SpExpr, OutOfMemory>
    ensures { IfOk result (λ m. plain_sp m ≡ specs.where_so mask (plain_sp condition)) }
{
    let holds = truth(alloc, condition)?;
    between_operands(alloc, SpBinary::BitAnd, word(mask), holds)
}

/// The mask of a function: 1 where it is run under the mask 1, and else 0.
pub fn begun_mask(alloc: Global, part: PartWords) -> Result<SpExpr, OutOfMemory>
    ensures { IfOk result (λ m. plain_sp m ≡ begun_mask part) }
{
    between_operands(alloc, SpBinary::Equal, word(part.function), number(1))
}

/// The mask of what stands after `else`.
pub fn where_not_taken(alloc: Global, part: PartWords) -> Result<SpExpr, OutOfMemory>
    ensures { IfOk result (λ m. plain_sp m ≡ specs.where_not_taken part) }
{
    let goes_on = bit_of(alloc, part.iteration)?;
    let other = between_operands(alloc, SpBinary::BitXor, word(part.own), word(part.free))?;
    between_operands(alloc, SpBinary::BitAnd, goes_on, other)
}

// the part's own mask, of which the lowest bit alone counts where it is the loop's
fn own_bit(alloc: Global, part: PartWords) -> Result<SpExpr, OutOfMemory>
    ensures { IfOk result (λ m. plain_sp m
        ≡ (if part.own == part.iteration then specs.bit_of part.own else frame_word part.own)) }
{
    if part.own == part.iteration {
        return bit_of(alloc, part.own);
    }
    Ok(word(part.own))
}

/// The mask of what stands after `else`, where the first arm does not go elsewhere.
pub fn where_other(alloc: Global, part: PartWords) -> Result<SpExpr, OutOfMemory>
    ensures { IfOk result (λ m. plain_sp m ≡ specs.where_other part) }
{
    let own = own_bit(alloc, part)?;
    between_operands(alloc, SpBinary::BitXor, own, word(part.free))
}

/// The mask of what stands after `else`, where the arm may go elsewhere or does not.
pub fn otherwise_mask(alloc: Global, part: PartWords, exits: bool) -> Result<SpExpr, OutOfMemory>
    ensures { IfOk result (λ m. plain_sp m
        ≡ (if exits then specs.where_not_taken part else specs.where_other part)) }
{
    if exits {
        return where_not_taken(alloc, part);
    }
    where_other(alloc, part)
}

/// The mask of a part, after an arm or a loop in which the iteration may have ended.
pub fn where_on(alloc: Global, part: PartWords) -> Result<SpExpr, OutOfMemory>
    ensures { IfOk result (λ m. plain_sp m ≡ specs.where_on part) }
{
    between_operands(
        alloc,
        SpBinary::BitAnd,
        word(part.own),
        word(part.iteration),
    )
}

/// The mask of a loop, after one inside it in which the function may have returned.
pub fn where_not_returned(alloc: Global, part: PartWords) -> Result<SpExpr, OutOfMemory>
    ensures { IfOk result (λ m. plain_sp m ≡ specs.where_not_returned part) }
{
    let all_bits = before_operand(alloc, SpUnary::Minus, word(part.function))?;
    between_operands(alloc, SpBinary::BitAnd, word(part.iteration), all_bits)
}

/// The iteration's mask after `break`.
pub fn broken(alloc: Global, part: PartWords) -> Result<SpExpr, OutOfMemory>
    ensures { IfOk result (λ m. plain_sp m ≡ specs.broken part) }
{
    let own = bit_of(alloc, part.own)?;
    between_operands(alloc, SpBinary::BitXor, word(part.iteration), own)
}

/// The iteration's mask after `continue`.
pub fn continued(alloc: Global, part: PartWords) -> Result<SpExpr, OutOfMemory>
    ensures { IfOk result (λ m. plain_sp m ≡ specs.continued part) }
{
    if part.counted {
        return broken(alloc, part);
    }
    let own = bit_of(alloc, part.own)?;
    between_operands(alloc, SpBinary::Plus, word(part.iteration), own)
}

/// The function's mask after `return`.
pub fn returned_function(alloc: Global, part: PartWords) -> Result<SpExpr, OutOfMemory>
    ensures { IfOk result (λ m. plain_sp m ≡ specs.returned_function part) }
{
    let own = if part.own == part.iteration {
        bit_of(alloc, part.own)?
    } else {
        word(part.own)
    };
    between_operands(alloc, SpBinary::BitXor, word(part.function), own)
}

/// The iteration's mask after `return` in a loop.
pub fn returned_iteration(alloc: Global, part: PartWords) -> Result<SpExpr, OutOfMemory>
    ensures { IfOk result (λ m. plain_sp m ≡ specs.returned_loop part) }
{
    if part.own == part.iteration {
        between_operands(alloc, SpBinary::BitAnd, word(part.iteration), number(2))
    } else {
        between_operands(
            alloc,
            SpBinary::BitXor,
            word(part.iteration),
            word(part.own),
        )
    }
}
