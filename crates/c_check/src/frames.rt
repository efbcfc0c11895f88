//! The words that a function keeps on the stack, where a number above 2^32 - 1 is counted as that.
ghost use Rattle.std.specs.Prelude.{◌≡◌, nat_lt, map};
ghost use Rattle.c_tree.specs.declared.limits.TheConstants.{MOST_FRAME_WORDS};
ghost use Rattle.c_tree.specs.Frame as frame;
ghost use Rattle.c_tree.specs.Plain.{plain_stmt};
ghost use Rattle.c_tree.specs.Plains.{block_of, arms_of};
ghost use Rattle.c_check.specs.Capped.{capped};

use c_tree::{Arm, Function, MOST_FRAME_WORDS, Stmt, WORDS_BESIDES};

#[cycle(statement)]
#[tactic(auto, using(crate::proofs::Sums::inner_framed), unfolding(c_tree::specs::Frame::stmt_frame, c_tree::specs::Plain::plain_stmt))]
fn stmt(s: &Stmt) -> u32
    ensures { result ≡ capped (frame.stmt_frame (plain_stmt s.now)) }
{
    match s {
        Stmt::Declare { .. } => 1,
        Stmt::If { arms, otherwise } => {
            let total = branches(arms.as_slice());
            match otherwise {
                None => total,
                Some(body) => total.saturating_add(block(body.as_slice())),
            }
        }
        Stmt::Loop { body, .. } => block(body.as_slice()).saturating_add(2),
        Stmt::Inner { body } => block(body.as_slice()),
        _ => 0,
    }
}

#[cycle(statement)]
fn block(body: &[Stmt]) -> u32
    ensures { result ≡ capped (frame.block_frame (block_of body.now)) }
{
    let mut total: u32 = 0;
    for s in body {
        total = total.saturating_add(stmt(s));
    }
    total
}

#[cycle(statement)]
fn branches(arms: &[Arm]) -> u32
    ensures { result ≡ capped (frame.arms_frame (arms_of arms.now)) }
{
    let mut total: u32 = 0;
    for arm in arms {
        total = total
            .saturating_add(1)
            .saturating_add(block(arm.body.as_slice()));
    }
    total
}

/// The words that a function keeps.
#[tactic(auto, using(crate::proofs::Sums::body_framed))]
pub fn frame_of(f: &Function) -> u32
    ensures { result ≡ capped (frame.function_frame f.now.parameters (map plain_stmt f.now.body)) }
{
    let parameters = u32::try_from(f.parameters.as_slice().len()).unwrap_or(u32::MAX);
    block(f.body.as_slice())
        .saturating_add(parameters)
        .saturating_add(WORDS_BESIDES)
}

/// Whether a function keeps too many words.
#[tactic(auto, using(crate::proofs::Limits::above))]
pub fn is_large(f: &Function) -> bool
    ensures { result ≡ nat_lt MOST_FRAME_WORDS (frame.function_frame f.now.parameters (map plain_stmt f.now.body)) }
{
    frame_of(f) > MOST_FRAME_WORDS
}
