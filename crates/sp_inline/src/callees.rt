//! Which functions statements call.
ghost use Rattle.std.specs.Prelude.{◌≡◌};
ghost use Rattle.sp_tree.specs.Shown.{plain_stmt, stmts_of};
ghost use Rattle.sp_inline.specs.Reach.{stmt_calls, stmts_calls};

use sp_tree::SpStmt;

#[cycle(calls)]
#[tactic(auto, unfolding(sp_tree::specs::Shown::plain_stmt))]
fn statement(t: &SpStmt) -> u64
    ensures { result ≡ stmt_calls (plain_stmt t.now) }
{
    match t {
        SpStmt::Call { function, .. } => u64::from(*function) + 1,
        SpStmt::Iterations { body, .. } => calls_of(body.as_slice()),
        _ => 0,
    }
}

/// One more than the greatest number of a function that statements call.
#[cycle(calls)]
#[tactic(auto)]
pub fn calls_of(body: &[SpStmt]) -> u64
    ensures { result ≡ stmts_calls (stmts_of body.now) }
{
    let mut most = 0;
    for t in body {
        let calls = statement(t);
        most = calls.max(most);
    }
    most
}
