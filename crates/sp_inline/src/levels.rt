//! How many levels of iterations stand inside one another.
ghost use Rattle.std.specs.Prelude.{◌≡◌};
ghost use Rattle.sp_tree.specs.Formed.{stmt_levels, stmts_levels};
ghost use Rattle.sp_tree.specs.Shown.{plain_stmt, stmts_of};
ghost use Rattle.sp_inline.specs.Capped.{capped};

use sp_tree::SpStmt;

#[cycle(levels)]
#[tactic(auto, unfolding(sp_tree::specs::Shown::plain_stmt))]
fn statement(t: &SpStmt) -> u64
    ensures { result ≡ capped (stmt_levels (plain_stmt t.now)) }
{
    match t {
        SpStmt::Iterations { body, .. } => levels_of(body.as_slice()).saturating_add(1),
        _ => 0,
    }
}

/// How many levels of iterations stand inside one another. What passes 2^64 - 1 is counted as that.
#[cycle(levels)]
#[tactic(auto)]
pub fn levels_of(body: &[SpStmt]) -> u64
    ensures { result ≡ capped (stmts_levels (stmts_of body.now)) }
{
    let mut most = 0;
    for t in body {
        let levels = statement(t);
        most = levels.max(most);
    }
    most
}
