//! The statements of a function after the test of its mask.
ghost use Rattle.std.specs.Prelude.{◌≡◌};
ghost use Rattle.sp_tree.specs.Shown.{stmts_of};
ghost use Rattle.sp_inline.specs.Taken as specs;

use sp_tree::SpStmt;

/// Statements without the first, where that tests the function's mask.
pub fn entered(tests: bool, body: &[SpStmt]) -> &[SpStmt]
    ensures { stmts_of result.now ≡ specs.entered tests (stmts_of body.now) }
{
    if !tests {
        return body;
    }
    match body {
        [_, rest @ ..] => rest,
        [] => body,
    }
}
