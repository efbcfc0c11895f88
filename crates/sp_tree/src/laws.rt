//! Laws of single-path trees.
ghost use Rattle.std.specs.Prelude.{◌≡◌, ◌≢◌, ◌+◌, ◌++◌, ◌<◌, ◌≤◌, ◌&&◌, ℕ, List, Option, max, slice_index_or, true};
ghost use Rattle.c_world.specs.World.{World};
ghost use Rattle.sp_tree.specs.Cost.{stmts_cost};
ghost use Rattle.sp_tree.specs.Formed.{stmts_formed, stmts_levels, function_formed, functions_formed};
ghost use Rattle.sp_tree.specs.Plain.{PlainSp};
ghost use Rattle.sp_tree.specs.Shown.{stmts_of};
ghost use Rattle.sp_tree.specs.Statements.{PlainSpTarget, PlainStmts, PlainFunction, no_function, joined, writes, calls, transfers, overruns};
ghost use Rattle.sp_tree.specs.Straight.{State, Serves, args_worth, in_world, stmt_done, stmts_done, function_outcome, serves};
ghost use Rattle.sp_tree.specs.Uses.{stmts_uses};
ghost use Rattle.sp_tree.specs.declared.statements.SpStmt.{SpStmt};
ghost use Rattle.sp_tree.specs.declared.limits.TheConstants.{MOST_FRAME, MOST_FUNCTIONS, MOST_NEED, MOST_PARAMETERS};

/// Statements after others: they go on from what these leave, and well-formedness, words, levels of iterations and uses
/// hold of both.
pub fn statements_join()
    ensures done { (g : Serves) (xs ys : PlainStmts) (s : State)
        → stmts_done g (joined xs ys) s ≡ stmts_done g ys (stmts_done g xs s) }
    ensures formed { (fs : List PlainFunction) (number slots : ℕ) (xs ys : PlainStmts)
        → stmts_formed fs number slots (joined xs ys)
        ≡ (stmts_formed fs number slots xs && stmts_formed fs number slots ys) }
    ensures cost { (xs ys : PlainStmts) → stmts_cost (joined xs ys) ≡ stmts_cost xs + stmts_cost ys }
    ensures levels { (xs ys : PlainStmts) → stmts_levels (joined xs ys) ≡ max (stmts_levels xs) (stmts_levels ys) }
    ensures uses { (xs ys : PlainStmts) → stmts_uses (joined xs ys) ≡ stmts_uses xs ++ stmts_uses ys }
    ensures shown { (xs ys : List SpStmt) → stmts_of (xs ++ ys) ≡ joined (stmts_of xs) (stmts_of ys) }
{}

/// Under a mask that is not 1 a statement has no effect, but that the function of a call is run.
#[tactic(auto, using(crate::proofs::Masks::write_off, crate::proofs::Masks::send_off, crate::proofs::Masks::overrun_off, crate::proofs::Masks::call_off))]
pub fn masks_hold()
    ensures write { (g : Serves) (mask : ℕ) (target : PlainSpTarget) (e : PlainSp) (s : State) → s.frame mask ≢ 1
        → stmt_done g (writes mask target e) s ≡ s }
    ensures send { (g : Serves) (mask core : ℕ) (source target count : PlainSp) (s : State) → s.frame mask ≢ 1
        → stmt_done g (transfers mask core source target count) s ≡ s }
    ensures overrun { (g : Serves) (mask : ℕ) (e : PlainSp) (s : State) → s.frame mask ≢ 1
        → stmt_done g (overruns mask e) s ≡ s }
    ensures call { (g : Serves) (mask k : ℕ) (args : List PlainSp) (result : Option ℕ) (s : State) → s.frame mask ≢ 1
        → stmt_done g (calls mask k args result) s ≡ in_world s (g k (s.frame mask) (args_worth args s) s.world).world }
{}

/// What is well formed over the first words of a frame is so over more of them.
#[tactic(auto, using(crate::proofs::Forms::more_stmts))]
pub fn frames_grow()
    ensures { (fs : List PlainFunction) (number slots width : ℕ) (ts : PlainStmts) → slots ≤ width
        → stmts_formed fs number slots ts ≡ true
        → stmts_formed fs number width ts ≡ true }
{}

/// A function is served by those before it, whatever others stand after it; and it is well formed among them.
#[tactic(auto, using(crate::proofs::Runs::serves_own, crate::proofs::Forms::earlier_ones))]
pub fn earlier_functions_serve()
    ensures served { (fs : List PlainFunction) (k n mask : ℕ) (args : List ℕ) (w : World) → k < n
        → serves fs n k mask args w ≡ function_outcome (serves fs k) (slice_index_or fs k no_function) mask args w }
    ensures formed { (fs : List PlainFunction) (k n : ℕ) → k < n → functions_formed fs n ≡ true
        → function_formed fs k (slice_index_or fs k no_function) ≡ true }
    ensures earlier { (fs : List PlainFunction) (k n : ℕ) → k ≤ n → functions_formed fs n ≡ true
        → functions_formed fs k ≡ true }
{}

/// How large single-path trees may be, in numbers: words of a frame, functions, parameters, and
/// registers of an expression. A law: it does nothing.
pub fn tree_limits()
    ensures frame { MOST_FRAME ≡ 128 }
    ensures functions { MOST_FUNCTIONS ≡ 512 }
    ensures parameters { MOST_PARAMETERS ≡ 6 }
    ensures need { MOST_NEED ≡ 12 }
{}
