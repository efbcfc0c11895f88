//! Functions with what is asked of them wherever they are called, worked out once.
ghost use Rattle.std.specs.Prelude.{◌≡◌, ◌+◌, ◌-◌, ◌<◌, ◌^◌};
ghost use Rattle.sp_tree.specs.Cost.{stmts_cost};
ghost use Rattle.sp_tree.specs.Formed.{slots_of, stmts_levels};
ghost use Rattle.sp_tree.specs.MaskTests.{tests_mask};
ghost use Rattle.sp_tree.specs.Shown.{plain_function, stmts_of};
ghost use Rattle.sp_inline.specs.Capped.{capped};
ghost use Rattle.sp_inline.specs.Kept.{kept_count};
ghost use Rattle.sp_inline.specs.Reach.{stmts_reach, stmts_calls};
ghost use Rattle.sp_inline.specs.Taken.{short_body, entered as entered_body};

use crate::beginnings::entered;
use crate::callees::calls_of;
use crate::costs::cost_of;
use crate::endings::kept_of;
use crate::levels::levels_of;
use crate::reach::reach_of;
use sp_tree::{SpFunction, SpStmt, tests_mask};

/// A function; how many words its tree may name; and of its statements, how many words they name, how many functions
/// they call, how many levels of iterations they have, and how many words of code they take. Then, how many of its
/// statements stand before a mask that is set last, whether they begin by testing its mask, and how many words of code
/// those of them take that are taken in: all but that test.
#[derive(Debug, Drop)]
pub struct Measured {
    pub function: SpFunction,
    pub words: u32,
    pub reach: u64,
    pub calls: u64,
    pub levels: u64,
    pub cost: u64,
    pub kept: usize,
    pub tests: bool,
    pub kept_cost: u64,
    pub ghost few: { 0 < words → words + (levels + 2) < 2 ^ 32 },
    pub ghost words_are: { words ≡ slots_of (plain_function function) },
    pub ghost reach_is: { reach ≡ stmts_reach (stmts_of function.body) },
    pub ghost calls_are: { calls ≡ stmts_calls (stmts_of function.body) },
    pub ghost levels_are: { levels ≡ capped (stmts_levels (stmts_of function.body)) },
    pub ghost cost_is: { cost ≡ capped (stmts_cost (stmts_of function.body)) },
    pub ghost kept_is: { kept ≡ kept_count function.result function.body },
    pub ghost tests_are: { tests ≡ tests_mask function.mask (short_body function.result (stmts_of function.body)) },
    pub ghost kept_cost_is: { kept_cost
        ≡ capped (stmts_cost (entered_body tests (short_body function.result (stmts_of function.body)))) },
}

// how many of the words of a frame a tree with so many levels of iterations may name
fn words_below(frame: u32, levels: u64) -> u32
    ensures words { result ≡ frame - (levels + 2) }
    ensures few { 0 < result → result + (levels + 2) < 2 ^ 32 }
{
    u64::from(frame).saturating_sub(levels.saturating_add(2)) as u32
}

impl Measured {
    ghost use Rattle.sp_inline.specs.Taken as taken;

    /// A function, measured.
    #[tactic(auto, using(crate::proofs::Shortened::kept_within, crate::proofs::Shortened::kept_shown))]
    pub fn of(function: SpFunction) -> Measured
        ensures { result.function ≡ function }
    {
        let levels = levels_of(function.body.as_slice());
        let words = words_below(function.frame, levels);
        let reach = reach_of(function.body.as_slice());
        let calls = calls_of(function.body.as_slice());
        let cost = cost_of(function.body.as_slice());
        let kept = kept_of(function.result, function.body.as_slice());
        let statements = &function.body.as_slice()[..kept];
        let tests = tests_mask(function.mask, statements);
        let kept_cost = cost_of(entered(tests, statements));
        Measured {
            function,
            words,
            reach,
            calls,
            levels,
            cost,
            kept,
            tests,
            kept_cost,
        }
    }

    /// The statements that are taken in.
    #[tactic(auto, using(crate::proofs::Shortened::kept_within, crate::proofs::Shortened::kept_shown))]
    pub fn statements(&self) -> &[SpStmt]
        ensures { stmts_of result.now
            ≡ entered_body self.now.tests (short_body self.now.function.result (stmts_of self.now.function.body)) }
    {
        entered(self.tests, &self.function.body.as_slice()[..self.kept])
    }

    /// Whether the function of this number names no words but its own, and calls earlier ones.
    pub fn is_whole(&self, number: usize) -> bool
        ensures { result ≡ taken.is_whole number (plain_function self.now.function) }
    {
        let words = u64::from(self.words);
        u64::from(self.function.result) < words
            && self.reach <= words
            && self.calls <= number as u64
            && u64::from(self.function.mask) < words
    }
}
