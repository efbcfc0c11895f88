//! That a unit is run to its end, which no clause can say: want of memory may come at any time.
ghost use Rattle.std.specs.Prelude.{◌≡◌, IfOk};
ghost use Rattle.sp_tree.specs.Plain.{plain_sp, constant, array_word};
ghost use Rattle.sp_tree.specs.Shown.{plain_unit, plain_function};
ghost use Rattle.sp_tree.specs.Small as small;
ghost use Rattle.sp_tree.specs.Statements.{one};

use crate::expect::expect_same;
use sp_tree::{
    Region, SpArray, SpBinary, SpCell, SpExpr, SpFunction, SpStmt, SpTarget, SpUnit, plain_straight,
};
use std::alloc::{AllocError, Global};
use std::test::Fail;
use tc_word::List;

// `int f(int a, int b) { g = a - b; return a - b; }`, where `g` is private word 4
#[tactic(auto, unfolding(sp_tree::specs::Shown::plain_stmt, sp_tree::specs::Plain::plain_sp))]
fn difference(alloc: Global) -> Result<SpFunction, AllocError>
    ensures { IfOk result (λ f. plain_function f ≡ small.difference) }
{
    let subtracted = SpExpr::Binary {
        op: SpBinary::Minus,
        a: Box::new(alloc, SpExpr::Frame { slot: 0 })?,
        b: Box::new(alloc, SpExpr::Frame { slot: 1 })?,
    };
    let given = SpStmt::Write {
        mask: 2,
        target: SpTarget::Frame { slot: 3 },
        value: subtracted,
    };
    let stored = SpStmt::Write {
        mask: 2,
        target: SpTarget::Scalar {
            cell: SpCell {
                region: Region::Private,
                word: 4,
            },
        },
        value: SpExpr::Frame { slot: 3 },
    };
    Ok(SpFunction {
        frame: 6,
        parameters: 2,
        mask: 2,
        result: 3,
        body: List::of(vec![in alloc; given, stored]?),
    })
}

// a word of the input
#[tactic(auto, unfolding(sp_tree::specs::Plain::plain_sp))]
fn input_word(alloc: Global, number: u32) -> Result<SpExpr, AllocError>
    ensures { IfOk result (λ e. plain_sp e ≡ array_word (small.array Region.Private 5 2) (constant number)) }
{
    Ok(SpExpr::Element {
        array: SpArray {
            region: Region::Private,
            first: 5,
            length: 2,
        },
        index: Box::new(alloc, SpExpr::Const { value: number })?,
    })
}

// `int main() { return f(in[0], in[1]); }`
#[tactic(auto, unfolding(sp_tree::specs::Shown::plain_stmt))]
fn entry(alloc: Global) -> Result<SpFunction, AllocError>
    ensures { IfOk result (λ f. plain_function f ≡ small.entry_of (one small.difference_call)) }
{
    let first = input_word(alloc, 0)?;
    let second = input_word(alloc, 1)?;
    let called = SpStmt::Call {
        mask: 0,
        function: 0,
        args: List::of(vec![in alloc; first, second]?),
        result: Some(1),
    };
    Ok(SpFunction {
        frame: 6,
        parameters: 0,
        mask: 0,
        result: 1,
        body: List::of(vec![in alloc; called]?),
    })
}

fn unit(alloc: Global) -> Result<SpUnit, AllocError>
    ensures { IfOk result (λ u. plain_unit u ≡ small.difference_unit) }
{
    let difference = difference(alloc)?;
    let entry = entry(alloc)?;
    Ok(SpUnit {
        functions: List::of(vec![in alloc; difference, entry]?),
        entry: 1,
        initial: List::of(vec![in alloc; 1, 2, 3]?),
        input_at: 5,
        input_room: 2,
    })
}

#[test]
fn a_difference_comes_out(rt: HostRuntime) -> Result<(), Fail> {
    let unit = unit(rt.alloc())?;
    let outcome = plain_straight(rt.alloc(), &unit, &[9, 4])?;
    expect_same(&rt, (outcome.value, outcome.overrun), (5, false));
    let private = outcome.private.as_slice();
    expect_same(&rt, (private.get(4), private.get(5)), (Some(&5), Some(&9)));
    Ok(())
}
