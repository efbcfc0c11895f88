//! Addresses of the elements of arrays.
ghost use Rattle.std.specs.Prelude.{◌≡◌, ◌<◌, true};
ghost use Rattle.sp_emit.specs.Expressions as specs;
ghost use Rattle.sp_emit.specs.Instructions as code;
ghost use Rattle.sp_tree.specs.Formed.{array_formed};

use crate::expressions::{address_of, base_of};
use crate::instructions::{
    always, compare, compare_short, compute, idle, set_number, where_not, with_short,
};
use crate::registers::{SPARE, reg};
use patmos_instr::{AluFunc, Bundle, CmpFunc, ImmFunc, Pred, Reg};
use sp_tree::SpArray;

// the spare register gets a number, unless another instruction holds it
#[tactic(auto, unfolding(crate::specs::Expressions::spare_op))]
fn set_spare(is_held: bool, n: u32) -> Bundle
    ensures { result ≡ code.under code.always (specs.spare_op is_held n) }
{
    if is_held {
        idle()
    } else {
        set_number(reg(SPARE), n)
    }
}

/// The spare register gets a length that is too long for a comparison to hold.
pub fn set_length(length: u32) -> Bundle
    ensures { result ≡ code.under code.always (specs.length_op length) }
{
    set_spare(length < 32, length)
}

/// A predicate is set where an index is below the length.
#[tactic(auto, unfolding(crate::specs::Expressions::below_op))]
pub fn compare_below(pd: Pred, ra: Reg, length: u32) -> Bundle
    ensures { result ≡ code.under code.always (specs.below_op pd ra length) }
{
    if length < 32 {
        compare_short(CmpFunc::Ult, pd, ra, length)
    } else {
        compare(CmpFunc::Ult, pd, ra, reg(SPARE))
    }
}

// whether loads and stores hold an array's first word
fn has_offset(array: SpArray) -> bool
    ensures { result ≡ specs.has_offset array }
{
    base_of(array.region) == 0 && array.first < 128
}

/// How many words a load or a store of an element adds to the address in its register.
pub fn offset_of(array: SpArray) -> u32
    ensures value { result ≡ specs.offset_of array }
    ensures range { result < 128 }
{
    if has_offset(array) { array.first } else { 0 }
}

/// The spare register gets the address of an array's first word, where loads and stores do not hold it.
pub fn set_base(array: SpArray) -> Bundle
    requires { array_formed array ≡ true }
    ensures { result ≡ code.under code.always (specs.base_op array) }
{
    set_spare(has_offset(array), address_of(array.region, array.first))
}

/// A register gets what loads and stores of the element at an index add their words to.
#[tactic(auto, unfolding(crate::specs::Expressions::scaled_op))]
pub fn scale(array: SpArray, rd: Reg, ra: Reg) -> Bundle
    ensures { result ≡ code.under code.always (specs.scaled_op array rd ra) }
{
    if has_offset(array) {
        with_short(always(), ImmFunc::Sl, rd, ra, 2)
    } else {
        compute(always(), AluFunc::Shadd2, rd, ra, reg(SPARE))
    }
}

/// Where a predicate is false a load or a store that adds so many words is made at word 0.
pub fn at_word_0(p: Pred, rd: Reg, words: u32) -> Bundle
    requires { words < 128 }
    ensures { result ≡ specs.at_word_0 p rd words }
{
    with_short(where_not(p), ImmFunc::Sub, rd, reg(0), 4 * words)
}
