//! Quotients and remainders by constants.
ghost use Rattle.std.specs.Prelude.{◌≡◌, ◌<◌, ◌≤◌, ◌^◌, OnOk};
ghost use Rattle.sp_emit.specs.Divisors as specs;
ghost use Rattle.sp_shape.specs.Parts.{straight, one, joined};
ghost use Rattle.sp_shape.specs.Shown.{parts_of};

use crate::instructions::{
    always, compare_short, compute, copy, from_special, multiply_unsigned, set_long, where_so,
    with_short,
};
use crate::parts::push_straight;
use crate::registers::{DIVIDEND, DIVISOR, REMAINDER, TEST, pred, reg};
use patmos_instr::{AluFunc, Bundle, CmpFunc, ImmFunc, Reg, Special};
use sp_shape::Part;
use tc_word::OutOfMemory;

// the place of a number's highest digit in base 2, from 0 on
#[tactic(auto, unfolding(crate::specs::Divisors::highest))]
fn highest(n: u32) -> u32
    ensures value { result ≡ specs.highest n }
    ensures few { result < 32 }
{
    31u32.saturating_sub(n.leading_zeros())
}

/// Whether a number is a power of two.
#[tactic(auto, unfolding(crate::specs::Divisors::is_power))]
pub fn is_power(n: u32) -> bool
    ensures { result ≡ specs.is_power n }
{
    1 << highest(n) == n
}

// by how many digits the upper word of the product with a divisor's factor is moved down
#[tactic(auto, unfolding(crate::specs::Divisors::moved))]
fn moved(n: u32) -> u32
    ensures value { result ≡ specs.moved n }
    ensures few { result < 32 }
{
    highest(n.saturating_sub(1))
}

// what the product is divided by
#[tactic(auto, unfolding(crate::specs::Divisors::scale))]
fn scale(n: u32) -> u64
    ensures value { result ≡ specs.scale n }
    ensures some { 1 ≤ result }
    ensures most { result ≤ 2 ^ 63 }
{
    1 << (32 + moved(n))
}

// the scale divided by the divisor, rounded up
#[tactic(auto, unfolding(crate::specs::Divisors::factor))]
fn factor(n: u32) -> u64
    requires { 1 ≤ n }
    ensures { result ≡ specs.factor n }
{
    (scale(n) - 1) / u64::from(n) + 1
}

// by how much the factor times the divisor is more than the scale
#[tactic(auto, unfolding(crate::specs::Divisors::surplus))]
fn surplus(n: u32) -> u64
    requires { 1 ≤ n }
    ensures value { result ≡ specs.surplus n }
    ensures few { result < 2 ^ 32 }
{
    u64::from(n) - 1 - (scale(n) - 1) % u64::from(n)
}

/// Whether the factor of a divisor gives the quotients of all dividends up to the greatest.
#[tactic(auto, unfolding(crate::specs::Divisors::is_exact))]
pub fn is_exact(greatest: u32, n: u32) -> bool
    ensures { result ≡ specs.is_exact greatest n }
{
    1 < n && factor(n) < 0x1_0000_0000 && surplus(n) * u64::from(greatest) < scale(n)
}

/// The quotient of a word by a power of two.
pub fn power_quotient_to(rd: Reg, ra: Reg, n: u32) -> [Bundle; 1]
    ensures { result ≡ specs.power_quotient_to rd ra n }
{
    [with_short(always(), ImmFunc::Sr, rd, ra, highest(n))]
}

/// What a power of two leaves of a word.
pub fn power_rest_to(rd: Reg, ra: Reg, n: u32) -> [Bundle; 1]
    requires { n ≤ 4096 }
    ensures { result ≡ specs.power_rest_to rd ra n }
{
    [with_short(always(), ImmFunc::And, rd, ra, n.saturating_sub(1))]
}

/// The quotient of a word by another number.
pub fn factor_quotient_to(rd: Reg, ra: Reg, n: u32) -> [Bundle; 4]
    requires some { 1 ≤ n }
    requires word { specs.factor n < 2 ^ 32 }
    ensures { result ≡ specs.factor_quotient_to rd ra n }
{
    let divisor = reg(DIVISOR);
    [
        set_long(divisor, factor(n) as u32),
        multiply_unsigned(ra, divisor),
        from_special(rd, Special::Sh),
        with_short(always(), ImmFunc::Sr, rd, rd, moved(n)),
    ]
}

/// What another number leaves of a word.
#[tactic(auto, unfolding(crate::specs::Divisors::factor_rest_to))]
pub fn factor_rest_to(rd: Reg, ra: Reg, n: u32) -> [Bundle; 8]
    requires some { 1 ≤ n }
    requires word { specs.factor n < 2 ^ 32 }
    ensures { result ≡ specs.factor_rest_to rd ra n }
{
    let (divisor, quotient) = (reg(DIVISOR), reg(REMAINDER));
    let [factor, product, upper, down] = factor_quotient_to(quotient, ra, n);
    [
        factor,
        product,
        upper,
        down,
        set_long(divisor, n),
        multiply_unsigned(quotient, divisor),
        from_special(quotient, Special::Sl),
        compute(always(), AluFunc::Sub, rd, ra, quotient),
    ]
}

/// Code that divides a word without its sign stands after the parts, between what takes the sign off and what puts it
/// back. It is `Err` where memory runs out.
pub fn push_signed(
    out: &mut Vec<Part>,
    rd: Reg,
    ra: Reg,
    code: &[Bundle],
) -> Result<(), OutOfMemory>
    ensures { OnOk result (parts_of out.new.items
        ≡ joined (parts_of out.old.items) (one (straight (specs.signed_to rd ra code.now)))) }
{
    let (dividend, test) = (reg(DIVIDEND), pred(TEST));
    let without_sign = [
        compare_short(CmpFunc::Btest, test, ra, 31),
        copy(dividend, ra),
        compute(where_so(test), AluFunc::Sub, dividend, reg(0), dividend),
    ];
    let sign = compute(where_so(test), AluFunc::Sub, rd, reg(0), rd);
    let mut bundles = Vec::new(*out.allocator());
    bundles.extend_from_slice(&without_sign)?;
    bundles.extend_from_slice(code)?;
    bundles.push(sign)?;
    push_straight(out, &bundles)
}
