ghost use Rattle.std.specs.Prelude.{◌≡◌, ◌-◌, ◌*◌, ◌^◌, true, false};
ghost use Rattle.tc_word.specs.Word.{quotient, rest, quotient_unsigned, rest_unsigned, product, low_word, high_word, moved_up, moved_down, moved_down_signed, is_less};

/// The quotient of two signed words, cut off towards zero: 0 by 0, and the least number by -1 is itself.
pub fn divide(a: u32, b: u32) -> u32
    ensures { result ≡ quotient a b }
{
    if b == 0 {
        0
    } else {
        a.cast_signed()
            .wrapping_div(b.cast_signed())
            .cast_unsigned()
    }
}

/// What `divide` leaves of `a`: `a` by 0, and 0 of the least number by -1.
pub fn remainder(a: u32, b: u32) -> u32
    ensures { result ≡ rest a b }
{
    if b == 0 {
        a
    } else {
        a.cast_signed()
            .wrapping_rem(b.cast_signed())
            .cast_unsigned()
    }
}

/// The quotient of two unsigned words: 0 by 0.
pub fn divide_unsigned(a: u32, b: u32) -> u32
    ensures { result ≡ quotient_unsigned a b }
{
    if b == 0 { 0 } else { a / b }
}

/// What `divide_unsigned` leaves of `a`: `a` by 0.
pub fn remainder_unsigned(a: u32, b: u32) -> u32
    ensures { result ≡ rest_unsigned a b }
{
    if b == 0 { a } else { a % b }
}

/// The low and the high word of the product of two signed words.
pub fn mul_pair(a: u32, b: u32) -> (u32, u32)
    ensures low { result.0 ≡ low_word (product a b) }
    ensures high { result.1 ≡ high_word (product a b) }
{
    halves(product_of(a, b))
}

/// The low and the high word of the product of two unsigned words.
pub fn mul_pair_unsigned(a: u32, b: u32) -> (u32, u32)
    ensures low { result.0 ≡ low_word (a * b) }
    ensures high { result.1 ≡ high_word (a * b) }
{
    halves(u64::from(a) * u64::from(b))
}

fn product_of(a: u32, b: u32) -> u64
    ensures { result ≡ product a b }
{
    let product = a.cast_signed() as i64 * b.cast_signed() as i64;
    product.cast_unsigned()
}

fn halves(number: u64) -> (u32, u32)
    ensures low { result.0 ≡ low_word number }
    ensures high { result.1 ≡ high_word number }
{
    ((number & 0xffff_ffff) as u32, (number >> 32) as u32)
}

/// `a` moved up by `k mod 32` bits.
pub fn shift_left(a: u32, k: u32) -> u32
    ensures { result ≡ moved_up a k }
{
    a << (k % 32)
}

/// `a` moved down by `k mod 32` bits, zeros coming in.
pub fn shift_right(a: u32, k: u32) -> u32
    ensures { result ≡ moved_down a k }
{
    a >> (k % 32)
}

/// `a` moved down by `k mod 32` bits, copies of its top bit coming in.
pub fn shift_right_arith(a: u32, k: u32) -> u32
    ensures { result ≡ moved_down_signed a k }
{
    (a.cast_signed() >> (k % 32)).cast_unsigned()
}

/// Whether `a` is less than `b` as signed numbers.
pub fn less(a: u32, b: u32) -> bool
    ensures { result ≡ is_less a b }
{
    a.cast_signed() < b.cast_signed()
}

/// Worked values of the definitions: the cases that C leaves undefined, and the signs.
pub fn worked_words()
    ensures by_zero { (quotient 7 0 ≡ 0) × (rest 7 0 ≡ 7) }
    ensures least_by_minus_one { (quotient (2 ^ 31) (2 ^ 32 - 1) ≡ 2 ^ 31) × (rest (2 ^ 31) (2 ^ 32 - 1) ≡ 0) }
    ensures towards_zero { (quotient (2 ^ 32 - 7) 2 ≡ 2 ^ 32 - 3) × (rest (2 ^ 32 - 7) 2 ≡ 2 ^ 32 - 1) }
    ensures minus_one_squared { (low_word (product (2 ^ 32 - 1) (2 ^ 32 - 1)) ≡ 1)
        × (high_word (product (2 ^ 32 - 1) (2 ^ 32 - 1)) ≡ 0) }
    ensures by_33 { (moved_up 1 33 ≡ 2) × (moved_down 4 33 ≡ 2) × (moved_down_signed (2 ^ 32 - 4) 33 ≡ 2 ^ 32 - 2) }
    ensures order { (is_less (2 ^ 32 - 1) 0 ≡ true) × (is_less 0 (2 ^ 32 - 1) ≡ false) }
{}
