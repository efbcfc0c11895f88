ghost use Rattle.std.specs.Prelude.{◌≡◌, ◌≤◌, ◌+◌, length, drop};
ghost use Rattle.c_lex.specs.Bytes.{run};
ghost use Rattle.c_lex.specs.Numbers.{base_of, digit_of, number_of, word_value, number_token, number_piece, number_at, decimal_at, hexadecimal_at, is_hexadecimal_number};
ghost use Rattle.c_lex.specs.declared.classes.Class.TheVariants.{Digit, Hexadecimal};

use crate::classes::{Class, passes, run};
use crate::pieces::Piece;
use c_tree::Token;

/// The base of a number.
#[derive(Clone, Copy, Debug, PartialEq, Eq)]
pub enum Radix {
    Decimal,
    Hexadecimal,
}

// the base as a number
fn base_of(radix: Radix) -> u64
    ensures is { result ≡ base_of radix }
    ensures small { result ≤ 16 }
{
    match radix {
        Radix::Decimal => 10,
        Radix::Hexadecimal => 16,
    }
}

// what a digit stands for
fn digit_of(byte: u8) -> u64
    ensures is { result ≡ digit_of byte }
    ensures small { result ≤ 255 }
{
    let value = if byte.is_ascii_digit() {
        byte - b'0'
    } else if byte <= b'F' {
        byte.saturating_sub(55)
    } else {
        byte.saturating_sub(87)
    };
    u64::from(value)
}

/// The number that digits write, if it is at most 2^32 - 1.
#[tactic(auto, using(crate::proofs::Digits::next_digit, crate::proofs::Digits::same_word))]
pub(crate) fn number_of(radix: Radix, digits: &[u8]) -> Option<u32>
    ensures { result ≡ word_value (number_of radix 0 digits.now) }
{
    let mut value = 0;
    for digit in digits {
        value = (value * base_of(radix) + digit_of(*digit)).min(4_294_967_296);
    }
    word_of(value)
}

// a number that is at most 2^32 - 1
fn word_of(value: u64) -> Option<u32>
    ensures { result ≡ word_value value }
{
    match u32::try_from(value) {
        Ok(word) => Some(word),
        Err(_) => None,
    }
}

// a number that is written with so many bytes, with its suffix or without
fn number_token(value: Option<u32>, suffix: bool, count: usize) -> Piece
    ensures { result ≡ number_token value suffix count }
{
    match value {
        None => Piece::Wide { further: 0 },
        Some(value) => Piece::Is {
            token: Token::Number {
                value,
                unsigned: suffix || value > 2_147_483_647,
            },
            count,
        },
    }
}

// a number of so many bytes with this value; its suffix may follow, and no byte of a name
fn number_piece(value: Option<u32>, count: usize, rest: &[u8]) -> Piece
    requires some { count + length rest.now ≤ 4294967295 }
    ensures { result ≡ number_piece value count rest.now }
{
    let suffix = matches!(rest, [b'u' | b'U', ..]);
    let after = if suffix { &rest[1..] } else { rest };
    if matches!(after, [first, ..] if passes(Class::Name, *first)) {
        return Piece::Bad;
    }
    number_token(value, suffix, count + usize::from(suffix))
}

// whether the bytes begin a hexadecimal number
fn is_hexadecimal_number(bytes: &[u8]) -> bool
    ensures { result ≡ is_hexadecimal_number bytes.now }
{
    matches!(bytes, [b'0', b'x' | b'X', digit, ..] if passes(Class::Hexadecimal, *digit))
}

// a decimal number
fn decimal_at(bytes: &[u8]) -> Piece
    requires short { length bytes.now ≤ 4294967295 }
    ensures { result ≡ decimal_at (run Digit bytes.now) bytes.now }
{
    let count = run(Class::Digit, bytes);
    let (digits, rest) = bytes.split_at(count);
    if count > 1 && bytes[0] == b'0' {
        return Piece::Bad;
    }
    number_piece(number_of(Radix::Decimal, digits), count, rest)
}

// a hexadecimal number
fn hexadecimal_at(bytes: &[u8]) -> Piece
    requires two { 2 ≤ length bytes.now }
    requires short { length bytes.now ≤ 4294967295 }
    ensures { result ≡ hexadecimal_at (run Hexadecimal (drop 2 bytes.now)) bytes.now }
{
    let (_, digits) = bytes.split_at(2);
    let count = run(Class::Hexadecimal, digits);
    let (front, rest) = digits.split_at(count);
    number_piece(number_of(Radix::Hexadecimal, front), count + 2, rest)
}

/// The number that begins here.
pub(crate) fn number_at(bytes: &[u8]) -> Piece
    requires short { length bytes.now ≤ 4294967295 }
    ensures { result ≡ number_at bytes.now }
{
    if is_hexadecimal_number(bytes) {
        hexadecimal_at(bytes)
    } else {
        decimal_at(bytes)
    }
}
