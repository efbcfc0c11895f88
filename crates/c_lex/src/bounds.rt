ghost use Rattle.std.specs.Prelude.{◌≡◌, ◌≤◌, length, option_map, IfSome};
ghost use Rattle.c_lex.specs.Bounds.{past_gap, digits_in_bound, number_after, bound_text, bound_piece, word_bound, line_bound, shown};

use crate::blanks::ends_line;
use crate::classes::{Class, run};
use crate::numbers::{Radix, number_of};
use crate::pieces::Piece;
use crate::readers::past;
use c_tree::Token;

/// A number of a bound: its value, if it is at most 2^32 - 1, how many bytes are
/// left from its first on, and what follows.
#[derive(Clone, Copy)]
pub struct BoundNumber<'a> {
    pub(crate) value: Option<u32>,
    pub(crate) left: usize,
    pub(crate) rest: &'a [u8],
}

/// What follows one space or tab or more.
pub(crate) fn past_gap(bytes: &[u8]) -> Option<&[u8]>
    ensures { option_map (λ r. r.now) result ≡ past_gap bytes.now }
{
    let count = run(Class::Separator, bytes);
    if count == 0 {
        return None;
    }
    let (_, rest) = bytes.split_at(count);
    Some(rest)
}

// the digits of a number in a bound
fn digits_in_bound(bytes: &[u8]) -> Option<usize>
    ensures is { result ≡ digits_in_bound bytes.now }
    ensures within { IfSome result (λ n. n ≤ length bytes.now) }
{
    let count = run(Class::Digit, bytes);
    if count == 0 || (count > 1 && bytes[0] == b'0') {
        return None;
    }
    Some(count)
}

// a number of a bound after a word
fn number_after<'a>(word: &[u8], bytes: &'a [u8]) -> Option<BoundNumber<'a>>
    ensures { option_map shown result ≡ number_after word.now bytes.now }
{
    let number = past_gap(past(word, bytes)?)?;
    let count = digits_in_bound(number)?;
    let (digits, rest) = number.split_at(count);
    Some(BoundNumber {
        value: number_of(Radix::Decimal, digits),
        left: number.len(),
        rest,
    })
}

/// Both numbers of a bound, from the word `loopbound` on.
pub(crate) fn bound_text(bytes: &[u8]) -> Option<(BoundNumber, BoundNumber)>
    ensures { option_map (λ b. (shown b.0, shown b.1)) result ≡ bound_text bytes.now }
{
    let words = past_gap(past(b"loopbound", bytes)?)?;
    let low = number_after(b"min", words)?;
    let high = number_after(b"max", past_gap(low.rest)?)?;
    Some((low, high))
}

// the bound that these numbers are, which began so many bytes before the end, and ends where so many are left
fn bound_piece(left: usize, after: usize, low: BoundNumber, high: BoundNumber) -> Piece
    ensures { result ≡ bound_piece left after (shown low.entry, shown high.entry) }
{
    let Some(min) = low.value else {
        return Piece::Wide {
            further: left.saturating_sub(low.left),
        };
    };
    let Some(max) = high.value else {
        return Piece::Wide {
            further: left.saturating_sub(high.left),
        };
    };
    Piece::Is {
        token: Token::Bound { min, max },
        count: left.saturating_sub(after),
    }
}

/// The bound that is written as a word, if one begins here.
pub(crate) fn word_bound(bytes: &[u8]) -> Option<Piece>
    ensures { result ≡ word_bound bytes.now }
{
    let (low, high) = bound_text(past(b"_Pragma(\"", bytes)?)?;
    let rest = past(b"\")", high.rest)?;
    Some(bound_piece(bytes.len(), rest.len(), low, high))
}

/// The bound that is written as a line, if one begins here.
pub(crate) fn line_bound(bytes: &[u8]) -> Option<Piece>
    ensures { result ≡ line_bound bytes.now }
{
    let (low, high) = bound_text(past_gap(past(b"#pragma", bytes)?)?)?;
    if !ends_line(high.rest) {
        return None;
    }
    Some(bound_piece(bytes.len(), high.rest.len(), low, high))
}
