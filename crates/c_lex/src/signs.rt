ghost use Rattle.std.specs.Prelude.{◌≡◌};
ghost use Rattle.c_lex.specs.declared.pieces.Piece.TheVariants as piece;
ghost use Rattle.c_tree.specs.declared.tokens.Token.TheVariants as token;
ghost use Rattle.c_lex.specs.Signs.{longest_signs, long_signs, unused_signs, short_signs, begins_among, sign_among, sign_at};

use crate::pieces::Piece;
use c_tree::{Sign, Token};

// whether a sign of three bytes begins here
fn begins_longest(bytes: &[u8]) -> bool
    ensures { result ≡ begins_among longest_signs bytes.now }
{
    matches!(bytes, [b'<', b'<', b'=', ..] | [b'>', b'>', b'=', ..])
}

// the sign of two bytes that begins here
fn long_sign(bytes: &[u8]) -> Option<Sign>
    ensures { result ≡ sign_among long_signs bytes.now }
{
    match bytes {
        [b'=', b'=', ..] => Some(Sign::Equal),
        [b'!', b'=', ..] => Some(Sign::NotEqual),
        [b'<', b'=', ..] => Some(Sign::LessEqual),
        [b'>', b'=', ..] => Some(Sign::GreaterEqual),
        [b'<', b'<', ..] => Some(Sign::ShiftLeft),
        [b'>', b'>', ..] => Some(Sign::ShiftRight),
        [b'&', b'&', ..] => Some(Sign::And),
        [b'|', b'|', ..] => Some(Sign::Or),
        _ => None,
    }
}

// whether a sign of two bytes begins here that has no meaning
fn begins_unused(bytes: &[u8]) -> bool
    ensures { result ≡ begins_among unused_signs bytes.now }
{
    matches!(
        bytes,
        [b'+', b'+', ..]
            | [b'-', b'-', ..]
            | [b'-', b'>', ..]
            | [b'+', b'=', ..]
            | [b'-', b'=', ..]
            | [b'*', b'=', ..]
            | [b'/', b'=', ..]
            | [b'%', b'=', ..]
            | [b'&', b'=', ..]
            | [b'|', b'=', ..]
            | [b'^', b'=', ..]
    )
}

// the sign of one byte that begins here
fn short_sign(bytes: &[u8]) -> Option<Sign>
    ensures { result ≡ sign_among short_signs bytes.now }
{
    match bytes {
        [b'(', ..] => Some(Sign::OpenParenthesis),
        [b')', ..] => Some(Sign::CloseParenthesis),
        [b'[', ..] => Some(Sign::OpenBracket),
        [b']', ..] => Some(Sign::CloseBracket),
        [b'{', ..] => Some(Sign::OpenBrace),
        [b'}', ..] => Some(Sign::CloseBrace),
        [b';', ..] => Some(Sign::Semicolon),
        [b',', ..] => Some(Sign::Comma),
        [b'=', ..] => Some(Sign::Assign),
        [b'~', ..] => Some(Sign::Tilde),
        [b'!', ..] => Some(Sign::Exclamation),
        [b'|', ..] => Some(Sign::BitOr),
        [b'^', ..] => Some(Sign::BitXor),
        [b'&', ..] => Some(Sign::BitAnd),
        [b'<', ..] => Some(Sign::Less),
        [b'>', ..] => Some(Sign::Greater),
        [b'+', ..] => Some(Sign::Plus),
        [b'-', ..] => Some(Sign::Minus),
        [b'*', ..] => Some(Sign::Star),
        [b'/', ..] => Some(Sign::Slash),
        [b'%', ..] => Some(Sign::Percent),
        _ => None,
    }
}

// a sign as a token of so many bytes
fn token_of(sign: Sign, count: usize) -> Piece
    ensures { result ≡ piece.Is (token.Sign sign) count }
{
    Piece::Is {
        token: Token::Sign { sign },
        count,
    }
}

/// The longest sign that begins here, if it has a meaning.
pub(crate) fn sign_at(bytes: &[u8]) -> Piece
    ensures { result ≡ sign_at bytes.now }
{
    if begins_longest(bytes) {
        return Piece::Bad;
    }
    if let Some(sign) = long_sign(bytes) {
        return token_of(sign, 2);
    }
    if begins_unused(bytes) {
        return Piece::Bad;
    }
    match short_sign(bytes) {
        Some(sign) => token_of(sign, 1),
        None => Piece::Bad,
    }
}
