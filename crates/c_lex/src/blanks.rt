ghost use Rattle.std.specs.Prelude.{◌≡◌, ◌≤◌, ◌+◌, length, IfSome};
ghost use Rattle.c_lex.specs.Blanks.{ends_line, begins_line, comment_length, comment_of, comment_at};

use crate::classes::{Class, passes, run};
use crate::pieces::Piece;

/// Whether only spaces come before the end of the line.
pub(crate) fn ends_line(bytes: &[u8]) -> bool
    ensures { result ≡ ends_line bytes.now }
{
    let mut rest = bytes;
    while let [first, others @ ..] = rest {
        if *first == b'\n' {
            return true;
        }
        if !passes(Class::Space, *first) {
            return false;
        }
        rest = others;
    }
    true
}

/// Whether only spaces stand on the line so far.
#[tactic(auto, using(crate::proofs::Lines::reverse_last))]
pub(crate) fn begins_line(before: &[u8]) -> bool
    ensures { result ≡ begins_line before.now }
{
    let mut rest = before;
    while let [others @ .., last] = rest {
        if *last == b'\n' {
            return true;
        }
        if !passes(Class::Space, *last) {
            return false;
        }
        rest = others;
    }
    true
}

// how many bytes there are up to the end of a comment, if it ends
fn comment_length(bytes: &[u8]) -> Option<usize>
    ensures is { result ≡ comment_length bytes.now }
    ensures within { IfSome result (λ n. n ≤ length bytes.now) }
{
    let mut rest = bytes;
    let mut count = 0;
    while let [first, others @ ..] = rest {
        if *first == b'*' && others.first() == Some(&b'/') {
            return Some(count + 2);
        }
        rest = others;
        count += 1;
    }
    None
}

// the comment that begins with `/*` right before these bytes
fn comment_of(text: &[u8]) -> Piece
    ensures { result ≡ comment_of text.now }
{
    match comment_length(text) {
        Some(count) => Piece::Between { count: count + 2 },
        None => Piece::Bad,
    }
}

/// The comment that begins here, if one does.
pub(crate) fn comment_at(bytes: &[u8]) -> Option<Piece>
    ensures { result ≡ comment_at bytes.now }
{
    match bytes {
        [b'/', b'/', ..] => Some(Piece::Between {
            count: run(Class::InLine, bytes),
        }),
        [b'/', b'*', text @ ..] => Some(comment_of(text)),
        _ => None,
    }
}
