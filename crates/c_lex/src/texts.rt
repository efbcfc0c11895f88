ghost use Rattle.std.specs.Prelude.{◌≡◌, ◌<◌, ◌≤◌, ◌^◌, length, IfOk, IfErr};
ghost use Rattle.c_lex.specs.Pieces.{IsWithin};
ghost use Rattle.c_lex.specs.Texts.{name_at, pragma_at, comment_or_sign_at, piece_after, tokens, lexed, Refuses};

use crate::blanks::{begins_line, comment_at};
use crate::bounds::{line_bound, word_bound};
use crate::classes::{Class, passes, run};
use crate::faults::LexFault;
use crate::names::word_of;
use crate::numbers::number_at;
use crate::pieces::Piece;
use crate::signs::sign_at;
use c_tree::Token;
use std::alloc::{AllocError, Global};
use tc_word::List;

// the name that begins here, or the bound
fn name_at(alloc: Global, bytes: &[u8]) -> Result<Piece, AllocError>
    ensures { IfOk result (λ piece. piece ≡ name_at bytes.now) }
{
    let count = run(Class::Name, bytes);
    let (name, _) = bytes.split_at(count);
    let Ok(name) = str::from_utf8(name) else {
        unreachable!();
    };
    if name == "_Pragma" {
        return Ok(word_bound(bytes).unwrap_or(Piece::Bad));
    }
    Ok(Piece::Is {
        token: word_of(alloc, name)?,
        count,
    })
}

// the bound that begins here, if it is the first on its line
fn pragma_at(before: &[u8], bytes: &[u8]) -> Piece
    ensures { result ≡ pragma_at before.now bytes.now }
{
    if begins_line(before) {
        line_bound(bytes).unwrap_or(Piece::Bad)
    } else {
        Piece::Bad
    }
}

// the comment or the sign that begins here
fn comment_or_sign_at(bytes: &[u8]) -> Piece
    ensures { result ≡ comment_or_sign_at bytes.now }
{
    match comment_at(bytes) {
        Some(comment) => comment,
        None => sign_at(bytes),
    }
}

// the piece that begins here
#[tactic(auto, unfolding(crate::specs::Texts::piece_after))]
fn piece_after(alloc: Global, before: &[u8], bytes: &[u8]) -> Result<Piece, AllocError>
    requires some { 0 < length bytes.now }
    requires short { length bytes.now ≤ 4294967295 }
    ensures is { IfOk result (λ piece. piece ≡ piece_after before.now bytes.now) }
    ensures within { IfOk result (λ piece. IsWithin piece (length bytes.now)) }
{
    let first = bytes[0];
    if passes(Class::Blank, first) {
        Ok(Piece::Between { count: 1 })
    } else if passes(Class::NameStart, first) {
        name_at(alloc, bytes)
    } else if passes(Class::Digit, first) {
        Ok(number_at(bytes))
    } else if first == b'#' {
        Ok(pragma_at(before, bytes))
    } else {
        Ok(comment_or_sign_at(bytes))
    }
}

/// The tokens of a text, or the first place where it has none.
pub fn lex(alloc: Global, text: &str) -> Result<List<Token>, LexFault>
    requires { length text.now < 2 ^ 32 }
    ensures tokens { IfOk result (λ list. lexed text.now ≡ tokens list) }
    ensures few { IfOk result (λ list. length list ≤ length text.now) }
    ensures fault { IfErr result (λ fault. Refuses fault (lexed text.now)) }
{
    let bytes = text.as_bytes();
    let mut found = Vec::new(alloc);
    let mut at = 0;
    while at < bytes.len() {
        let (before, rest) = bytes.split_at(at);
        let piece = piece_after(alloc, before, rest)?;
        match piece {
            Piece::Between { count } => at += count,
            Piece::Is { token, count } => {
                found.push(token)?;
                at += count;
            }
            Piece::Bad => return Err(LexFault::Char { at: at as u32 }),
            Piece::Wide { further } => {
                return Err(LexFault::Wide {
                    at: (at + further) as u32,
                });
            }
        }
    }
    Ok(List::of(found))
}
