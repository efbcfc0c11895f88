ghost use Rattle.std.specs.Prelude.{◌≡◌, [], ◌∷◌, ◌+◌, ◌-◌, ◌^◌, ◌<◌, ◌≤◌, length, MatchOption, IfSome};
ghost use Rattle.patmos_syntax.specs.Statements as specs;
ghost use Rattle.patmos_syntax.specs.Where as places;

use patmos_forms::without_blanks;

/// Where a byte of a text stands.
#[derive(Clone, Copy)]
pub enum Where {
    /// In neither of these.
    Plain,
    /// After an opening brace that is not closed.
    Braces,
    /// After a `#` on its line.
    Comment,
}

impl Where {
    fn is_end(self, byte: u8) -> bool
        ensures { result ≡ places.is_end self byte }
    {
        match self {
            Where::Plain => byte == b'\n' || byte == b';',
            Where::Braces | Where::Comment => byte == b'\n',
        }
    }

    fn after(self, byte: u8) -> Where
        ensures { result ≡ places.after_byte self byte }
    {
        match (self, byte) {
            (Where::Comment, _) | (_, b'#') => Where::Comment,
            (Where::Plain, b'{') => Where::Braces,
            (Where::Braces, b'}') => Where::Plain,
            _ => self,
        }
    }

    fn is_comment(self) -> bool
        ensures { result ≡ places.is_comment self }
    {
        matches!(self, Where::Comment)
    }
}

/// A text that is not read yet, and the line that it begins on, from 1.
#[derive(Clone, Copy)]
pub struct Unread<'a> {
    pub line: u64,
    pub text: &'a [u8],
}

/// A statement, from its first byte that is no blank, and its line.
#[derive(Clone, Copy)]
pub struct Statement<'a> {
    pub line: u64,
    pub text: &'a [u8],
}

/// The line of the byte after this one.
fn line_after(line: u64, byte: u8) -> u64
    requires { line < 2 ^ 64 - 1 }
    ensures { result ≡ specs.line_after line byte }
{
    if byte == b'\n' { line + 1 } else { line }
}

/// The first piece of a text, without its comment, and what stands after the byte that ends it.
#[tactic(auto, using(crate::proofs::Pieces::piece_ends, crate::proofs::Pieces::piece_goes_on, crate::proofs::Pieces::comment_goes_on, crate::proofs::Pieces::text_ends))]
fn first_piece(unread: Unread<'_>) -> (&[u8], Unread<'_>)
    requires { unread.line + length unread.text.now < 2 ^ 64 }
    ensures piece { specs.statements_of unread.entry.line unread.entry.text.now
        ≡ specs.kept unread.entry.line result.0.now (specs.statements_of result.1.line result.1.text.now) }
    ensures shorter { length result.1.text.now ≤ length unread.entry.text.now - 1 }
    ensures lines { result.1.line + length result.1.text.now ≤ unread.entry.line + length unread.entry.text.now }
{
    let text = unread.text;
    let line = unread.line;
    let mut at = Where::Plain;
    let mut end = 0;
    for (i, byte) in text.iter().enumerate() {
        if at.is_end(*byte) {
            let (piece, _) = text.split_at(end);
            let (_, rest) = text.split_at(i + 1);
            let line = line_after(line, *byte);
            return (piece, Unread { line, text: rest });
        }
        at = at.after(*byte);
        if !at.is_comment() {
            end = i + 1;
        }
    }
    let (piece, _) = text.split_at(end);
    (piece, Unread { line, text: &[] })
}

/// The first statement of a text, and what stands after it; none where only blanks and comments are left.
///
/// The text ends before line 2^64.
pub fn next_statement(unread: Unread<'_>) -> Option<(Statement<'_>, Unread<'_>)>
    requires { unread.line + length unread.text.now < 2 ^ 64 }
    ensures first { MatchOption result (specs.statements_of unread.entry.line unread.entry.text.now ≡ [])
        (λ x. specs.statements_of unread.entry.line unread.entry.text.now
        ≡ (x.0.line, x.0.text.now) ∷ specs.statements_of x.1.line x.1.text.now) }
    ensures shorter { IfSome result (λ x. length x.1.text.now < length unread.entry.text.now) }
    ensures within { IfSome result (λ x. x.0.line < unread.entry.line + length unread.entry.text.now) }
    ensures lines { IfSome result (λ x. x.1.line + length x.1.text.now
        ≤ unread.entry.line + length unread.entry.text.now) }
{
    let mut unread = unread;
    while !unread.text.is_empty() {
        let (piece, rest) = first_piece(unread);
        let text = without_blanks(piece);
        if !text.is_empty() {
            let line = unread.line;
            return Some((Statement { line, text }, rest));
        }
        unread = rest;
    }
    None
}
