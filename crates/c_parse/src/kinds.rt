ghost use Rattle.std.specs.Prelude.{◌≡◌, ◌++◌, false, IfSome, IfNone};
ghost use Rattle.c_tree.specs.Tokens.{kind_tokens};
ghost use Rattle.c_tree.specs.declared.tokens.Keyword.TheVariants as keyword;
ghost use Rattle.c_parse.specs.Readers.{KindEnds, begins};
ghost use Rattle.c_parse.specs.Sorts.{is_keyword};

use crate::ahead::after_word;
use c_tree::{Keyword, Kind, Token};

/// The kind that comes next, and what is after it.
pub fn kind_at(tokens: &[Token]) -> Option<(Kind, &[Token])>
    ensures written { IfSome result (λ r. tokens.now ≡ kind_tokens r.0 ++ r.1.now) }
    ensures ends { IfSome result (λ r. KindEnds r.0 r.1.now) }
    ensures no_int { IfNone result (begins (is_keyword keyword.Int) tokens.now ≡ false) }
    ensures no_unsigned { IfNone result (begins (is_keyword keyword.Unsigned) tokens.now ≡ false) }
{
    if let Some(rest) = after_word(Keyword::Int, tokens) {
        return Some((Kind::Int, rest));
    }
    let rest = after_word(Keyword::Unsigned, tokens)?;
    match after_word(Keyword::Int, rest) {
        Some(behind) => Some((Kind::UnsignedInt, behind)),
        None => Some((Kind::Unsigned, rest)),
    }
}
