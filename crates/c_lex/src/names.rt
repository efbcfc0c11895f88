ghost use Rattle.std.specs.Prelude.{◌≡◌, IfOk};
ghost use Rattle.c_lex.specs.Names.{keyword_among, keywords, is_among, unused, word_of};

use c_tree::{Keyword, Token};
use std::alloc::{AllocError, Global};
use tc_word::Text;

// the keyword that a name is, if it is one that programs use
fn used_keyword(name: &str) -> Option<Keyword>
    ensures { result ≡ keyword_among name.now keywords }
{
    match name {
        "int" => Some(Keyword::Int),
        "unsigned" => Some(Keyword::Unsigned),
        "void" => Some(Keyword::Void),
        "_SPM" => Some(Keyword::Scratchpad),
        "send" => Some(Keyword::Send),
        "if" => Some(Keyword::If),
        "else" => Some(Keyword::Else),
        "while" => Some(Keyword::While),
        "for" => Some(Keyword::For),
        "break" => Some(Keyword::Break),
        "continue" => Some(Keyword::Continue),
        "return" => Some(Keyword::Return),
        _ => None,
    }
}

// whether a name is a keyword that no program uses
fn is_unused(name: &str) -> bool
    ensures { result ≡ is_among name.now unused }
{
    matches!(
        name,
        "auto"
            | "case"
            | "char"
            | "const"
            | "default"
            | "do"
            | "double"
            | "enum"
            | "extern"
            | "float"
            | "goto"
            | "inline"
            | "long"
            | "register"
            | "restrict"
            | "short"
            | "signed"
            | "sizeof"
            | "static"
            | "struct"
            | "switch"
            | "typedef"
            | "union"
            | "volatile"
            | "_Bool"
            | "_Complex"
            | "_Imaginary"
    )
}

/// What is written as a name: a keyword, or that name.
pub(crate) fn word_of(alloc: Global, name: &str) -> Result<Token, AllocError>
    ensures { IfOk result (λ token. token ≡ word_of name.now) }
{
    match used_keyword(name) {
        Some(word) => Ok(Token::Keyword { word }),
        None if is_unused(name) => Ok(Token::Keyword {
            word: Keyword::Other,
        }),
        None => Ok(Token::Word {
            text: Text::of(String::from_str(alloc, name)?),
        }),
    }
}
