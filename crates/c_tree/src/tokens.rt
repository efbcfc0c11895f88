use tc_word::Text;

/// A token of a C text.
#[derive(Debug, Drop)]
pub enum Token {
    /// A name: a letter or `_`, and then letters, digits and `_`.
    Word { text: Text },
    /// A number, and whether it is unsigned: by its suffix, or because it passes 2^31 - 1.
    Number { value: u32, unsigned: bool },
    /// The bound of a loop: how many iterations it makes.
    Bound { min: u32, max: u32 },
    /// A word that is no name.
    Keyword { word: Keyword },
    /// A sign.
    Sign { sign: Sign },
}

/// The words that are no names.
#[derive(Clone, Copy, Debug, PartialEq, Eq)]
pub enum Keyword {
    Int,
    Unsigned,
    Void,
    Scratchpad,
    Send,
    If,
    Else,
    While,
    For,
    Break,
    Continue,
    Return,
    /// Any other keyword of C99, which no program uses.
    Other,
}

/// The signs.
#[derive(Clone, Copy, Debug, PartialEq, Eq)]
pub enum Sign {
    OpenParenthesis,
    CloseParenthesis,
    OpenBracket,
    CloseBracket,
    OpenBrace,
    CloseBrace,
    Semicolon,
    Comma,
    Assign,
    Or,
    And,
    BitOr,
    BitXor,
    BitAnd,
    Equal,
    NotEqual,
    Less,
    Greater,
    LessEqual,
    GreaterEqual,
    ShiftLeft,
    ShiftRight,
    Plus,
    Minus,
    Star,
    Slash,
    Percent,
    Tilde,
    Exclamation,
}
