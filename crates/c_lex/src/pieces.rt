use c_tree::Token;

/// What begins at a place of a text.
#[derive(Debug, Drop)]
pub enum Piece {
    /// So many bytes between tokens: blanks or a comment.
    Between { count: usize },
    /// A token of so many bytes.
    Is { token: Token, count: usize },
    /// No token.
    Bad,
    /// A number above 2^32 - 1, so many bytes further on.
    Wide { further: usize },
}
