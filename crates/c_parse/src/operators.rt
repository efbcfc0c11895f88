ghost use Rattle.std.specs.Prelude.{◌≡◌, ◌∷◌, ◌≢◌, ◌≤◌, false, MatchOption};
ghost use Rattle.c_tree.specs.Tokens.{one, binary_sign, unary_sign};
ghost use Rattle.c_tree.specs.Fits.{level_of};
ghost use Rattle.c_parse.specs.Readers.{begins, level_ahead};
ghost use Rattle.c_parse.specs.Sorts.{is_prefix, is_prefix_sign, sign_level, level_at};

use c_tree::{BinaryOp, Sign, Token, UnaryOp};

/// The operator of this level that comes next, and what is after it.
pub fn operator_at(level: u8, tokens: &[Token]) -> Option<(BinaryOp, &[Token])>
    requires { 1 ≤ level }
    ensures { MatchOption result (level_ahead tokens.now ≢ level)
        (λ r. (tokens.now ≡ one (binary_sign r.0) ∷ r.1.now) × (level_of r.0 ≡ level)) }
{
    let [next, rest @ ..] = tokens else {
        return None;
    };
    let op = operator_in(next)?;
    if level_of(op) == level {
        Some((op, rest))
    } else {
        None
    }
}

/// The level of an operator, 1 to 10: the higher, the closer it binds.
pub fn level_of(op: BinaryOp) -> u8
    ensures { result ≡ level_of op }
{
    match op {
        BinaryOp::Or => 1,
        BinaryOp::And => 2,
        BinaryOp::BitOr => 3,
        BinaryOp::BitXor => 4,
        BinaryOp::BitAnd => 5,
        BinaryOp::Equal | BinaryOp::NotEqual => 6,
        BinaryOp::Less | BinaryOp::Greater | BinaryOp::LessEqual | BinaryOp::GreaterEqual => 7,
        BinaryOp::ShiftLeft | BinaryOp::ShiftRight => 8,
        BinaryOp::Plus | BinaryOp::Minus => 9,
        BinaryOp::Times | BinaryOp::Divide | BinaryOp::Remainder => 10,
    }
}

#[tactic(auto, unfolding(crate::specs::Sorts::level_at))]
fn operator_in(token: &Token) -> Option<BinaryOp>
    ensures { MatchOption result (level_at token.now ≡ 0)
        (λ op. (token.now ≡ one (binary_sign op)) × (level_of op ≡ level_at token.now)) }
{
    match token {
        Token::Sign { sign } => operator(*sign),
        _ => None,
    }
}

#[tactic(auto, unfolding(crate::specs::Sorts::is_prefix))]
fn prefix_in(token: &Token) -> Option<UnaryOp>
    ensures { MatchOption result (is_prefix token.now ≡ false) (λ op. token.now ≡ one (unary_sign op)) }
{
    match token {
        Token::Sign { sign } => prefix(*sign),
        _ => None,
    }
}

/// The operator between operands that a sign is, if it is one.
pub fn operator(sign: Sign) -> Option<BinaryOp>
    ensures { MatchOption result (sign_level sign ≡ 0) (λ op. (binary_sign op ≡ sign)
        × (level_of op ≡ sign_level sign)) }
{
    match sign {
        Sign::Or => Some(BinaryOp::Or),
        Sign::And => Some(BinaryOp::And),
        Sign::BitOr => Some(BinaryOp::BitOr),
        Sign::BitXor => Some(BinaryOp::BitXor),
        Sign::BitAnd => Some(BinaryOp::BitAnd),
        Sign::Equal => Some(BinaryOp::Equal),
        Sign::NotEqual => Some(BinaryOp::NotEqual),
        Sign::Less => Some(BinaryOp::Less),
        Sign::Greater => Some(BinaryOp::Greater),
        Sign::LessEqual => Some(BinaryOp::LessEqual),
        Sign::GreaterEqual => Some(BinaryOp::GreaterEqual),
        Sign::ShiftLeft => Some(BinaryOp::ShiftLeft),
        Sign::ShiftRight => Some(BinaryOp::ShiftRight),
        Sign::Plus => Some(BinaryOp::Plus),
        Sign::Minus => Some(BinaryOp::Minus),
        Sign::Star => Some(BinaryOp::Times),
        Sign::Slash => Some(BinaryOp::Divide),
        Sign::Percent => Some(BinaryOp::Remainder),
        _ => None,
    }
}

/// The operator before an operand that comes next, and what is after it.
pub fn prefix_at(tokens: &[Token]) -> Option<(UnaryOp, &[Token])>
    ensures { MatchOption result (begins is_prefix tokens.now ≡ false) (λ r. tokens.now
        ≡ one (unary_sign r.0) ∷ r.1.now) }
{
    let [next, rest @ ..] = tokens else {
        return None;
    };
    Some((prefix_in(next)?, rest))
}

/// The operator before an operand that a sign is, if it is one.
pub fn prefix(sign: Sign) -> Option<UnaryOp>
    ensures { MatchOption result (is_prefix_sign sign ≡ false) (λ op. unary_sign op ≡ sign) }
{
    match sign {
        Sign::Minus => Some(UnaryOp::Minus),
        Sign::Tilde => Some(UnaryOp::Complement),
        Sign::Exclamation => Some(UnaryOp::Not),
        Sign::Plus => Some(UnaryOp::Plus),
        _ => None,
    }
}
