ghost use Rattle.std.specs.Prelude.{◌≡◌, [], ◌∷◌, ◌<◌, length, false, true, MatchOption, IfOk, IfErr};
ghost use Rattle.c_tree.specs.Tokens.{one, word as word_token};
ghost use Rattle.c_tree.specs.declared.tokens.Token.TheVariants as token;
ghost use Rattle.c_parse.specs.declared.faults.Stop.TheVariants as stops;
ghost use Rattle.c_parse.specs.Readers.{begins, room_at};
ghost use Rattle.c_parse.specs.Sorts.{is_sign, is_keyword, is_name, is_number, is_bound, may_open};

use crate::faults::Stop;
use c_tree::{Bound, Keyword, Sign, Token};
use std::alloc::{AllocError, Global};
use tc_word::Text;

/// How many brackets are open at once, at most.
pub const LIMIT: u32 = 64;

/// What was read, and the tokens after it.
pub type Read<'t, T> = Result<(T, &'t [Token]), Stop>;

#[tactic(auto, using(crate::proofs::Tests::sign_tested, crate::proofs::Tests::sign_found), unfolding(crate::specs::Sorts::is_sign))]
fn is_sign(sign: Sign, token: &Token) -> bool
    ensures is { result ≡ is_sign sign token.now }
    ensures found { result ≡ true → token.now ≡ one sign }
{
    match token {
        Token::Sign { sign: next } => *next == sign,
        _ => false,
    }
}

#[tactic(auto, using(crate::proofs::Tests::keyword_tested, crate::proofs::Tests::keyword_found), unfolding(crate::specs::Sorts::is_keyword))]
fn is_keyword(word: Keyword, token: &Token) -> bool
    ensures is { result ≡ is_keyword word token.now }
    ensures found { result ≡ true → token.now ≡ word_token word }
{
    match token {
        Token::Keyword { word: next } => *next == word,
        _ => false,
    }
}

/// What is after this sign, if it comes next.
pub fn after(sign: Sign, tokens: &[Token]) -> Option<&[Token]>
    ensures { MatchOption result (begins (is_sign sign) tokens.now ≡ false) (λ rest. tokens.now ≡ one sign ∷ rest.now) }
{
    let [next, rest @ ..] = tokens else {
        return None;
    };
    if is_sign(sign, next) {
        Some(rest)
    } else {
        None
    }
}

/// What is after this bracket, if it comes next and one more may be open.
#[tactic(auto, using(crate::proofs::Tests::may_not_open, crate::proofs::Tests::none_open))]
pub fn opened(sign: Sign, depth: u32, tokens: &[Token]) -> Option<&[Token]>
    ensures { MatchOption result (begins (may_open (room_at depth) sign) tokens.now ≡ false)
        (λ rest. (tokens.now ≡ one sign ∷ rest.now) × (depth < 64)) }
{
    if depth < LIMIT {
        after(sign, tokens)
    } else {
        None
    }
}

/// What is after this word, if it comes next.
pub fn after_word(word: Keyword, tokens: &[Token]) -> Option<&[Token]>
    ensures { MatchOption result (begins (is_keyword word) tokens.now ≡ false) (λ rest. tokens.now
        ≡ word_token word ∷ rest.now) }
{
    let [next, rest @ ..] = tokens else {
        return None;
    };
    if is_keyword(word, next) {
        Some(rest)
    } else {
        None
    }
}

/// The name that comes next, and what is after it.
#[tactic(auto, unfolding(crate::specs::Sorts::is_name))]
pub fn name_at(tokens: &[Token]) -> Option<(&Text, &[Token])>
    ensures { MatchOption result (begins is_name tokens.now ≡ false) (λ r. tokens.now ≡ token.Word r.0.now ∷ r.1.now) }
{
    let [next, rest @ ..] = tokens else {
        return None;
    };
    match next {
        Token::Word { text } => Some((text, rest)),
        _ => None,
    }
}

/// The number that comes next, whether it is unsigned, and what is after it.
#[tactic(auto, unfolding(crate::specs::Sorts::is_number))]
pub fn number_at(tokens: &[Token]) -> Option<(u32, bool, &[Token])>
    ensures { MatchOption result (begins is_number tokens.now ≡ false) (λ r. tokens.now
        ≡ token.Number r.0 r.1 ∷ r.2.now) }
{
    let [next, rest @ ..] = tokens else {
        return None;
    };
    match next {
        Token::Number { value, unsigned } => Some((*value, *unsigned, rest)),
        _ => None,
    }
}

/// The bound that comes next, and what is after it.
#[tactic(auto, unfolding(crate::specs::Sorts::is_bound))]
pub fn bound_at(tokens: &[Token]) -> Option<(Bound, &[Token])>
    ensures { MatchOption result (begins is_bound tokens.now ≡ false) (λ r. tokens.now
        ≡ token.Bound r.0.min r.0.max ∷ r.1.now) }
{
    let [next, rest @ ..] = tokens else {
        return None;
    };
    match next {
        Token::Bound { min, max } => Some((
            Bound {
                min: *min,
                max: *max,
            },
            rest,
        )),
        _ => None,
    }
}

/// No program goes on with the next of these tokens.
pub fn stop(tokens: &[Token]) -> Stop
    ensures { result ≡ stops.Syntax (length tokens.now) }
{
    Stop::Syntax { left: tokens.len() }
}

/// This sign has to come next.
pub fn sign(sign: Sign, tokens: &[Token]) -> Result<&[Token], Stop>
    ensures read { IfOk result (λ rest. tokens.now ≡ one sign ∷ rest.now) }
    ensures refuses { IfErr result (λ e. (e ≡ stops.Syntax (length tokens.now))
        × (begins (is_sign sign) tokens.now ≡ false)) }
{
    match after(sign, tokens) {
        Some(rest) => Ok(rest),
        None => Err(stop(tokens)),
    }
}

/// This bracket has to come next, and one more has to be allowed.
pub fn bracket(sign: Sign, depth: u32, tokens: &[Token]) -> Result<&[Token], Stop>
    ensures read { IfOk result (λ rest. (tokens.now ≡ one sign ∷ rest.now) × (depth < 64)) }
    ensures refuses { IfErr result (λ e. (e ≡ stops.Syntax (length tokens.now))
        × (begins (may_open (room_at depth) sign) tokens.now ≡ false)) }
{
    match opened(sign, depth, tokens) {
        Some(rest) => Ok(rest),
        None => Err(stop(tokens)),
    }
}

/// A name has to come next.
pub fn name(tokens: &[Token]) -> Read<'_, &Text>
    ensures read { IfOk result (λ r. tokens.now ≡ token.Word r.0.now ∷ r.1.now) }
    ensures refuses { IfErr result (λ e. (e ≡ stops.Syntax (length tokens.now)) × (begins is_name tokens.now ≡ false)) }
{
    match name_at(tokens) {
        Some((text, rest)) => Ok((text, rest)),
        None => Err(stop(tokens)),
    }
}

/// A number has to come next.
pub fn number(tokens: &[Token]) -> Read<'_, (u32, bool)>
    ensures read { IfOk result (λ r. tokens.now ≡ token.Number r.0.0 r.0.1 ∷ r.1.now) }
    ensures refuses { IfErr result (λ e. (e ≡ stops.Syntax (length tokens.now))
        × (begins is_number tokens.now ≡ false)) }
{
    match number_at(tokens) {
        Some((value, unsigned, rest)) => Ok(((value, unsigned), rest)),
        None => Err(stop(tokens)),
    }
}

/// A copy of a name.
pub fn copy(alloc: Global, text: &Text) -> Result<Text, AllocError>
    ensures { IfOk result (λ name. name ≡ text.now) }
{
    Ok(Text::of(String::from_str(alloc, text.as_str())?))
}
