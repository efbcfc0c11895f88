ghost use Rattle.std.specs.Prelude.{◌≡◌, ◌+◌, ◌-◌, ◌<◌, [], ◌∷◌, ◌++◌, length, false, IfOk, IfErr};
ghost use Rattle.c_tree.specs.Tokens.{stmt_tokens, expr_tokens, right_tokens, kind_tokens, one, word};
ghost use Rattle.c_tree.specs.Fits.{StmtFits, ExprFits, RightFits};
ghost use Rattle.c_tree.specs.declared.tokens.Keyword.TheVariants as keyword;
ghost use Rattle.c_tree.specs.declared.tokens.Sign.TheVariants as sign;
ghost use Rattle.c_tree.specs.declared.tokens.Token.TheVariants as token;
ghost use Rattle.c_parse.specs.Expected.{Statement, Name, Number, Operand, Tail, Right as right_side, Arguments, Initial, AfterName, Given, Further, Only};
ghost use Rattle.c_parse.specs.Readers.{three_tokens, Passes, PassesTo, Refuses, begins, room_at};
ghost use Rattle.c_parse.specs.Sorts.{is_keyword, is_bound, may_open};

use crate::ahead::{
    Read, after, after_word, bracket, copy, name, name_at, number, opened, sign, stop,
};
use crate::expressions::{expression, index, up_to};
use crate::kinds::kind_at;
use crate::rights::{arguments, right};
use c_tree::{Expr, Keyword, Kind, Right, Sign, Stmt, Token};
use std::alloc::Global;
use tc_word::Text;

/// A statement that holds no other.
#[tactic(auto, using(crate::proofs::Starts::simple_starts, crate::proofs::Steps::sign_steps), unfolding(c_tree::specs::Tokens::stmt_tokens, c_tree::specs::Fits::StmtFits))]
pub fn simple(alloc: Global, depth: u32, tokens: &[Token]) -> Read<'_, Stmt>
    requires no_if { begins (is_keyword keyword.If) tokens.now ≡ false }
    requires no_bound { begins is_bound tokens.now ≡ false }
    requires no_block { begins (may_open (room_at depth) sign.OpenBrace) tokens.now ≡ false }
    requires no_while { begins (is_keyword keyword.While) tokens.now ≡ false }
    requires no_for { begins (is_keyword keyword.For) tokens.now ≡ false }
    ensures written { IfOk result (λ r. tokens.now ≡ stmt_tokens r.0 ++ r.1.now) }
    ensures fits { IfOk result (λ r. StmtFits r.0) }
    ensures passes { IfOk result (λ r. Passes depth (Statement ∷ []) tokens.now [] r.1.now) }
    ensures refuses { IfErr result (Refuses depth (Statement ∷ []) tokens.now) }
    ensures shorter { IfOk result (λ r. length r.1.now < length tokens.now) }
{
    if let Some((kind, behind)) = kind_at(tokens) {
        return declaration(alloc, depth, kind, behind);
    }
    if let Some((text, behind)) = name_at(tokens) {
        return named(alloc, depth, text, behind);
    }
    if let Some(behind) = after_word(Keyword::Send, tokens) {
        return sent(alloc, depth, behind);
    }
    if let Some(behind) = after_word(Keyword::Break, tokens) {
        let rest = sign(Sign::Semicolon, behind)?;
        return Ok((Stmt::Break, rest));
    }
    if let Some(behind) = after_word(Keyword::Continue, tokens) {
        let rest = sign(Sign::Semicolon, behind)?;
        return Ok((Stmt::Continue, rest));
    }
    let Some(behind) = after_word(Keyword::Return, tokens) else {
        return Err(stop(tokens));
    };
    given(alloc, depth, behind)
}

// a variable of a block, after its kind
#[tactic(auto, using(crate::proofs::Starts::declaration_starts, crate::proofs::Steps::name_steps), unfolding(c_tree::specs::Tokens::stmt_tokens, c_tree::specs::Fits::StmtFits))]
fn declaration(alloc: Global, depth: u32, kind: Kind, tokens: &[Token]) -> Read<'_, Stmt>
    ensures written { IfOk result (λ r. kind_tokens kind ++ tokens.now ≡ stmt_tokens r.0 ++ r.1.now) }
    ensures fits { IfOk result (λ r. StmtFits r.0) }
    ensures passes { IfOk result (λ r. Passes depth (Name ∷ Initial ∷ []) tokens.now [] r.1.now) }
    ensures refuses { IfErr result (Refuses depth (Name ∷ Initial ∷ []) tokens.now) }
    ensures shorter { IfOk result (λ r. length r.1.now < length tokens.now) }
{
    let (text, behind) = name(tokens)?;
    if let Some(behind) = after(Sign::Assign, behind) {
        return initial(alloc, depth, kind, text, behind);
    }
    let Some(rest) = after(Sign::Semicolon, behind) else {
        return Err(stop(behind));
    };
    let name = copy(alloc, text)?;
    Ok((
        Stmt::Declare {
            kind,
            name,
            right: None,
        },
        rest,
    ))
}

// a variable of this kind and name with its first value, after the sign
#[tactic(auto, unfolding(c_tree::specs::Tokens::stmt_tokens, c_tree::specs::Fits::StmtFits))]
fn initial<'t>(
    alloc: Global,
    depth: u32,
    kind: Kind,
    text: &Text,
    tokens: &'t [Token],
) -> Read<'t, Stmt>
    ensures written { IfOk result (λ r. kind_tokens kind ++ token.Word text.now ∷ one sign.Assign ∷ tokens.now
        ≡ stmt_tokens r.0 ++ r.1.now) }
    ensures fits { IfOk result (λ r. StmtFits r.0) }
    ensures passes { IfOk result (λ r. Passes depth (right_side ∷ Only sign.Semicolon ∷ []) tokens.now [] r.1.now) }
    ensures refuses { IfErr result (Refuses depth (right_side ∷ Only sign.Semicolon ∷ []) tokens.now) }
    ensures shorter { IfOk result (λ r. length r.1.now < length tokens.now) }
{
    let name = copy(alloc, text)?;
    let (right, rest) = value(alloc, depth, tokens)?;
    let right = Some(right);
    Ok((Stmt::Declare { kind, name, right }, rest))
}

// what is assigned, and the semicolon after it
#[tactic(auto, using(crate::proofs::Steps::sign_read, crate::proofs::Steps::no_sign))]
fn value(alloc: Global, depth: u32, tokens: &[Token]) -> Read<'_, Right>
    ensures written { IfOk result (λ r. tokens.now ≡ right_tokens r.0 ++ one sign.Semicolon ∷ r.1.now) }
    ensures fits { IfOk result (λ r. RightFits r.0) }
    ensures passes { IfOk result (λ r. Passes depth (right_side ∷ Only sign.Semicolon ∷ []) tokens.now [] r.1.now) }
    ensures refuses { IfErr result (Refuses depth (right_side ∷ Only sign.Semicolon ∷ []) tokens.now) }
    ensures shorter { IfOk result (λ r. length r.1.now < length tokens.now) }
{
    let (right, behind) = right(alloc, depth, tokens)?;
    let rest = sign(Sign::Semicolon, behind)?;
    Ok((right, rest))
}

// a statement that begins with this name
#[tactic(auto, using(crate::proofs::Starts::named_starts))]
fn named<'t>(alloc: Global, depth: u32, text: &Text, tokens: &'t [Token]) -> Read<'t, Stmt>
    ensures written { IfOk result (λ r. token.Word text.now ∷ tokens.now ≡ stmt_tokens r.0 ++ r.1.now) }
    ensures fits { IfOk result (λ r. StmtFits r.0) }
    ensures passes { IfOk result (λ r. Passes depth (AfterName ∷ []) tokens.now [] r.1.now) }
    ensures refuses { IfErr result (Refuses depth (AfterName ∷ []) tokens.now) }
    ensures shorter { IfOk result (λ r. length r.1.now < length tokens.now) }
{
    if let Some(behind) = after(Sign::Assign, tokens) {
        return set(alloc, depth, text, behind);
    }
    if let Some(behind) = opened(Sign::OpenBracket, depth, tokens) {
        return set_element(alloc, depth, text, behind);
    }
    let Some(behind) = opened(Sign::OpenParenthesis, depth, tokens) else {
        return Err(stop(tokens));
    };
    call(alloc, depth, text, behind)
}

// what is assigned to the variable of this name, after the sign
#[tactic(auto, unfolding(c_tree::specs::Tokens::stmt_tokens, c_tree::specs::Fits::StmtFits))]
fn set<'t>(alloc: Global, depth: u32, text: &Text, tokens: &'t [Token]) -> Read<'t, Stmt>
    ensures written { IfOk result (λ r. token.Word text.now ∷ one sign.Assign ∷ tokens.now
        ≡ stmt_tokens r.0 ++ r.1.now) }
    ensures fits { IfOk result (λ r. StmtFits r.0) }
    ensures passes { IfOk result (λ r. Passes depth (right_side ∷ Only sign.Semicolon ∷ []) tokens.now [] r.1.now) }
    ensures refuses { IfErr result (Refuses depth (right_side ∷ Only sign.Semicolon ∷ []) tokens.now) }
    ensures shorter { IfOk result (λ r. length r.1.now < length tokens.now) }
{
    let name = copy(alloc, text)?;
    let (right, rest) = value(alloc, depth, tokens)?;
    Ok((Stmt::Set { name, right }, rest))
}

// the index of an element of the array of this name, and what is assigned to it, after the bracket
#[tactic(auto, using(crate::proofs::Steps::sign_steps), unfolding(c_tree::specs::Tokens::stmt_tokens, c_tree::specs::Fits::StmtFits))]
fn set_element<'t>(alloc: Global, depth: u32, text: &Text, tokens: &'t [Token]) -> Read<'t, Stmt>
    requires { depth < 64 }
    ensures written { IfOk result (λ r. token.Word text.now ∷ one sign.OpenBracket ∷ tokens.now
        ≡ stmt_tokens r.0 ++ r.1.now) }
    ensures fits { IfOk result (λ r. StmtFits r.0) }
    ensures passes { IfOk result (λ r. PassesTo (depth + 1) (Operand ∷ Tail ∷ Only sign.CloseBracket
        ∷ Only sign.Assign ∷ right_side ∷ Only sign.Semicolon ∷ []) tokens.now depth [] r.1.now) }
    ensures refuses { IfErr result (Refuses (depth + 1) (Operand ∷ Tail ∷ Only sign.CloseBracket
        ∷ Only sign.Assign ∷ right_side ∷ Only sign.Semicolon ∷ []) tokens.now) }
    ensures shorter { IfOk result (λ r. length r.1.now < length tokens.now) }
{
    let name = copy(alloc, text)?;
    let (index, behind) = index(alloc, depth, tokens)?;
    let behind = sign(Sign::Assign, behind)?;
    let (right, rest) = value(alloc, depth, behind)?;
    Ok((Stmt::SetElement { name, index, right }, rest))
}

// the arguments of a call of the function of this name, after the parenthesis
#[tactic(auto, using(crate::proofs::Steps::sign_steps), unfolding(c_tree::specs::Tokens::stmt_tokens, c_tree::specs::Fits::StmtFits))]
fn call<'t>(alloc: Global, depth: u32, text: &Text, tokens: &'t [Token]) -> Read<'t, Stmt>
    requires { depth < 64 }
    ensures written { IfOk result (λ r. token.Word text.now ∷ one sign.OpenParenthesis ∷ tokens.now
        ≡ stmt_tokens r.0 ++ r.1.now) }
    ensures fits { IfOk result (λ r. StmtFits r.0) }
    ensures passes { IfOk result (λ r. PassesTo (depth + 1) (Arguments ∷ Only sign.Semicolon
        ∷ []) tokens.now depth [] r.1.now) }
    ensures refuses { IfErr result (Refuses (depth + 1) (Arguments ∷ Only sign.Semicolon ∷ []) tokens.now) }
    ensures shorter { IfOk result (λ r. length r.1.now < length tokens.now) }
{
    let name = copy(alloc, text)?;
    let (args, behind) = arguments(alloc, depth + 1, tokens)?;
    let rest = sign(Sign::Semicolon, behind)?;
    Ok((Stmt::Call { name, args }, rest))
}

// a comma and an expression
#[tactic(auto, using(crate::proofs::Starts::further_comma, crate::proofs::Starts::no_further))]
fn further(alloc: Global, depth: u32, tokens: &[Token]) -> Read<'_, Expr>
    ensures written { IfOk result (λ r. tokens.now ≡ one sign.Comma ∷ (expr_tokens r.0 ++ r.1.now)) }
    ensures fits { IfOk result (λ r. ExprFits r.0) }
    ensures passes { IfOk result (λ r. Passes depth (Further ∷ []) tokens.now [] r.1.now) }
    ensures refuses { IfErr result (Refuses depth (Further ∷ []) tokens.now) }
    ensures shorter { IfOk result (λ r. length r.1.now < length tokens.now) }
{
    let behind = sign(Sign::Comma, tokens)?;
    expression(alloc, depth, behind)
}

// how many words are sent, and the end of the sending
#[tactic(auto, using(crate::proofs::Steps::sign_read, crate::proofs::Steps::no_sign))]
fn count(alloc: Global, depth: u32, tokens: &[Token]) -> Read<'_, Expr>
    requires { depth < 64 }
    ensures written { IfOk result (λ r. tokens.now ≡ one sign.Comma ∷ (expr_tokens r.0
        ++ one sign.CloseParenthesis ∷ one sign.Semicolon ∷ r.1.now)) }
    ensures fits { IfOk result (λ r. ExprFits r.0) }
    ensures passes { IfOk result (λ r. PassesTo (depth + 1) (Further ∷ Only sign.CloseParenthesis
        ∷ Only sign.Semicolon ∷ []) tokens.now depth [] r.1.now) }
    ensures refuses { IfErr result (Refuses (depth + 1) (Further ∷ Only sign.CloseParenthesis
        ∷ Only sign.Semicolon ∷ []) tokens.now) }
    ensures shorter { IfOk result (λ r. length r.1.now < length tokens.now) }
{
    let (count, behind) = further(alloc, depth + 1, tokens)?;
    let behind = sign(Sign::CloseParenthesis, behind)?;
    let rest = sign(Sign::Semicolon, behind)?;
    Ok((count, rest))
}

// where a sending takes its words, where it puts them, and how many, up to its end
fn three(alloc: Global, depth: u32, tokens: &[Token]) -> Read<'_, (Expr, Expr, Expr)>
    requires { depth < 64 }
    ensures written { IfOk result (λ r. tokens.now ≡ three_tokens r.0.0 r.0.1 r.0.2
        ++ one sign.CloseParenthesis ∷ one sign.Semicolon ∷ r.1.now) }
    ensures source_fits { IfOk result (λ r. ExprFits r.0.0) }
    ensures target_fits { IfOk result (λ r. ExprFits r.0.1) }
    ensures count_fits { IfOk result (λ r. ExprFits r.0.2) }
    ensures passes { IfOk result (λ r. PassesTo (depth + 1) (Further ∷ Further ∷ Further ∷ Only sign.CloseParenthesis
        ∷ Only sign.Semicolon ∷ []) tokens.now depth [] r.1.now) }
    ensures refuses { IfErr result (Refuses (depth + 1) (Further ∷ Further ∷ Further ∷ Only sign.CloseParenthesis
        ∷ Only sign.Semicolon ∷ []) tokens.now) }
    ensures shorter { IfOk result (λ r. length r.1.now < length tokens.now) }
{
    let (source, behind) = further(alloc, depth + 1, tokens)?;
    let (target, behind) = further(alloc, depth + 1, behind)?;
    let (count, rest) = count(alloc, depth, behind)?;
    Ok(((source, target, count), rest))
}

// a sending, after its word
#[tactic(auto, using(crate::proofs::Steps::number_steps, crate::proofs::Steps::bracket_steps), unfolding(c_tree::specs::Tokens::stmt_tokens, c_tree::specs::Fits::StmtFits))]
fn sent(alloc: Global, depth: u32, tokens: &[Token]) -> Read<'_, Stmt>
    ensures written { IfOk result (λ r. word keyword.Send ∷ tokens.now ≡ stmt_tokens r.0 ++ r.1.now) }
    ensures fits { IfOk result (λ r. StmtFits r.0) }
    ensures passes { IfOk result (λ r. Passes depth (Only sign.OpenParenthesis ∷ Number ∷ Further ∷ Further ∷ Further
        ∷ Only sign.CloseParenthesis ∷ Only sign.Semicolon ∷ []) tokens.now [] r.1.now) }
    ensures refuses { IfErr result
        (Refuses depth (Only sign.OpenParenthesis ∷ Number ∷ Further ∷ Further ∷ Further ∷ Only sign.CloseParenthesis
        ∷ Only sign.Semicolon ∷ []) tokens.now) }
    ensures shorter { IfOk result (λ r. length r.1.now < length tokens.now) }
{
    let behind = bracket(Sign::OpenParenthesis, depth, tokens)?;
    let ((core, core_unsigned), behind) = number(behind)?;
    let ((source, target, count), rest) = three(alloc, depth, behind)?;
    Ok((
        Stmt::Send {
            core,
            core_unsigned,
            source,
            target,
            count,
        },
        rest,
    ))
}

// what a function gives, after `return`
#[tactic(auto, using(crate::proofs::Starts::given_starts), unfolding(c_tree::specs::Tokens::stmt_tokens, c_tree::specs::Fits::StmtFits))]
fn given(alloc: Global, depth: u32, tokens: &[Token]) -> Read<'_, Stmt>
    ensures written { IfOk result (λ r. word keyword.Return ∷ tokens.now ≡ stmt_tokens r.0 ++ r.1.now) }
    ensures fits { IfOk result (λ r. StmtFits r.0) }
    ensures passes { IfOk result (λ r. Passes depth (Given ∷ []) tokens.now [] r.1.now) }
    ensures refuses { IfErr result (Refuses depth (Given ∷ []) tokens.now) }
    ensures shorter { IfOk result (λ r. length r.1.now < length tokens.now) }
{
    if let Some(rest) = after(Sign::Semicolon, tokens) {
        return Ok((Stmt::Return { value: None }, rest));
    }
    let (value, rest) = up_to(alloc, depth, Sign::Semicolon, tokens)?;
    Ok((Stmt::Return { value: Some(value) }, rest))
}
