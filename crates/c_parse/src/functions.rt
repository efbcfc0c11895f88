ghost use Rattle.std.specs.Prelude.{◌≡◌, ◌+◌, ◌-◌, ◌<◌, [], ◌∷◌, ◌++◌, length, IsTrue, IfOk, IfErr};
ghost use Rattle.c_tree.specs.Tokens.{kind_tokens, parameters_tokens, gives_tokens, function_tokens, one};
ghost use Rattle.c_tree.specs.Fits.{FunctionFits};
ghost use Rattle.c_tree.specs.declared.tokens.Sign.TheVariants as sign;
ghost use Rattle.c_tree.specs.declared.tokens.Token.TheVariants as token;
ghost use Rattle.c_parse.specs.Expected.{Kind as kind_here, Name, Parameters, MoreParameters, Block};
ghost use Rattle.c_parse.specs.Readers.{Passes, PassesTo, Refuses, listed};

use crate::ahead::{Read, after, after_word, copy, name, sign, stop};
use crate::kinds::kind_at;
use crate::statements::block;
use c_tree::{Function, Keyword, Kind, Parameter, Sign, Token};
use std::alloc::Global;
use tc_word::{List, Text};

/// A kind.
#[tactic(auto, using(crate::proofs::Starts::kind_kind, crate::proofs::Starts::no_kind))]
pub fn kind(depth: u32, tokens: &[Token]) -> Read<'_, Kind>
    ensures written { IfOk result (λ r. tokens.now ≡ kind_tokens r.0 ++ r.1.now) }
    ensures passes { IfOk result (λ r. Passes depth (kind_here ∷ []) tokens.now [] r.1.now) }
    ensures refuses { IfErr result (Refuses depth (kind_here ∷ []) tokens.now) }
    ensures shorter { IfOk result (λ r. length r.1.now < length tokens.now) }
{
    match kind_at(tokens) {
        Some((kind, rest)) => Ok((kind, rest)),
        None => Err(stop(tokens)),
    }
}

// a parameter after its kind
#[tactic(auto, using(crate::proofs::Steps::name_read, crate::proofs::Steps::no_name))]
fn parameter(alloc: Global, depth: u32, kind: Kind, tokens: &[Token]) -> Read<'_, Parameter>
    ensures kind { IfOk result (λ r. r.0.kind ≡ kind) }
    ensures written { IfOk result (λ r. tokens.now ≡ token.Word r.0.name ∷ r.1.now) }
    ensures passes { IfOk result (λ r. Passes depth (Name ∷ []) tokens.now [] r.1.now) }
    ensures refuses { IfErr result (Refuses depth (Name ∷ []) tokens.now) }
    ensures shorter { IfOk result (λ r. length r.1.now < length tokens.now) }
{
    let (text, rest) = name(tokens)?;
    let name = copy(alloc, text)?;
    Ok((Parameter { kind, name }, rest))
}

/// The parameters of a function, after their parenthesis, and the closing one. The first part says whether `void`
/// stands for them.
#[tactic(auto, using(crate::proofs::Starts::parameters_starts, crate::proofs::Steps::sign_steps))]
fn parameters(alloc: Global, depth: u32, tokens: &[Token]) -> Read<'_, (bool, List<Parameter>)>
    ensures none { IfOk result (λ r. IsTrue r.0.0 → r.0.1 ≡ []) }
    ensures written { IfOk result (λ r. tokens.now ≡ listed r.0.0 r.0.1 ++ one sign.CloseParenthesis ∷ r.1.now) }
    ensures passes { IfOk result (λ r. PassesTo depth (Parameters ∷ []) tokens.now (depth - 1) [] r.1.now) }
    ensures refuses { IfErr result (Refuses depth (Parameters ∷ []) tokens.now) }
    ensures shorter { IfOk result (λ r. length r.1.now < length tokens.now) }
{
    if let Some(rest) = after(Sign::CloseParenthesis, tokens) {
        return Ok(((false, List::of(Vec::new(alloc))), rest));
    }
    if let Some(behind) = after_word(Keyword::Void, tokens) {
        let rest = sign(Sign::CloseParenthesis, behind)?;
        return Ok(((true, List::of(Vec::new(alloc))), rest));
    }
    let Some((kind, behind)) = kind_at(tokens) else {
        return Err(stop(tokens));
    };
    let (parameters, rest) = some_parameters(alloc, depth, kind, behind)?;
    Ok(((false, parameters), rest))
}

// one parameter or more after the first one's kind, and the parenthesis that closes
#[tactic(auto, using(crate::proofs::Starts::parameters_done, crate::proofs::Starts::no_more_parameters))]
fn some_parameters(
    alloc: Global,
    depth: u32,
    kind: Kind,
    tokens: &[Token],
) -> Read<'_, List<Parameter>>
    ensures written { IfOk result (λ r. kind_tokens kind ++ tokens.now
        ≡ parameters_tokens r.0 ++ one sign.CloseParenthesis ∷ r.1.now) }
    ensures passes { IfOk result (λ r. PassesTo depth (Name ∷ MoreParameters ∷ []) tokens.now (depth - 1) [] r.1.now) }
    ensures refuses { IfErr result (Refuses depth (Name ∷ MoreParameters ∷ []) tokens.now) }
    ensures shorter { IfOk result (λ r. length r.1.now < length tokens.now) }
{
    let (first, mut rest) = parameter(alloc, depth, kind, tokens)?;
    let mut parameters = Vec::new(alloc);
    parameters.push(first)?;
    while let Some(behind) = after(Sign::Comma, rest) {
        let (further, next) = further(alloc, depth, behind)?;
        parameters.push(further)?;
        rest = next;
    }
    let rest = sign(Sign::CloseParenthesis, rest)?;
    Ok((List::of(parameters), rest))
}

// a parameter with its kind
fn further(alloc: Global, depth: u32, tokens: &[Token]) -> Read<'_, Parameter>
    ensures written { IfOk result (λ r. tokens.now ≡ kind_tokens r.0.kind ++ token.Word r.0.name ∷ r.1.now) }
    ensures passes { IfOk result (λ r. Passes depth (kind_here ∷ Name ∷ []) tokens.now [] r.1.now) }
    ensures refuses { IfErr result (Refuses depth (kind_here ∷ Name ∷ []) tokens.now) }
    ensures shorter { IfOk result (λ r. length r.1.now < length tokens.now) }
{
    let (kind, behind) = kind(depth, tokens)?;
    parameter(alloc, depth, kind, behind)
}

/// A function after its name and the parenthesis there.
pub fn function<'t>(
    alloc: Global,
    depth: u32,
    kind: Option<Kind>,
    text: &Text,
    tokens: &'t [Token],
) -> Read<'t, Function>
    requires { depth < 64 }
    ensures written { IfOk result (λ r. gives_tokens kind
        ++ token.Word text.now ∷ one sign.OpenParenthesis ∷ tokens.now ≡ function_tokens r.0 ++ r.1.now) }
    ensures fits { IfOk result (λ r. FunctionFits r.0) }
    ensures passes { IfOk result (λ r. PassesTo (depth + 1) (Parameters ∷ Block ∷ []) tokens.now depth [] r.1.now) }
    ensures refuses { IfErr result (Refuses (depth + 1) (Parameters ∷ Block ∷ []) tokens.now) }
    ensures shorter { IfOk result (λ r. length r.1.now < length tokens.now) }
{
    let ((void_word, parameters), behind) = parameters(alloc, depth + 1, tokens)?;
    let (body, rest) = block(alloc, depth, behind)?;
    let name = copy(alloc, text)?;
    Ok((
        Function {
            kind,
            name,
            void_word,
            parameters,
            body,
        },
        rest,
    ))
}
