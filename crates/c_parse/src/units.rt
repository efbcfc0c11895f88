ghost use Rattle.std.specs.Prelude.{◌≡◌, ◌≢◌, ◌<◌, [], ◌∷◌, ◌++◌, length, None, IfOk, IfErr};
ghost use Rattle.std.specs.List.{AllByRecursion as Each};
ghost use Rattle.c_tree.specs.Tokens.{item_tokens, items_tokens, kind_tokens, word};
ghost use Rattle.c_tree.specs.Fits.{ItemFits};
ghost use Rattle.c_tree.specs.declared.tokens.Keyword.TheVariants as keyword;
ghost use Rattle.c_tree.specs.declared.tokens.Sign.TheVariants as sign;
ghost use Rattle.c_parse.specs.Expected.{Items, Name, Only, Outside, Parameters, Block, Kind as kind_here, Variable as variable_here, drive};
ghost use Rattle.c_parse.specs.Readers.{Passes, Refuses, StopsAt, scratch_tokens};

use crate::ahead::{Read, after_word, bracket, copy, name, opened, stop};
use crate::faults::Stop;
use crate::functions::{function, kind};
use crate::globals::shape;
use crate::kinds::kind_at;
use c_tree::{Global as Variable, Item, Keyword, Kind, Sign, Token};
use std::alloc::Global;
use tc_word::List;

/// All declarations of a text.
pub fn items(alloc: Global, tokens: &[Token]) -> Result<List<Item>, Stop>
    ensures written { IfOk result (λ items. tokens.now ≡ items_tokens items) }
    ensures fits { IfOk result (λ items. Each ItemFits items) }
    ensures read { IfOk result (λ items. drive 0 (Items ∷ []) tokens.now ≡ None) }
    ensures refuses { IfErr result (StopsAt tokens.now) }
{
    let mut items = Vec::new(alloc);
    let mut rest = tokens;
    while !rest.is_empty() {
        let (item, behind) = item(alloc, rest)?;
        items.push(item)?;
        rest = behind;
    }
    Ok(List::of(items))
}

// a declaration
#[tactic(auto, using(crate::proofs::Starts::item_starts, crate::proofs::Steps::none_behind))]
fn item(alloc: Global, tokens: &[Token]) -> Read<'_, Item>
    requires { tokens.now ≢ [] }
    ensures written { IfOk result (λ r. tokens.now ≡ item_tokens r.0 ++ r.1.now) }
    ensures fits { IfOk result (λ r. ItemFits r.0) }
    ensures passes { IfOk result (λ r. drive 0 (Items ∷ []) tokens.now ≡ drive 0 (Items ∷ []) r.1.now) }
    ensures refuses { IfErr result (StopsAt tokens.now) }
    ensures shorter { IfOk result (λ r. length r.1.now < length tokens.now) }
{
    if let Some((kind, behind)) = kind_at(tokens) {
        return outside(alloc, kind, behind);
    }
    if let Some(behind) = after_word(Keyword::Scratchpad, tokens) {
        return scratch(alloc, behind);
    }
    let Some(behind) = after_word(Keyword::Void, tokens) else {
        return Err(stop(tokens));
    };
    procedure(alloc, behind)
}

// a variable or an array in the scratchpad, after that word
#[tactic(auto, using(crate::proofs::Starts::kind_kind))]
fn scratch(alloc: Global, tokens: &[Token]) -> Read<'_, Item>
    ensures written { IfOk result (λ r. word keyword.Scratchpad ∷ tokens.now ≡ item_tokens r.0 ++ r.1.now) }
    ensures fits { IfOk result (λ r. ItemFits r.0) }
    ensures passes { IfOk result (λ r. Passes 0 (kind_here ∷ Name ∷ variable_here ∷ []) tokens.now [] r.1.now) }
    ensures refuses { IfErr result (Refuses 0 (kind_here ∷ Name ∷ variable_here ∷ []) tokens.now) }
    ensures shorter { IfOk result (λ r. length r.1.now < length tokens.now) }
{
    let (kind, behind) = kind(0, tokens)?;
    variable(alloc, true, kind, behind)
}

// a function that gives nothing, after `void`
#[tactic(auto, using(crate::proofs::Steps::bracket_steps, crate::proofs::Steps::name_steps))]
fn procedure(alloc: Global, tokens: &[Token]) -> Read<'_, Item>
    ensures written { IfOk result (λ r. word keyword.Void ∷ tokens.now ≡ item_tokens r.0 ++ r.1.now) }
    ensures fits { IfOk result (λ r. ItemFits r.0) }
    ensures passes { IfOk result (λ r. Passes 0 (Name ∷ Only sign.OpenParenthesis ∷ Parameters ∷ Block
        ∷ []) tokens.now [] r.1.now) }
    ensures refuses { IfErr result
        (Refuses 0 (Name ∷ Only sign.OpenParenthesis ∷ Parameters ∷ Block ∷ []) tokens.now) }
    ensures shorter { IfOk result (λ r. length r.1.now < length tokens.now) }
{
    let (text, behind) = name(tokens)?;
    let behind = bracket(Sign::OpenParenthesis, 0, behind)?;
    let (function, rest) = function(alloc, 0, None, text, behind)?;
    Ok((Item::Function { function }, rest))
}

// a variable or a function, after its kind
#[tactic(auto, using(crate::proofs::Starts::outside_starts, crate::proofs::Steps::name_steps))]
fn outside(alloc: Global, kind: Kind, tokens: &[Token]) -> Read<'_, Item>
    ensures written { IfOk result (λ r. kind_tokens kind ++ tokens.now ≡ item_tokens r.0 ++ r.1.now) }
    ensures fits { IfOk result (λ r. ItemFits r.0) }
    ensures passes { IfOk result (λ r. Passes 0 (Name ∷ Outside ∷ []) tokens.now [] r.1.now) }
    ensures refuses { IfErr result (Refuses 0 (Name ∷ Outside ∷ []) tokens.now) }
    ensures shorter { IfOk result (λ r. length r.1.now < length tokens.now) }
{
    let (text, behind) = name(tokens)?;
    let Some(behind) = opened(Sign::OpenParenthesis, 0, behind) else {
        return variable(alloc, false, kind, tokens);
    };
    let (function, rest) = function(alloc, 0, Some(kind), text, behind)?;
    Ok((Item::Function { function }, rest))
}

// a variable or an array, after its kind
#[tactic(auto, using(crate::proofs::Steps::name_read, crate::proofs::Steps::no_name))]
fn variable(alloc: Global, scratch: bool, kind: Kind, tokens: &[Token]) -> Read<'_, Item>
    ensures written { IfOk result (λ r. scratch_tokens scratch ++ (kind_tokens kind ++ tokens.now)
        ≡ item_tokens r.0 ++ r.1.now) }
    ensures fits { IfOk result (λ r. ItemFits r.0) }
    ensures passes { IfOk result (λ r. Passes 0 (Name ∷ variable_here ∷ []) tokens.now [] r.1.now) }
    ensures refuses { IfErr result (Refuses 0 (Name ∷ variable_here ∷ []) tokens.now) }
    ensures shorter { IfOk result (λ r. length r.1.now < length tokens.now) }
{
    let (text, behind) = name(tokens)?;
    let name = copy(alloc, text)?;
    let ((length, initial), rest) = shape(alloc, 0, behind)?;
    let global = Variable {
        scratch,
        kind,
        name,
        length,
        initial,
    };
    Ok((Item::Global { global }, rest))
}
