//! Faults of functions.
ghost use Rattle.std.specs.Prelude.{◌≡◌, ◌+◌, length, map, sum_by, true, false, OnOk};
ghost use Rattle.c_tree.specs.Least.{least_with};
ghost use Rattle.c_tree.specs.Plain.{plain_stmt, plain_item};
ghost use Rattle.c_tree.specs.Sizes.{parameter_size, list_size, stmt_size, item_size};
ghost use Rattle.c_tree.specs.Tokens.{gives_tokens};
ghost use Rattle.c_tree.specs.Names.{declared};
ghost use Rattle.c_tree.specs.Valid as valid;
ghost use Rattle.c_check.specs.Open.{names_of};

use crate::names::Names;
use crate::statements::{kind_size, statements, twice};
use crate::walk::Walk;
use crate::{frames, weights};
use c_tree::{CheckFault, Function, Item, Kind, MOST_PARAMETERS, Meaning, Parameter, Within};
use slot_arbiter::Place;
use tc_word::OutOfMemory;

// how many tokens stand before a function's name
fn gives_size(kind: Option<Kind>) -> usize
    ensures { result ≡ length (gives_tokens kind) }
{
    match kind {
        None => 1,
        Some(kind) => kind_size(kind),
    }
}

// what a function is declared as
fn meaning(f: &Function, inside: bool) -> Meaning
    ensures { result ≡ valid.function_means inside f.now.kind f.now.parameters }
{
    Meaning::Function {
        parameters: f.parameters.as_slice().len(),
        gives: f.kind.is_some(),
        inside,
    }
}

// what is reported at a function's name
#[tactic(auto, using(c_tree::proofs::Leasts::least_of_both))]
fn named(names: &Names<'_>, walk: &mut Walk, f: &Function)
    ensures at { walk.new.at ≡ walk.old.at }
    ensures least { walk.new.least
        ≡ least_with walk.old.least (valid.named_faults (names_of names.now) walk.old.at f.now.name f.now.parameters
        (map plain_stmt f.now.body)) }
{
    twice(0, names, walk, &f.name);
    walk.note_if(
        f.parameters.as_slice().len() > MOST_PARAMETERS,
        CheckFault::Params,
    );
    walk.note_if(frames::is_large(f), CheckFault::Frame);
    walk.note_if(weights::is_heavy(f), CheckFault::Heavy);
}

// parameters, and one token after each
#[tactic(auto, using(crate::proofs::Next::parameters_next, crate::proofs::Next::with_parameters_next))]
fn parameters<'a>(
    outer: usize,
    names: &mut Names<'a>,
    walk: &mut Walk,
    list: &'a [Parameter],
) -> Result<(), OutOfMemory>
    ensures at { OnOk result (walk.new.at ≡ walk.old.at + sum_by parameter_size list.now) }
    ensures least { OnOk result (walk.new.least
        ≡ least_with walk.old.least (valid.parameters_faults outer (names_of names.old) walk.old.at list.now)) }
    ensures names { OnOk result (names_of names.new ≡ valid.with_parameters (names_of names.old) list.now) }
{
    for p in list {
        walk.pass(kind_size(p.kind))?;
        twice(outer, names, walk, &p.name);
        names.declare(p.name.as_str(), Meaning::Scalar)?;
        walk.pass(2)?;
    }
    Ok(())
}

// what stands between a function's parentheses, and the second of them
fn between<'a>(
    outer: usize,
    names: &mut Names<'a>,
    walk: &mut Walk,
    f: &'a Function,
) -> Result<(), OutOfMemory>
    ensures at { OnOk result (walk.new.at ≡ walk.old.at + list_size f.now.void_word f.now.parameters + 1) }
    ensures least { OnOk result (walk.new.least
        ≡ least_with walk.old.least (valid.parameters_faults outer (names_of names.old) walk.old.at f.now.parameters)) }
    ensures names { OnOk result (names_of names.new ≡ valid.with_parameters (names_of names.old) f.now.parameters) }
{
    let start = walk.at;
    parameters(outer, names, walk, f.parameters.as_slice())?;
    if f.void_word {
        walk.at = start;
        return walk.pass(2);
    }
    if f.parameters.as_slice().is_empty() {
        return walk.pass(1);
    }
    Ok(())
}

// a function from its name on, whose names are closed at its end
#[tactic(auto, using(c_tree::proofs::Leasts::least_of_both, crate::proofs::Kept::kept_list, crate::proofs::Whole::body_told, crate::proofs::Sums::body_sized))]
fn inner<'a>(
    place: &Place,
    names: &mut Names<'a>,
    walk: &mut Walk,
    f: &'a Function,
) -> Result<(), OutOfMemory>
    ensures at { OnOk result (walk.new.at
        ≡ walk.old.at + list_size f.now.void_word f.now.parameters + sum_by stmt_size (map plain_stmt f.now.body) + 5) }
    ensures least { OnOk result (walk.new.least ≡ least_with walk.old.least
        (valid.inner_faults place.now.cores place.now.core
        (names_of names.old) walk.old.at f.now.kind f.now.void_word f.now.parameters (map plain_stmt f.now.body))) }
    ensures names { OnOk result (names_of names.new ≡ names_of names.old) }
{
    let outer = names.len();
    let within = Within {
        cores: place.cores,
        own: place.core,
        gives: f.kind.is_some(),
        in_loop: false,
        outer,
    };
    walk.pass(2)?;
    between(outer, names, walk, f)?;
    walk.pass(1)?;
    statements(&within, names, walk, f.body.as_slice())?;
    names.close(outer);
    walk.pass(1)
}

/// A function.
#[tactic(auto, using(c_tree::proofs::Leasts::least_of_both, crate::proofs::Kept::closed))]
pub fn function<'a>(
    place: &Place,
    names: &mut Names<'a>,
    walk: &mut Walk,
    f: &'a Function,
) -> Result<(), OutOfMemory>
    ensures at { OnOk result (walk.new.at ≡ walk.old.at + item_size (plain_item (Item.Function f.now))) }
    ensures least { OnOk result (walk.new.least ≡ least_with walk.old.least
        (valid.item_faults place.now.cores place.now.core (names_of names.old) walk.old.at
        (plain_item (Item.Function f.now)))) }
    ensures names { OnOk result (names_of names.new
        ≡ declared (names_of names.old) f.now.name (valid.function_means false f.now.kind f.now.parameters)) }
{
    let outer = names.len();
    walk.pass(gives_size(f.kind))?;
    named(names, walk, f);
    names.declare(f.name.as_str(), meaning(f, true))?;
    inner(place, names, walk, f)?;
    names.close(outer);
    names.declare(f.name.as_str(), meaning(f, false))
}
