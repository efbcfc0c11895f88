//! The names of a program, resolved.
ghost use Rattle.std.specs.Prelude.{◌≡◌, ◌<◌, ◌≤◌, ◌+◌, ◌^◌, [], ◌∷◌, ◌++◌, length, map, codes, IfOk, OnOk};
ghost use Rattle.c_tree.specs.Plain.{plain_stmt, plain_item, plain};
ghost use Rattle.c_tree.specs.declared.limits.TheConstants.{MOST_LEVELS};
ghost use Rattle.c_tree.specs.declared.units.Item.TheVariants as item;
ghost use Rattle.c_meaning.specs.Fits.{ItemFits};
ghost use Rattle.c_meaning.specs.Meaning.{parameter_variables};
ghost use Rattle.c_meaning.specs.Open.{names_of, functions_of};
ghost use Rattle.c_tree.specs.Names.{number_of};
ghost use Rattle.c_meaning.specs.Resolve.{resolved_body, resolved_items, names_in, parameters_in};
ghost use Rattle.c_meaning.specs.Shown.{actions_of, counts_of, bodies_of};

use crate::actions::Routine;
use crate::scopes::Scope;
use crate::statements::{is_unsigned, statements};
use c_tree::{Checked, Function, Item, Parameter};
use std::alloc::Global;
use tc_word::{List, OutOfMemory};

/// A program whose names are resolved: its functions in order, and the number of `main`.
#[derive(Debug, Drop)]
pub struct Resolved {
    pub routines: List<Routine>,
    pub main: Option<usize>,
}

// a function's parameters are its first variables
fn parameters<'a>(scope: &mut Scope<'a>, parameters: &'a [Parameter]) -> Result<(), OutOfMemory>
    requires { length (names_of scope.old).variables + length parameters.now ≤ MOST_LEVELS }
    ensures names { OnOk result (names_of scope.new ≡ record {
      slots = (names_of scope.old).slots;
      variables = (names_of scope.old).variables ++ parameter_variables parameters.now;
    }) }
    ensures functions { OnOk result (functions_of scope.new ≡ functions_of scope.old) }
{
    for parameter in parameters {
        scope.declare(parameter.name.as_str(), is_unsigned(parameter.kind))?;
    }
    Ok(())
}

// a function, where no variable is open
fn routine<'a>(
    alloc: Global,
    scope: &mut Scope<'a>,
    function: &'a Function,
) -> Result<Routine, OutOfMemory>
    requires none { (names_of scope.old).variables ≡ [] }
    requires fits { ItemFits (names_of scope.old).slots (plain_item (item.Function function.now)) }
    ensures parameters { IfOk result (λ r. r.parameters ≡ length function.now.parameters) }
    ensures body { IfOk result (λ r. actions_of r.body ≡ resolved_body (functions_of scope.old)
        (record { slots = (names_of scope.old).slots; variables = parameter_variables function.now.parameters })
        (map plain_stmt function.now.body)) }
    ensures names { OnOk result (names_of scope.new ≡ names_of scope.old) }
    ensures functions { OnOk result (functions_of scope.new ≡ functions_of scope.old) }
{
    let given = function.parameters.as_slice();
    parameters(scope, given)?;
    let mut actions = Vec::new(alloc);
    statements(alloc, scope, &mut actions, function.body.as_slice())?;
    scope.close(0);
    Ok(Routine {
        parameters: given.len(),
        body: List::of(actions),
    })
}

// an item: a function is one more
fn add_item<'a>(
    alloc: Global,
    scope: &mut Scope<'a>,
    routines: &mut Vec<Routine>,
    item: &'a Item,
) -> Result<(), OutOfMemory>
    requires none { (names_of scope.old).variables ≡ [] }
    requires fits { ItemFits (names_of scope.old).slots (plain_item item.now) }
    requires number { length (functions_of scope.old) + 1 < 2 ^ 32 }
    ensures routines { OnOk result (bodies_of routines.new.items
        ≡ bodies_of routines.old.items
        ++ resolved_items (names_of scope.old).slots (functions_of scope.old) (plain_item item.now ∷ [])) }
    ensures counts { OnOk result (counts_of routines.new.items
        ≡ counts_of routines.old.items ++ parameters_in (plain_item item.now ∷ [])) }
    ensures names { OnOk result (names_of scope.new ≡ names_of scope.old) }
    ensures functions { OnOk result (functions_of scope.new
        ≡ functions_of scope.old ++ names_in (plain_item item.now ∷ [])) }
{
    match item {
        Item::Global { .. } => Ok(()),
        Item::Function { function } => {
            let routine = routine(alloc, scope, function)?;
            routines.push(routine)?;
            scope.define(function.name.as_str())?;
            Ok(())
        }
    }
}

/// Resolves all names of a program. It is `Err` only where an allocation fails.
pub fn resolve(alloc: Global, program: &Checked) -> Result<Resolved, OutOfMemory>
    ensures routines { IfOk result (λ r. bodies_of r.routines
        ≡ resolved_items program.now.layout [] (plain program.now.unit)) }
    ensures parameters { IfOk result (λ r. counts_of r.routines ≡ parameters_in (plain program.now.unit)) }
    ensures main { IfOk result (λ r. r.main ≡ number_of (codes "main") (names_in (plain program.now.unit))) }
{
    let mut scope = Scope::new(alloc, program.layout.as_slice())?;
    let mut routines = Vec::new(alloc);
    for item in program.unit.items.as_slice() {
        add_item(alloc, &mut scope, &mut routines, item)?;
    }
    let main = scope.function("main");
    Ok(Resolved {
        routines: List::of(routines),
        main,
    })
}
