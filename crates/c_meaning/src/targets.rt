//! What is set, resolved.
ghost use Rattle.std.specs.Prelude.{◌≡◌, ◌+◌, ◌<◌, ◌≤◌, option_map};
ghost use Rattle.c_tree.specs.declared.limits.TheConstants.{MOST_LEVELS};
ghost use Rattle.c_world.specs.Shown.{room_in};
ghost use Rattle.sp_tree.specs.Plain.{plain_sp};
ghost use Rattle.c_meaning.specs.Actions.{to_level, to_cell, to_array};
ghost use Rattle.c_meaning.specs.Fits.{StandsFits};
ghost use Rattle.c_meaning.specs.Entries.{found_shown};
ghost use Rattle.c_meaning.specs.Resolve as resolve;
ghost use Rattle.c_meaning.specs.Rooms.{all_rooms};
ghost use Rattle.c_meaning.specs.Shown.{plain_target, plain_assignment};

use crate::actions::{Array, Assignment, Level, Target, Word};
use crate::expressions::{array_of, cell_of};
use crate::scopes::Found;
use sp_tree::{SpArray, SpCell, SpExpr};

/// The variable of a level.
pub fn level_target(at: usize) -> Target
    requires { at < MOST_LEVELS }
    ensures { plain_target result ≡ to_level at }
{
    let level = Level { number: at as u32 };
    Target::Variable { level }
}

// a word of a memory
fn word_target(cell: SpCell) -> Target
    requires { cell.word < room_in cell.region all_rooms }
    ensures { plain_target result ≡ to_cell cell }
{
    let word = Word { cell };
    Target::Scalar { word }
}

// an element of an array
fn array_target(words: SpArray, index: SpExpr) -> Target
    requires { words.first + words.length ≤ room_in words.region all_rooms }
    ensures { plain_target result ≡ to_array words (plain_sp index) }
{
    let array = Array { words };
    Target::Element { array, index }
}

/// The variable that a name stands for.
pub fn variable_target(found: Found<'_>) -> Option<Target>
    requires { StandsFits (found_shown found) }
    ensures { option_map plain_target result ≡ resolve.variable_target (found_shown found.entry) }
{
    match found {
        Found::Variable { at, .. } => Some(level_target(at)),
        Found::Outside { slot } => Some(word_target(cell_of(slot))),
        Found::Nothing => None,
    }
}

/// The element of what a name stands for.
pub fn element_target(found: Found<'_>, index: SpExpr) -> Option<Target>
    requires { StandsFits (found_shown found) }
    ensures { option_map plain_target result ≡ resolve.element_target (found_shown found.entry) (plain_sp index) }
{
    match found {
        Found::Outside { slot } => Some(array_target(array_of(slot), index)),
        Found::Variable { .. } | Found::Nothing => None,
    }
}

/// What is set to a value, if anything.
pub fn assignment_to(target: Option<Target>, value: SpExpr) -> Option<Assignment>
    ensures { option_map plain_assignment result
        ≡ resolve.assignment_to (option_map plain_target target) (plain_sp value) }
{
    match target {
        None => None,
        Some(target) => Some(Assignment { target, value }),
    }
}
