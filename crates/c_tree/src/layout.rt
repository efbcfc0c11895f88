//! Valid programs, and where their variables and arrays stand.
ghost use Rattle.std.specs.Prelude.{◌≡◌};
ghost use Rattle.c_tree.specs.Plain.{plain};
ghost use Rattle.c_tree.specs.Valid.{IsValid};
ghost use Rattle.c_tree.specs.Layout.{layout_of};

use crate::units::Unit;
use local_store::Cell;
use slot_arbiter::Place;
use tc_word::{List, Text};

/// Where a variable or an array stands: its first word, and how many there are. A variable has one.
#[derive(Debug, Drop)]
pub struct Slot {
    pub name: Text,
    pub cell: Cell,
    pub length: u32,
    pub unsigned: bool,
}

/// A program that is valid on its place, and where its variables and arrays stand.
#[derive(Debug, Drop)]
pub struct Checked {
    pub unit: Unit,
    pub place: Place,
    pub layout: List<Slot>,
    pub ghost valid: { IsValid (plain unit) place.cores place.core },
    pub ghost laid: { layout ≡ layout_of (plain unit) },
}
