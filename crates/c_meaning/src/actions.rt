//! Programs whose names are resolved: variables by their levels, all else by its place in memory, functions by number.
ghost use Rattle.std.specs.Prelude.{◌+◌, ◌<◌, ◌≤◌, length};
ghost use Rattle.c_tree.specs.declared.limits.TheConstants.{MOST_LEVELS, MOST_PARAMETERS};
ghost use Rattle.c_world.specs.Shown.{room_in};
ghost use Rattle.c_meaning.specs.Rooms.{all_rooms};

use sp_tree::{SpArray, SpCell, SpExpr};
use tc_word::List;

/// The variable of a level.
#[derive(Clone, Copy, Debug, PartialEq, Eq)]
pub struct Level {
    pub number: u32,
    pub ghost within: { number < MOST_LEVELS },
}

/// A word that its memory has.
#[derive(Clone, Copy, Debug, PartialEq, Eq)]
pub struct Word {
    pub cell: SpCell,
    pub ghost within: { cell.word < room_in cell.region all_rooms },
}

/// An array whose words its memory has.
#[derive(Clone, Copy, Debug, PartialEq, Eq)]
pub struct Array {
    pub words: SpArray,
    pub ghost within: { words.first + words.length ≤ room_in words.region all_rooms },
}

/// What is set.
#[derive(Debug, Drop)]
pub enum Target {
    Variable { level: Level },
    Scalar { word: Word },
    Element { array: Array, index: SpExpr },
}

/// What is set, and to what.
#[derive(Debug, Drop)]
pub struct Assignment {
    pub target: Target,
    pub value: SpExpr,
}

/// The arguments of a call, as many at most as a function may have parameters.
#[derive(Debug, Drop)]
pub struct Arguments {
    pub values: List<SpExpr>,
    pub ghost few: { length values ≤ MOST_PARAMETERS },
}

/// A statement. Blocks and declarations are none: their statements stand among the others.
#[derive(Debug, Drop)]
#[cycle(action)]
pub enum Action {
    Set {
        assignment: Assignment,
    },
    /// A function is called, and what it gives is set, if anything.
    Call {
        function: u32,
        args: Arguments,
        target: Option<Target>,
    },
    Send {
        core: u32,
        source: SpExpr,
        target: SpExpr,
        count: SpExpr,
    },
    /// The first branch whose condition holds, or else these.
    Choose {
        branches: List<Branch>,
        otherwise: List<Action>,
    },
    /// So many iterations at most, with what is set after each, if anything.
    Loop {
        max: u32,
        condition: SpExpr,
        body: List<Action>,
        step: Option<Assignment>,
    },
    Break,
    Continue,
    Return {
        value: SpExpr,
    },
}

/// A condition, and what is done under it.
#[derive(Debug, Drop)]
#[cycle(action)]
pub struct Branch {
    pub condition: SpExpr,
    pub body: List<Action>,
}

/// A function: how many parameters it has, and its actions.
#[derive(Debug, Drop)]
pub struct Routine {
    pub parameters: usize,
    pub body: List<Action>,
}
