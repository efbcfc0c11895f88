//! Locations: where a word is set.
ghost use Rattle.std.specs.Prelude.{◌≡◌, ℕ, List, length, option_map};
ghost use Rattle.c_tree.specs.declared.limits.TheConstants.{MOST_LEVELS};
ghost use Rattle.c_world.specs.Shown.{rooms};
ghost use Rattle.c_world.specs.World.{Sending, with_element};
ghost use Rattle.c_meaning.specs.Resolved.{with_target, with_result};
ghost use Rattle.c_meaning.specs.Rooms.{all_rooms};
ghost use Rattle.c_meaning.specs.Shown.{plain_target};
ghost use Rattle.c_meaning.specs.Values.{State};
ghost use Rattle.c_run.specs.Locations.{with_location};
ghost use Rattle.c_run.specs.Ran.{state_of};

use c_meaning::{Array, Level, Target, Word};
use c_world::Memory;
use sp_tree::{SpArray, SpCell, value};

/// Where a word is set: an element's index is worked out, and was tested against the array's length.
#[derive(Clone, Copy, Debug)]
pub enum Location {
    Variable { level: Level },
    Scalar { word: Word },
    Nowhere,
}

// an element of an array; none at or past its end
#[inline(always)]
fn element_location(array: &Array, index: u32) -> Location
    ensures { (given : ℕ) (s : State) → with_location result given s
        ≡ record s { world = with_element array.now.words.region array.now.words.first array.now.words.length index given s.world } }
{
    let SpArray {
        region,
        first,
        length,
    } = array.words;
    if index >= length {
        return Location::Nowhere;
    }
    let cell = SpCell {
        region,
        word: first + index,
    };
    Location::Scalar {
        word: Word { cell },
    }
}

/// The location of what is set.
#[inline(always)]
pub fn location_of(target: &Target, frame: &[u32], memory: &Memory) -> Location
    ensures { (sends : List Sending) (given : ℕ) → with_location result given (state_of frame.now memory.now sends)
        ≡ with_target (plain_target target.now) given (state_of frame.now memory.now sends) }
{
    match target {
        Target::Variable { level } => Location::Variable { level: *level },
        Target::Scalar { word } => Location::Scalar { word: *word },
        Target::Element { array, index } => element_location(array, value(index, frame, memory)),
    }
}

/// The location of what is set to what a function gave, if anything is.
pub fn result_location(target: &Option<Target>, frame: &[u32], memory: &Memory) -> Location
    ensures { (sends : List Sending) (given : ℕ) → with_location result given (state_of frame.now memory.now sends)
        ≡ with_result (option_map plain_target target.now) given (state_of frame.now memory.now sends) }
{
    match target {
        None => Location::Nowhere,
        Some(target) => location_of(target, frame, memory),
    }
}

/// Sets a word at a location.
#[inline(always)]
#[tactic(auto, using(shared_order::proofs::Words::words_put))]
pub fn put(location: Location, given: u32, frame: &mut [u32], memory: &mut Memory)
    requires frame { length frame.old ≡ MOST_LEVELS }
    requires rooms { rooms memory.old ≡ all_rooms }
    ensures done { (sends : List Sending) → with_location location given (state_of frame.old memory.old sends)
        ≡ state_of frame.new memory.new sends }
    ensures rooms { rooms memory.new ≡ all_rooms }
{
    match location {
        Location::Variable { level } => frame[level.number as usize] = given,
        Location::Scalar { word } => memory.set_word(
            word.cell.region,
            word.cell.word as usize,
            given,
        ),
        Location::Nowhere => {}
    }
}
