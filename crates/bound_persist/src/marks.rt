//! Which functions are reached. Each calls those of lesser number, so that they are marked from the entry downwards.
ghost use Rattle.std.specs.Prelude.{◌≡◌, ℕ, ◌+◌, ◌≤◌, ◌<◌, ◌==◌, ◌||◌, List, length, slice_index_or, false, true};
ghost use Rattle.sp_shape.specs.Formed.{functions_formed};
ghost use Rattle.sp_shape.specs.Parts.{PlainParts, no_part};
ghost use Rattle.sp_shape.specs.Shown.{plain_part, parts_of, functions_of};
ghost use Rattle.sp_tree.specs.declared.limits.TheConstants.{MOST_FUNCTIONS};
ghost use Rattle.cycle_bound.specs.Calls.{PartCallsBelow, CallsBelow};
ghost use Rattle.cycle_bound.specs.Nodes.{part_nodes, parts_nodes, functions_nodes};
ghost use Rattle.bound_persist.specs.Marks.{is_marked, AreMarks, HaveBelow};
ghost use Rattle.bound_persist.specs.Reached.{part_reaches, parts_reach};

use cycle_bound::Steps;
use sp_shape::Part;
use sp_tree::MOST_FUNCTIONS;
use std::sync::ledger::Ledger;
use tc_word::List;

/// A set of functions, by their numbers.
#[derive(Drop)]
pub struct Marks {
    /// Whether a function is one of them.
    pub set: [bool; MOST_FUNCTIONS],
}

// no function
fn no_marks() -> Marks
    ensures { (j : ℕ) → is_marked result.set j ≡ false }
{
    Marks {
        set: [false; MOST_FUNCTIONS],
    }
}

// the entry alone
#[tactic(auto, using(crate::proofs::Marking::marked_first))]
fn mark_entry(entry: usize) -> Marks
    requires { entry < MOST_FUNCTIONS }
    ensures { (j : ℕ) → is_marked result.set j ≡ (entry == j) }
{
    let mut marks = no_marks();
    marks.set[entry] = true;
    marks
}

// what a part calls
#[cycle(mark)]
fn mark_part<L: Ledger>(part: &Part, number: usize, marks: &mut Marks, steps: &mut Steps<L>)
    requires earlier { PartCallsBelow number (plain_part part.now) }
    requires number { number < MOST_FUNCTIONS }
    ensures marks { (j : ℕ) → is_marked marks.new.set j
        ≡ (is_marked marks.old.set j || part_reaches (λ k. k == j) (plain_part part.now)) }
    ensures steps { steps.new ≤ steps.old + part_nodes (plain_part part.now) }
    ensures forward { steps.old ≤ steps.new }
{
    steps.tick();
    match part {
        Part::Straight { .. } => {}
        Part::Repeat { body, .. } => mark_parts(body.as_slice(), number, marks, steps),
        Part::CallTo { function, .. } => marks.set[*function as usize] = true,
        Part::Leave { .. } => {}
    }
}

// what parts call
#[cycle(mark)]
#[tactic(auto, using(crate::proofs::Marking::marks_next, crate::proofs::Marking::marks_at_end, crate::proofs::Marking::part_passed))]
fn mark_parts<L: Ledger>(parts: &[Part], number: usize, marks: &mut Marks, steps: &mut Steps<L>)
    requires earlier { CallsBelow number (parts_of parts.now) }
    requires number { number < MOST_FUNCTIONS }
    ensures marks { (j : ℕ) → is_marked marks.new.set j
        ≡ (is_marked marks.old.set j || parts_reach (λ k. k == j) (parts_of parts.now)) }
    ensures steps { steps.new ≤ steps.old + parts_nodes (parts_of parts.now) }
    ensures forward { steps.old ≤ steps.new }
{
    for part in parts {
        mark_part(part, number, marks, steps);
    }
}

// one function: what it calls is reached where it is reached itself
#[tactic(auto, using(crate::proofs::Marking::marks_more, crate::proofs::Marking::marks_pass))]
fn mark_called<L: Ledger>(parts: &[Part], number: usize, marks: &mut Marks, steps: &mut Steps<L>)
    requires earlier { CallsBelow number (parts_of parts.now) }
    requires number { number < MOST_FUNCTIONS }
    ensures marks { (fs : List PlainParts) (entry : ℕ) → HaveBelow fs → number < length fs
        → slice_index_or fs number no_part ≡ parts_of parts.now
        → AreMarks fs entry (number + 1) marks.old.set → AreMarks fs entry number marks.new.set }
    ensures steps { steps.new ≤ steps.old + (1 + parts_nodes (parts_of parts.now)) }
    ensures forward { steps.old ≤ steps.new }
{
    steps.tick();
    if marks.set[number] {
        mark_parts(parts, number, marks, steps);
    }
}

/// The functions that are reached from the entry.
#[tactic(auto, using(cycle_bound::proofs::Earlier::known_below, sp_shape::proofs::Functions::function_at, crate::proofs::Marking::functions_down))]
pub fn mark_all<L: Ledger>(functions: &[List<Part>], entry: usize, steps: &mut Steps<L>) -> Marks
    requires most { length functions.now ≤ MOST_FUNCTIONS }
    requires formed { functions_formed (functions_of functions.now) (length functions.now) ≡ true }
    requires entry { entry < length functions.now }
    ensures marks { AreMarks (functions_of functions.now) entry 0 result.set }
    ensures steps { steps.new ≤ steps.old + functions_nodes (functions_of functions.now) }
    ensures forward { steps.old ≤ steps.new }
{
    let mut marks = mark_entry(entry);
    for done in 0..functions.len() {
        let number = functions.len() - 1 - done;
        mark_called(functions[number].as_slice(), number, &mut marks, steps);
    }
    marks
}
