//! The rule in words.
ghost use Rattle.atomic_table.specs.Table.{State};
ghost use Rattle.clock_board.specs.declared.known.View.{View};
ghost use Rattle.clock_board.specs.InWords.{HoldsInWords};

use crate::course::Course;
use crate::known;
use crate::rule::Law;
use atomic_table::TableRule;

/// What the rule that a board's table keeps says of its words and of the views of all its passes.
/// The table keeps it between any two steps of any threads. A law: it does nothing.
pub fn rule_in_words<C: Course>()
    ensures { (course : C) (s : State Unit View)
        → ⟦<Law<C> as TableRule<(), known::View, C>>⟧.holds course s
        → HoldsInWords (C.cores course) (C.all course) s.words s.views }
{}
