//! A machine as the course of a board of clocks.
ghost use Rattle.std.specs.Prelude.{ℕ, List, length};
ghost use Rattle.shared_order.specs.Apart.{apart};
ghost use Rattle.shared_order.specs.Course.{IsCourse};
ghost use Rattle.patmos_model.specs.Cycle.{turn};
ghost use Rattle.global_step.specs.Loaded.{Machine};
ghost use Rattle.global_step.specs.Machine.{core_among, all_operations};
ghost use Rattle.global_step.specs.Range.{IsOfWords, board_words};

use crate::loaded::Loaded;
use clock_board::Course;

impl Course for Loaded {
    ghost use Rattle.std.specs.Prelude as prelude;
    ghost use Rattle.shared_order.specs.Apart as aparts;
    ghost use Rattle.patmos_model.specs.Cycle as cycles;
    ghost use Rattle.global_step.specs.Machine as machines;

    ghost cores = { λ m. prelude.length m.cores };

    ghost all = { λ m. machines.all_operations m };

    ghost asked = { λ m core values.
        (aparts.apart cycles.turn (prelude.length m.cores) core
        (machines.core_among m.cores core) values m.limit).made };
}

/// The list of all operations of a machine that is loaded with words is a course of its cores on the words
/// of the board: a core asks for what it makes apart from the others when its loads give these values. A
/// law: it does nothing.
pub fn machine_is_a_course()
    ensures { (m : Machine) → IsOfWords m
        → IsCourse (length m.cores) (board_words m) (all_operations m)
        (λ core values. (apart turn (length m.cores) core (core_among m.cores core) values m.limit).made) }
{}
