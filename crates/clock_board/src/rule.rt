//! The rule of the board, and what each kind of step tells the pass that makes it.
//!
//! | step | the table's | what changes |
//! |---|---|---|
//! | a board is made | first state | the maker's view has no record, and all words are 0 |
//! | a look at a clock | load of a clock word | the pass's record has the look more |
//! | a stamp is published | store of the own clock word | the record has the stamp more |
//! | a load | load of a shared word | the record has the core's next operation more |
//! | a store | store of a shared word | the same, and the word has the value |
//! | a pass is split off | split, a load of word 0 | there is a view more, with no record |
//! | a core is claimed | swap of 1 into its claim word | where it found 0: its empty record |
//! | a pass is taken back | join, a load of word 0 | its record is the maker's, its view spent |
use crate::course::Course;
use crate::known::View;
use atomic_table::{Join, Play, Split, TableRule};
use std::marker::PhantomData;

/// The rule of a board that follows a course.
pub struct Law<C> {
    course: PhantomData<C>,
}

impl<C: Course> TableRule<(), View, C> for Law<C> {
    ghost use Rattle.clock_board.specs.Rule.{Kept};
    ghost use Rattle.clock_board.specs.View.{maker};

    ghost holds = { λ course s.
        Kept (C.cores course) (C.all course) (C.asked course) s.words s.views };

    ghost first = { λ course. maker (C.cores course) (C.all course) };
}

/// A look at a clock.
pub struct Looks;

impl Play<(), View> for Looks {
    ghost use Rattle.clock_board.specs.Plays.{looks};

    ghost then = { λ step. looks step.word };
}

/// A stamp is published.
pub struct Publishes;

impl Play<(), View> for Publishes {
    ghost use Rattle.clock_board.specs.Plays.{publishes};

    ghost then = { λ _. publishes };
}

/// A load or a store is made.
pub struct Makes;

impl Play<(), View> for Makes {
    ghost use Rattle.clock_board.specs.Plays.{makes};

    ghost then = { λ _. makes };
}

/// A core is claimed.
pub struct Claims;

impl Play<(), View> for Claims {
    ghost use Rattle.clock_board.specs.Plays.{claims};

    ghost then = { λ step. claims step.word };
}

/// A pass is split from the maker's, and taken back.
pub struct Parts;

impl Split<View> for Parts {
    ghost use Rattle.clock_board.specs.View.{claiming};

    ghost left = { λ v. v };

    ghost right = { claiming };
}

impl Join<View> for Parts {
    ghost use Rattle.clock_board.specs.View.{joined, spent};

    ghost both = { joined };

    ghost spent = { spent };
}
