//! The board and its passes.
use crate::course::Course;
use crate::known::View;
use crate::rule::Law;
use atomic_table::{Seat, Table};
use std::alloc::Global;
use std::marker::{Model, PhantomData};

/// The words that the cores of a course share, and a clock and a claim word for each core.
///
/// Contracts see which board it is, how many cores and shared words it has, and the course: all its
/// operations, in their order.
#[derive(Drop)]
pub struct Board<C: Course> {
    // Core c's clock is word c, its claim word `cores + c`, shared word w `2 * cores + w`.
    pub(crate) table: Table<(), View, C, Law<C>, Global>,
    pub(crate) cores: u32,
    pub(crate) words: u32,
    // Room for the words at the end.
    pub(crate) spare: Vec<u32>,
}

impl<C: Course> Model for Board<C> {
    ghost use Rattle.std.specs.Prelude.{vec_capacity};
    ghost use Rattle.clock_board.specs.Board.{BoardFace, IsSized};

    ghost Value = { BoardFace };

    ghost view = { λ b. record {
      id = b.table.shared.table_id;
      cores = b.cores;
      words = b.words;
      course = C.all b.table.shared.key;
    } };

    ghost invariant = { λ b. IsSized b.table.shared.table_id (C.cores b.table.shared.key)
        (C.all b.table.shared.key) b.cores b.words b.spare.items (vec_capacity b.spare) };
}

/// The right to act on a board for one core; or the maker's, to give such passes and take them back.
///
/// Contracts see of which board it is and what it knows: the course, and the record of what its core
/// has made, published and seen.
#[derive(Drop)]
pub struct Pass<C> {
    pub(crate) seat: Seat<(), View>,
    pub(crate) core: u32,
    // The greatest look at each core.
    pub(crate) seen: [u64; 16],
    pub(crate) of: PhantomData<C>,
}

impl<C> Model for Pass<C> {
    ghost use Rattle.clock_board.specs.Board.{PassFace, IsSeated};

    ghost Value = { PassFace };

    ghost view = { λ p. record { board = p.seat.table_id; view = p.seat.me.0 } };

    ghost invariant = { λ p. IsSeated p.seat.me p.core p.seen };
}
