ghost use Rattle.std.specs.Prelude.{ℕ, List};
ghost use Rattle.shared_order.specs.declared.operation.Operation.{Operation};

/// What the cores of a platform do to the words that they share, for a board to follow.
///
/// An implementation names the operations, and need not hold them: contracts alone look at a course.
/// That it is one is a condition of `Board::new`: the stamps do not fall, a stamp's remainder by the
/// number of cores is the core that acts, each load has the value of the last store to its word
/// before it or else 0, and what a core asks for next is determined by the values that it loaded
/// before.
pub trait Course {
    // How many cores there are.
    ghost cores: { Self → ℕ };

    // All operations of all cores, in their order.
    ghost all: { Self → List Operation };

    // What a core asks for when its loads give these values.
    ghost asked: { Self → ℕ → List ℕ → List Operation };
}
