//! Worked examples: the bounds of small shapes, where a transaction takes 29 cycles at most. So it is for each of four
//! cores that take their slots of 6 cycles in turn: 24 cycles to the next slot, and 6 in it, less one.
ghost use Rattle.std.specs.Prelude.{◌≡◌, [], ◌∷◌};
ghost use Rattle.slot_arbiter.specs.Table.{in_turn};
ghost use Rattle.sp_shape.specs.Small as small;
ghost use Rattle.cycle_bound.specs.Bound.{bundle_bound, fill_moves, shape_bound};
ghost use Rattle.sp_shape.specs.Words.{bundle_words};
ghost use Rattle.cycle_bound.specs.Examples as example;
ghost use Rattle.cycle_bound.specs.Gap.{gap};
ghost use Rattle.cycle_bound.specs.Nodes.{nodes};

use patmos_instr::{Mem, StackFunc};

/// One cycle for each bundle, and 29 for each transaction: one for an access to main memory, whatever its guard; one
/// for each four words of the stack, of which it never has more than 128 to move.
pub fn worked_bundles()
    ensures add { bundle_bound 29 (small.add 1) ≡ 1 }
    ensures cached { bundle_bound 29 (example.loads Mem.C) ≡ 30 }
    ensures uncached { bundle_bound 29 (example.loads Mem.M) ≡ 30 }
    ensures local { bundle_bound 29 (example.loads Mem.L) ≡ 1 }
    ensures stack { bundle_bound 29 (example.loads Mem.S) ≡ 1 }
    ensures guarded { bundle_bound 29 example.stores ≡ 30 }
    ensures reserve { bundle_bound 29 (example.stacks StackFunc.Sres 5) ≡ 59 }
    ensures ensure { bundle_bound 29 (example.stacks StackFunc.Sens 200) ≡ 929 }
    ensures free { bundle_bound 29 (example.stacks StackFunc.Sfree 5) ≡ 1 }
{}

/// A function is fetched with its size word, four words at a time; a bundle has a second word for a long constant and
/// for a second instruction.
pub fn worked_fills()
    ensures single { bundle_words (small.add 1) ≡ 1 }
    ensures long { bundle_words example.adds_long ≡ 2 }
    ensures both { bundle_words example.adds_both ≡ 2 }

    // 1 + 4 words
    ensures empty { fill_moves (small.empty ∷ []) 0 ≡ 2 }

    // 1 + 8 words: those of a loop once
    ensures loading { fill_moves (example.loading ∷ []) 0 ≡ 3 }

    // 1 + 13 words
    ensures caller { fill_moves (small.empty ∷ small.caller 0 ∷ []) 1 ≡ 4 }
{}

/// Bounds of shapes.
pub fn worked_bounds()
    // 2 transactions, 4 bundles
    ensures empty { shape_bound 29 (small.shape_of (small.empty ∷ []) 0) ≡ 62 }

    // 3 transactions to fetch it; three iterations of 4 bundles and a transaction; 4 bundles
    ensures loading { shape_bound 29 (small.shape_of (example.loading ∷ []) 0) ≡ 190 }

    // 4 transactions to fetch it; 1 bundle; three iterations of 4 bundles, 2 + 4 transactions there and back, the 4 bundles
    // that are called, and 3 bundles; 1 bundle; 4 bundles
    ensures caller { shape_bound 29 (small.shape_of (small.empty ∷ small.caller 0 ∷ []) 1) ≡ 677 }

    // 1 + 11 words are 3 transactions; ten times twenty iterations of 4 bundles, and 3 bundles; 4 bundles
    ensures nested { shape_bound 29 (small.shape_of (example.nested ∷ []) 0) ≡ 921 }
{}

/// Gaps: of cores that take their slots in turn, and of one that has two of three.
pub fn worked_gaps()
    ensures in_turn { gap (in_turn 4) 6 2 ≡ 24 }
    ensures alone { gap (in_turn 1) 6 0 ≡ 6 }
    ensures twice { gap (0 ∷ 0 ∷ 1 ∷ []) 6 0 ≡ 12 }
    ensures once { gap (0 ∷ 0 ∷ 1 ∷ []) 6 1 ≡ 18 }
{}

/// Nodes: functions, parts and bundles.
pub fn worked_nodes()
    ensures empty { nodes (small.shape_of (small.empty ∷ []) 0) ≡ 6 }
    ensures caller { nodes (small.shape_of (small.empty ∷ small.caller 0 ∷ []) 1) ≡ 25 }
{}
