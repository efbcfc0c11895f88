//! Laws of code.
ghost use Rattle.std.specs.Prelude.{◌≡◌, ◌+◌, ◌*◌, ◌<◌, ◌≤◌, ℕ, List, true, length, slice_index_or};
ghost use Rattle.c_world.specs.World.{World};
ghost use Rattle.std.specs.List.{Contains};
ghost use Rattle.patmos_instr.specs.declared.memories.Mem.TheVariants as mem;
ghost use Rattle.patmos_instr.specs.declared.memories.StoreWidth.{StoreWidth};
ghost use Rattle.patmos_instr.specs.declared.memories.Width.{Width};
ghost use Rattle.patmos_sem.specs.declared.effects.Effect.TheVariants as effect;
ghost use Rattle.sp_tree.specs.Formed.{is_formed};
ghost use Rattle.sp_tree.specs.Statements.{PlainFunction, PlainStmts, PlainUnit, no_function};
ghost use Rattle.sp_tree.specs.Straight.{State, serves, stmts_done};
ghost use Rattle.sp_tree.specs.Uses.{Use, uses_of, are_apart};
ghost use Rattle.sp_shape.specs.Bundles.{has_word, parts_all};
ghost use Rattle.sp_shape.specs.Memory.{Memory};
ghost use Rattle.sp_shape.specs.Parts.{no_part};
ghost use Rattle.stack_cache.specs.declared.stack.TheConstants.{STACK_END, STACK_LOWEST};
ghost use Rattle.sp_shape.specs.Pointers.{pointers_of, AreWithinStack};
ghost use Rattle.sp_shape.specs.Run.{Run, IsWhole, Back, Sources, at_begin, by_words, run};
ghost use Rattle.sp_shape.specs.Trail.{parts_trail, trail, trails};
ghost use Rattle.sp_shape.specs.Iterating.{ShapeIterations};
ghost use Rattle.sp_emit.specs.Accesses.{MayAsk, AsksOnly};
ghost use Rattle.sp_emit.specs.Chains.{chains};
ghost use Rattle.sp_emit.specs.Counts.{HasCounts};
ghost use Rattle.sp_emit.specs.Functions.{emitted, codes};
ghost use Rattle.sp_emit.specs.Flags.{flag_top_of};
ghost use Rattle.sp_emit.specs.Holding.{so};
ghost use Rattle.sp_emit.specs.Means.{Follows, KeepsAfter, HasConstants};
ghost use Rattle.sp_emit.specs.Places.{stack_word, word_of, top_of};
ghost use Rattle.sp_emit.specs.Serving.{Answers, AreFunctions, AreStatements, CalledWith, ChangeNoMore};
ghost use Rattle.sp_emit.specs.Statements.{stmts_code};
ghost use Rattle.sp_tree.specs.declared.limits.TheConstants.{MOST_FRAME};
ghost use Rattle.sp_emit.specs.declared.stands.Homes.{Homes};
ghost use Rattle.sp_emit.specs.declared.registers.TheConstants.{RESULT, MASK, FIRST, SPARE, DIVIDEND, DIVISOR, REMAINDER, DIGITS, OVERRUN, TEST, SECOND, MORE, FLAGS};

/// What comes of the code of a function and of its statements, under whatever mask they are run, where each load gives
/// what was stored last in its word. A function gives what its tree gives, and the words of the stack from its caller's
/// frame on are as they were, so that the frames of its callers stand. So do the words of its callers wherever they
/// stand, in registers or in the stack: each word of a window that begins at the end of the function's own, or after it.
/// And so does each predicate after the last of the four that its code may set, where its callers have words.
/// Statements leave the run where they leave the tree's state: the words of the frame that the tree names, all memories
/// but word 0, the transfers and the flag; besides these they change registers below the window, and of the frame and its
/// window the words up to a counter of iterations alone.
///
/// So where the tree changes nothing of its world, as under a mask of 0, code changes word 0 of private memory alone,
/// registers before the end of the window, predicates, caches and words of the stack: the words that the trees of its
/// callers name stand, and of its own those that its tree does not change.
pub fn functions_do_what_they_give()
    ensures function { (fs : List PlainFunction) (n k mask : ℕ) (args : List ℕ) (w : World) (m : Run)
        → AreFunctions fs n → k < n
        → length args ≡ (slice_index_or fs k no_function).parameters → (k + 1) * MOST_FRAME ≤ m.st
        → CalledWith mask args w m
        → Answers (serves fs n k mask args w) m (run by_words (trails (codes fs) n k) m) }
    ensures callers { (fs : List PlainFunction) (n k mask : ℕ) (args : List ℕ) (w : World) (m : Run)
        → AreFunctions fs n → k < n
        → length args ≡ (slice_index_or fs k no_function).parameters → (k + 1) * MOST_FRAME ≤ m.st
        → CalledWith mask args w m → (homes slot : ℕ) → top_of fs k ≤ homes
        → word_of homes slot (run by_words (trails (codes fs) n k) m) ≡ word_of homes slot m }
    ensures predicates { (fs : List PlainFunction) (n k : ℕ) (m : Run) → AreFunctions fs n → k < n → IsWhole m
        → (p : ℕ) → FLAGS + flag_top_of fs k ≤ p → p < 8 → so p (run by_words (trails (codes fs) n k) m) ≡ so p m }
    ensures unchanged { (fs : List PlainFunction) (n : ℕ) → AreFunctions fs n → ChangeNoMore fs n }
    ensures statements { (fs : List PlainFunction) (n : ℕ) (homes : Homes) (frame slots counter : ℕ) (ts : PlainStmts) (s : State)
        (m : Run) → AreStatements fs n homes frame slots counter ts s m
        → Follows homes slots (stmts_done (serves fs n) ts s)
        (run by_words (parts_trail (trails (codes fs) n) (stmts_code homes frame counter ts)) m) }
    ensures frame { (fs : List PlainFunction) (n : ℕ) (homes : Homes) (frame slots counter : ℕ) (ts : PlainStmts) (s : State)
        (m : Run) → AreStatements fs n homes frame slots counter ts s m
        → KeepsAfter (homes.first + (counter + 1)) (stack_word homes.first (counter + 1)) m (run by_words
        (parts_trail (trails (codes fs) n) (stmts_code homes frame counter ts)) m) }
{}

/// Where a load from the stack gives what was stored last in its word, whatever other loads give, all loops of a
/// well-formed task's code make all their iterations, and each function returns to the place that was set when it began. The
/// counts of the tree's iterations are words of 32 bits.
pub fn loops_make_all_iterations()
    ensures { (u : PlainUnit) (from : Sources) (memory : Memory) (loads : List ℕ) (backs : List Back)
        → from.stack ≡ true → is_formed u ≡ true → HasCounts u.functions
        → ShapeIterations (run from) (emitted u) (at_begin memory loads backs) }
{}

/// Whatever loads give, outside the stack a well-formed task's code reads and stores only what its tree names, and
/// word 0 in the place of what is masked or past the end; and the loads by the data cache have the same addresses.
/// What is loaded so is stored by no access past the cache.
pub fn tasks_ask_for_what_they_name()
    ensures asks { (u : PlainUnit) → is_formed u ≡ true → AsksOnly (Contains (uses_of u)) (trail (emitted u)) }
    ensures apart { (uses : List Use) (width : Width) (rd : ℕ) (wide : StoreWidth) (value address : ℕ)
        → are_apart uses ≡ true
        → MayAsk (Contains uses) (effect.Load mem.C width rd address)
        → MayAsk (Contains uses) (effect.Store mem.M wide address value) → ⊥ }
{}

/// Whatever loads give, all that a well-formed task's code asks of the stack is within it: each
/// access reaches a word that the stack cache holds, and the top stays in the stack's region, where
/// that has room for the frames on each chain of calls.
pub fn tasks_stay_within_the_stack()
    ensures { (u : PlainUnit) (from : Sources) (memory : Memory) (loads : List ℕ) (backs : List Back)
        → is_formed u ≡ true
        → STACK_LOWEST + chains u.functions (length u.functions) u.entry ≤ STACK_END
        → AreWithinStack (run from (trail (emitted u)) (at_begin memory loads backs)).asked
        (pointers_of (at_begin memory loads backs)) }
{}

/// Where the long constants of a task's code are words of 32 bits, as those of all bundles that words can tell are, the
/// constants of its tree and the counts of its iterations are.
#[tactic(auto, using(crate::proofs::Constants::constants_are_words, crate::proofs::Constants::counts_are_words))]
pub fn code_holds_the_constants()
    ensures constants { (u : PlainUnit)
        → ((k : ℕ) → parts_all has_word (slice_index_or (emitted u).functions k no_part) ≡ true)
        → HasConstants u.functions }
    ensures counts { (u : PlainUnit)
        → ((k : ℕ) → parts_all has_word (slice_index_or (emitted u).functions k no_part) ≡ true)
        → HasCounts u.functions }
{}

/// The registers and predicates of compiled code, in numbers: what a task gives stands in `r1`,
/// and its flag in `r2`. A law: it does nothing.
pub fn registers_numbered()
    ensures result { RESULT ≡ 1 }
    ensures mask { MASK ≡ 2 }
    ensures first { FIRST ≡ 3 }
    ensures spare { SPARE ≡ 27 }
    ensures dividend { DIVIDEND ≡ 28 }
    ensures divisor { DIVISOR ≡ 29 }
    ensures remainder { REMAINDER ≡ 30 }
    ensures digits { DIGITS ≡ 31 }
    ensures overrun { OVERRUN ≡ 26 }
    ensures test { TEST ≡ 1 }
    ensures second { SECOND ≡ 2 }
    ensures more { MORE ≡ 3 }
    ensures flags { FLAGS ≡ 4 }
{}
