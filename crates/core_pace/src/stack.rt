ghost use Rattle.std.specs.Prelude.{◌≡◌, ℕ, ◌+◌, ◌-◌, ◌<◌, ◌≤◌, List, length};
ghost use Rattle.stack_cache.specs.declared.slots.TheConstants.{STACK_CACHE_WORDS};
ghost use Rattle.stack_cache.specs.declared.stack.TheConstants.{STACK_LOWEST};
ghost use Rattle.stack_cache.specs.Stack.{Stack, IsStack, reserved, spilled, missing, freed};
ghost use Rattle.slot_arbiter.specs.declared.place.Place.{Place};
ghost use Rattle.patmos_code.specs.Images.{Parts};
ghost use Rattle.patmos_model.specs.Apart.{apart_at};
ghost use Rattle.patmos_model.specs.Bundle.{words_from, with_words, refilled};

/// The stack's words in the core's memory: words that were put there are read from there, and all others are as they
/// were; and what a reserve and a free have moved, an ensure of as many words as before brings back, so that the stack
/// is what it was. A law: it does nothing.
pub fn stack_words_come_back()
    ensures read { (memory : ℕ → ℕ) (from : ℕ) (words : List ℕ)
        → words_from (with_words from words memory) from (length words) ≡ words }
    ensures below { (memory : ℕ → ℕ) (from : ℕ) (words : List ℕ) (word : ℕ) → word < from
        → with_words from words memory word ≡ memory word }
    ensures past { (memory : ℕ → ℕ) (from : ℕ) (words : List ℕ) (word : ℕ) → from + length words ≤ word
        → with_words from words memory word ≡ memory word }
    ensures back { (count : ℕ) (s : Stack) (memory : ℕ → ℕ) → IsStack s → count ≤ STACK_CACHE_WORDS
        → STACK_LOWEST + count ≤ s.st
        → refilled (length s.words) (with_words (reserved count s).ss (spilled count s) memory)
        (freed count (reserved count s)) ≡ s }
{}

/// How many words a reserve writes and an ensure reads depends on the two pointers alone. A law: it does nothing.
pub fn stack_moves_by_pointers()
    ensures spills { (count : ℕ) (s : Stack) → IsStack s
        → length (spilled count s) ≡ count + (s.ss - s.st) - STACK_CACHE_WORDS }
    ensures fills { (count : ℕ) (s : Stack) → IsStack s → missing count s ≡ count - (s.ss - s.st) }
{}

/// In each cycle of a run apart the stack is one: the words held stand between its pointers, no more than the cache
/// has, in the stack's region of private memory. A law: it does nothing.
pub fn run_keeps_a_stack()
    ensures { (place : Place) (image : Parts) (input values : List ℕ) (cycles : ℕ)
        → IsStack (apart_at place image input values cycles).core.plain.stack }
{}
