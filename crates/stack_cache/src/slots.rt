ghost use Rattle.std.specs.Prelude.{◌≡◌, ℕ, ◌+◌, ◌-◌, ◌<◌, ◌≤◌, length, slice_index};
ghost use Rattle.stack_cache.specs.Slots.{held, slot};
ghost use Rattle.stack_cache.specs.Stack.{with_words};

/// How many words the cache has, and so how many a stack instruction moves at most. Word `w` of
/// private memory has slot `w` mod [`STACK_CACHE_WORDS`].
pub const STACK_CACHE_WORDS: u32 = 128;

/// Writes the words from one to before another to private memory, each to its own place.
#[tactic(auto, using(crate::proofs::Memory::none_written, crate::proofs::Memory::one_more_written))]
pub fn spill(slots: &[u32; STACK_CACHE_WORDS as usize], from: u32, to: u32, private: &mut [u32])
    requires order { from ≤ to }
    requires within { to ≤ length private.old }
    ensures { private.new ≡ with_words private.old from (held slots.now from (to - from)) }
{
    for word in from..to {
        private[word as usize] = slots[(word % STACK_CACHE_WORDS) as usize];
    }
}

/// Makes the words from one to before another 0, and leaves those that follow them.
pub fn clear(slots: &mut [u32; STACK_CACHE_WORDS as usize], from: u32, to: u32)
    requires { to ≤ from + STACK_CACHE_WORDS }
    ensures zeros { (word : ℕ) → from ≤ word → word < to → slot slots.new word ≡ 0 }
    ensures others { (word : ℕ) → to ≤ word → word < from + STACK_CACHE_WORDS
        → slot slots.new word ≡ slot slots.old word }
{
    for word in from..to {
        slots[(word % STACK_CACHE_WORDS) as usize] = 0;
    }
}

/// Reads the words from one to before another from private memory, and leaves those before them.
pub fn fill(slots: &mut [u32; STACK_CACHE_WORDS as usize], from: u32, to: u32, private: &[u32])
    requires few { to ≤ from + STACK_CACHE_WORDS }
    requires within { to ≤ length private.now }
    ensures filled { (word : ℕ) → from ≤ word → word < to → slot slots.new word ≡ slice_index private.now word }
    ensures others { (word : ℕ) → word < from → to ≤ word + STACK_CACHE_WORDS
        → slot slots.new word ≡ slot slots.old word }
{
    for word in from..to {
        slots[(word % STACK_CACHE_WORDS) as usize] = private[word as usize];
    }
}
