ghost use Rattle.std.specs.Prelude.{◌≡◌, ℕ, ◌+◌, ◌-◌, ◌%◌, ◌<◌, ◌≤◌, ◌⊎◌, ◌↔◌, List, length, slice_index, slice_set, IfOk, IfNone, IsErrOf, IsSome, OnErr, OnOk, OnSome, SomeIff};
ghost use Rattle.stack_cache.specs.Stack.{IsStack, Stack, empty, filled, freed, missing, reserved, spilled, with_spilled};

use crate::fault::StackFault;
use crate::slots::{self, STACK_CACHE_WORDS};
use local_store::{DATA_WORDS, PRIVATE_WORDS};
use std::marker::Model;

/// The lowest word of private memory that a task's stack may use.
pub const STACK_LOWEST: u32 = DATA_WORDS as u32;

/// The word of private memory after a task's stack, where the stack begins.
pub const STACK_END: u32 = PRIVATE_WORDS as u32;

/// The words of the stack that stand in the cache, and its two pointers.
#[derive(Debug, Drop)]
pub struct StackCache {
    st: u32,
    ss: u32,
    slots: [u32; STACK_CACHE_WORDS as usize],
}

impl Model for StackCache {
    ghost use Rattle.stack_cache.specs.Slots.{shown, AreInRange};
    ghost use Rattle.stack_cache.specs.Stack.{Stack};

    ghost Value = { Stack };

    ghost view = { λ c. shown c.st c.ss c.slots };

    ghost invariant = { λ c. AreInRange c.st c.ss };
}

impl StackCache {
    /// The cache of a task that begins: both pointers are [`STACK_END`], and no word is held.
    #[tactic(auto, unfolding(crate::specs::Slots::held))]
    pub fn new() -> StackCache
        ensures { result ≡ empty }
    {
        StackCache {
            st: STACK_END,
            ss: STACK_END,
            slots: [0; STACK_CACHE_WORDS as usize],
        }
    }

    /// The top of the stack: the number of its first word.
    pub fn st(&self) -> u32
        ensures value { result ≡ self.now.st }
        ensures stack { IsStack self.now }
    {
        self.st
    }

    /// The number of the first word that is not held: the stack from there on is in private memory.
    pub fn ss(&self) -> u32
        ensures value { result ≡ self.now.ss }
        ensures stack { IsStack self.now }
    {
        self.ss
    }

    /// Puts `n` words on top of the stack, all 0, and gives how many words it spilled. Private
    /// memory is changed in the spilled words alone.
    pub fn reserve(&mut self, n: u32, private: &mut [u32]) -> Result<u32, StackFault>
        requires { length private.old ≡ STACK_END }
        ensures over { IsErrOf result StackFault.Over ↔ (STACK_CACHE_WORDS < n) }
        ensures under { IsErrOf result StackFault.Under ↔ ((n ≤ STACK_CACHE_WORDS) × (self.old.st < STACK_LOWEST + n)) }
        ensures stack { OnOk result (self.new ≡ reserved n self.old) }
        ensures spilled { OnOk result (private.new ≡ with_spilled n self.old private.old) }
        ensures moved { IfOk result (λ words. words ≡ length (spilled n self.old)) }
        ensures few { IfOk result (λ words. words ≤ STACK_CACHE_WORDS) }

        // Word by word, whatever the result: the words from the new `ss` to before the old one are
        // spilled, and all of private memory below and above them is as it was.
        ensures own { (word : ℕ) → self.new.ss ≤ word → word < self.old.ss
            → slice_index private.new word ≡ slice_index self.old.words (word - self.old.st) }
        ensures others { (word : ℕ) → (word < self.new.ss) ⊎ (self.old.ss ≤ word)
            → slice_index private.new word ≡ slice_index private.old word }
        ensures refused { OnErr result (self.new ≡ self.old) }
        ensures kept { OnErr result (private.new ≡ private.old) }
    {
        check(n, self.st - STACK_LOWEST)?;
        let st = self.st - n;
        let ss = self.ss.min(st + STACK_CACHE_WORDS);
        let moved = self.ss - ss;
        slots::spill(&self.slots, ss, self.ss, private);
        slots::clear(&mut self.slots, st, self.st);
        self.st = st;
        self.ss = ss;
        Ok(moved)
    }

    /// Brings words back from private memory until at least `n` are held, and gives how many.
    pub fn ensure(&mut self, n: u32, private: &[u32]) -> Result<u32, StackFault>
        requires { length private.now ≡ STACK_END }
        ensures over { IsErrOf result StackFault.Over ↔ (STACK_CACHE_WORDS < n) }
        ensures under { IsErrOf result StackFault.Under ↔ ((n ≤ STACK_CACHE_WORDS) × (STACK_END < self.old.st + n)) }
        ensures stack { OnOk result (self.new ≡ filled n private.now self.old) }
        ensures moved { IfOk result (λ words. words ≡ missing n self.old) }
        ensures few { IfOk result (λ words. words ≤ STACK_CACHE_WORDS) }
        ensures refused { OnErr result (self.new ≡ self.old) }
    {
        check(n, STACK_END - self.st)?;
        let ss = self.ss.max(self.st + n);
        let moved = ss - self.ss;
        slots::fill(&mut self.slots, self.ss, ss, private);
        self.ss = ss;
        Ok(moved)
    }

    /// Takes `n` words off the stack. It moves no data.
    pub fn free(&mut self, n: u32) -> Result<(), StackFault>
        ensures over { IsErrOf result StackFault.Over ↔ (STACK_CACHE_WORDS < n) }
        ensures under { IsErrOf result StackFault.Under ↔ ((n ≤ STACK_CACHE_WORDS) × (STACK_END < self.old.st + n)) }
        ensures stack { OnOk result (self.new ≡ freed n self.old) }
        ensures refused { OnErr result (self.new ≡ self.old) }
    {
        check(n, STACK_END - self.st)?;
        self.st += n;
        self.ss = self.ss.max(self.st);
        Ok(())
    }

    /// The word `i` words above the top, or `None` exactly where it is not held.
    pub fn get(&self, i: u32) -> Option<u32>
        ensures { SomeIff result (self.now.st + i < self.now.ss) (slice_index self.now.words i) }
    {
        let slot = self.slot_of(i)?;
        Some(self.slots[slot])
    }

    /// Changes the word `i` words above the top and no other, or nothing, with `None`, exactly
    /// where it is not held.
    pub fn set(&mut self, i: u32, value: u32) -> Option<()>
        ensures held { IsSome result ↔ (self.old.st + i < self.old.ss) }
        ensures word { OnSome result (self.new ≡ record self.old { words = slice_set self.old.words i value }) }
        ensures refused { IfNone result (self.new ≡ self.old) }
    {
        let slot = self.slot_of(i)?;
        self.slots[slot] = value;
        Some(())
    }

    /// The slot of the word `i` words above the top, if it is held.
    fn slot_of(&self, i: u32) -> Option<usize>
        ensures { SomeIff result (self.now.st + i < self.now.ss) ((self.now.st + i) % STACK_CACHE_WORDS) }
    {
        if i >= self.ss - self.st {
            return None;
        }
        Some(((self.st + i) % STACK_CACHE_WORDS) as usize)
    }
}

/// Refuses a count that is above [`STACK_CACHE_WORDS`], or for which a pointer has no room.
fn check(n: u32, room: u32) -> Result<(), StackFault>
    ensures over { IsErrOf result StackFault.Over ↔ (STACK_CACHE_WORDS < n) }
    ensures under { IsErrOf result StackFault.Under ↔ ((n ≤ STACK_CACHE_WORDS) × (room < n)) }
    ensures ok { OnOk result ((n ≤ STACK_CACHE_WORDS) × (n ≤ room)) }
{
    if n > STACK_CACHE_WORDS {
        Err(StackFault::Over)
    } else if n > room {
        Err(StackFault::Under)
    } else {
        Ok(())
    }
}

/// What a call reserves and frees again, its caller finds as it was, once it ensures as many words
/// as it had. A law: it does nothing.
pub fn words_come_back()
    ensures { (n : ℕ) (s : Stack) (private : List ℕ) → IsStack s → length private ≡ STACK_END
        → n ≤ STACK_CACHE_WORDS → STACK_LOWEST + n ≤ s.st
        → filled (length s.words) (with_spilled n s private) (freed n (reserved n s)) ≡ s }
{}
