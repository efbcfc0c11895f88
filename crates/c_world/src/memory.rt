//! The memories of a C task in code.
ghost use Rattle.std.specs.Prelude.{◌≡◌, ◌+◌, ◌<◌, ◌≤◌, List, length, slice_index, replicate, vec_len, IfOk};
ghost use Rattle.c_world.specs.World.{Sending, fresh, words_in, word_at, with_word, element, with_element, with_overrun};
ghost use Rattle.c_world.specs.Shown.{shown, rooms, room_in, fresh_rooms};

use crate::region::Region;
use local_store::{COMM_WORDS, SCRATCH_WORDS, SHARED_WORDS};
use std::alloc::Global;
use tc_word::OutOfMemory;

/// The memories of a C task, and whether a loop went past its bound.
#[derive(Debug, Drop)]
pub struct Memory {
    pub scratch: Vec<u32>,
    pub comm: Vec<u32>,
    pub private: Vec<u32>,
    pub shared: Vec<u32>,
    pub overrun: bool,
}

impl Memory {
    /// Memories whose words are all 0, with so many words of private memory.
    pub fn new(alloc: Global, private: usize) -> Result<Memory, OutOfMemory>
        ensures world { IfOk result (λ m. (sends : List Sending) → shown m sends ≡ fresh sends) }
        ensures room { IfOk result (λ m. rooms m ≡ fresh_rooms private) }
    {
        Ok(Memory {
            scratch: zeros(alloc, SCRATCH_WORDS)?,
            comm: zeros(alloc, COMM_WORDS as usize)?,
            private: zeros(alloc, private)?,
            shared: zeros(alloc, SHARED_WORDS as usize)?,
            overrun: false,
        })
    }

    /// The words of a memory.
    pub fn words(&self, region: Region) -> &[u32]
        ensures words { (sends : List Sending) → slice_index result.now ≡ words_in region (shown self.now sends) }
        ensures room { length result.now ≡ room_in region (rooms self.now) }
    {
        match region {
            Region::Scratch => &self.scratch,
            Region::Comm => &self.comm,
            Region::Private => &self.private,
            Region::Shared => &self.shared,
        }
    }

    /// The word with this number in a memory; 0 where there is none.
    #[tactic(auto, using(tc_word::proofs::Items::past_all))]
    pub fn word(&self, region: Region, word: usize) -> u32
        ensures { (sends : List Sending) → result ≡ word_at region word (shown self.now sends) }
    {
        let words = self.words(region);
        if word < words.len() { words[word] } else { 0 }
    }

    /// Sets the word with this number in a memory, and no other.
    #[tactic(auto, using(shared_order::proofs::Words::words_put))]
    pub fn set_word(&mut self, region: Region, word: usize, value: u32)
        requires { word < room_in region (rooms self.old) }
        ensures world { (sends : List Sending)
            → shown self.new sends ≡ with_word region word value (shown self.old sends) }
        ensures room { rooms self.new ≡ rooms self.old }
    {
        match region {
            Region::Scratch => self.scratch[word] = value,
            Region::Comm => self.comm[word] = value,
            Region::Private => self.private[word] = value,
            Region::Shared => self.shared[word] = value,
        }
    }

    /// The element of an array that begins at a word and has so many; 0 at or past its end.
    pub fn element(&self, region: Region, first: u32, length: u32, index: u32) -> u32
        ensures { (sends : List Sending) → result ≡ element region first length index (shown self.now sends) }
    {
        if index < length {
            self.word(region, first as usize + index as usize)
        } else {
            0
        }
    }

    /// Sets the element of an array; nothing at or past its end.
    pub fn set_element(&mut self, region: Region, first: u32, length: u32, index: u32, value: u32)
        requires { first + length ≤ room_in region (rooms self.old) }
        ensures world { (sends : List Sending) → shown self.new sends
            ≡ with_element region first length index value (shown self.old sends) }
        ensures room { rooms self.new ≡ rooms self.old }
    {
        if index < length {
            self.set_word(region, first as usize + index as usize, value);
        }
    }

    /// A loop's condition was tested after its last iteration.
    pub fn overran(&mut self, held: bool)
        ensures world { (sends : List Sending) → shown self.new sends ≡ with_overrun held (shown self.old sends) }
        ensures room { rooms self.new ≡ rooms self.old }
    {
        self.overrun = self.overrun || held;
    }
}

fn zeros(alloc: Global, count: usize) -> Result<Vec<u32>, OutOfMemory>
    ensures words { IfOk result (λ v. v.items ≡ replicate count 0) }
    ensures len { IfOk result (λ v. vec_len v ≡ count) }
{
    vec![in alloc; 0; count]
}
