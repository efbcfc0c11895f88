ghost use Rattle.std.specs.Prelude.{◌≡◌, ℕ, List, length, slice_index, vec_len, IfOk};
ghost use Rattle.local_store.specs.Memory.{refilled, zeros};

use crate::map::Cell;
use std::alloc::Global;
use std::marker::Model;
use tc_word::OutOfMemory;

/// How many words the scratchpad of a core has.
pub const SCRATCH_WORDS: usize = 2_048;

/// How many words the private memory of a core has.
pub const PRIVATE_WORDS: usize = 65_536;

/// How many words of it lie below the stack's region: those of a task's data and of its input.
pub const DATA_WORDS: usize = 49_152;

/// The word of it from which a task's data and its input stand. Word 0 takes the accesses of compiled
/// code that are off, and words 1 to 3 are unused.
pub const FIRST_DATA_WORD: u32 = 4;

/// How many words a task's input has at most.
pub const INPUT_WORDS: u32 = 4_096;

/// The scratchpad and the private memory of one core.
#[derive(Debug, Drop)]
pub struct Store {
    scratch: Vec<u32>,
    private: Vec<u32>,
}

impl Model for Store {
    ghost use Rattle.std.specs.Prelude.{◌≡◌, vec_len};
    ghost use Rattle.local_store.specs.Memory.{Memory};
    ghost use Rattle.local_store.specs.declared.store.TheConstants.{PRIVATE_WORDS, SCRATCH_WORDS};

    ghost Value = { Memory };

    ghost view = { λ s. record { scratch = s.scratch.items; private = s.private.items } };

    ghost invariant = { λ s. (vec_len s.scratch ≡ SCRATCH_WORDS) × (vec_len s.private ≡ PRIVATE_WORDS) };
}

impl Store {
    ghost use Rattle.std.specs.Prelude.{◌≡◌, IfOk};
    ghost use Rattle.std.specs.Borrow.{sem};
    ghost use Rattle.local_store.specs.Lending.{LendsPrivate};
    ghost use Rattle.local_store.specs.Memory.{IsOwn, cleared, with_word, word_at};

    /// A store whose words are all 0. It takes the memory for all of them.
    pub fn new(alloc: Global) -> Result<Store, OutOfMemory>
        ensures { IfOk result (λ store. store ≡ cleared) }
    {
        Ok(Store {
            scratch: zeros(alloc, SCRATCH_WORDS)?,
            private: zeros(alloc, PRIVATE_WORDS)?,
        })
    }

    /// The word in a cell of this store.
    pub fn read(&self, cell: Cell) -> u32
        requires { IsOwn cell }
        ensures { result ≡ word_at self.now cell }
    {
        match cell {
            Cell::Scratch(word) => self.scratch[word as usize],
            Cell::Private(word) => self.private[word as usize],
            Cell::Comm(_) | Cell::Port { .. } | Cell::Shared(_) => unreachable!(),
        }
    }

    /// Changes the word in a cell of this store, and no other.
    pub fn write(&mut self, cell: Cell, value: u32)
        requires { IsOwn cell }
        ensures { self.new ≡ with_word self.old cell value }
    {
        match cell {
            Cell::Scratch(word) => self.scratch[word as usize] = value,
            Cell::Private(word) => self.private[word as usize] = value,
            Cell::Comm(_) | Cell::Port { .. } | Cell::Shared(_) => unreachable!(),
        }
    }

    /// The words of private memory, to read and write.
    pub fn private(&mut self) -> &mut [u32]
        ensures* writes_back { sem 𝓛 (LendsPrivate self.entry result) }
        ensures words { result.now ≡ self.old.private }
    {
        self.private.as_mut_slice()
    }
}

/// So many words, all 0.
#[tactic(auto, unfolding(crate::specs::Memory::zeros))]
fn zeros(alloc: Global, count: usize) -> Result<Vec<u32>, OutOfMemory>
    ensures words { IfOk result (λ words. words.items ≡ zeros count) }
    ensures len { IfOk result (λ words. vec_len words ≡ count) }
{
    vec![in alloc; 0; count]
}

/// What the words of a store are at first, and what lending them keeps. A law: it does nothing.
#[tactic(auto, unfolding(crate::specs::Memory::zeros))]
pub fn words_of_a_store()
    ensures all_zero { (count word : ℕ) → slice_index (zeros count) word ≡ 0 }
    ensures so_many { (count : ℕ) → length (zeros count) ≡ count }
    ensures refilled { (old words : List ℕ) → length words ≡ length old → refilled old words ≡ words }
{}

#[cfg(test)]
mod tests {
    use super::*;
    use std::test::Fail;

    #[test]
    fn a_write_changes_one_word(rt: HostRuntime) -> Result<(), Fail> {
        let mut store = Store::new(rt.alloc())?;
        store.write(Cell::Scratch(2047), 7);
        store.write(Cell::Private(65_535), 9);
        assert_eq!(rt;
            (
                store.read(Cell::Scratch(2047)),
                store.read(Cell::Private(65_535))
            ),
            (7, 9)
        );
        assert_eq!(rt;
            (
                store.read(Cell::Scratch(0)),
                store.read(Cell::Private(2047))
            ),
            (0, 0)
        );
        let private = store.private();
        if private.len() == 65_536 {
            private[1] = 5;
        }
        assert_eq!(rt; store.read(Cell::Private(1)), 5);
        Ok(())
    }
}
