ghost use Rattle.std.specs.Prelude.{◌≡◌, ℕ, ◌<◌, IfOk, length, slice_index};
ghost use Rattle.argo_ni.specs.Packet as packets;
ghost use Rattle.patmos_step.specs.Asks.{AskFits};
ghost use Rattle.pipe_five.specs.Board.{Hears, stored_by, completed, CompletesWithin};

use patmos_model::PendingStore;
use patmos_step::{Ask, comm_word};
use std::alloc::Global;
use tc_word::OutOfMemory;

/// The words of the board of a platform of one core, all 0: those of shared memory, and of its communication memory.
pub fn zeros(alloc: Global) -> Result<Vec<u32>, OutOfMemory>
    ensures words { IfOk result (λ words. (word : ℕ) → slice_index words.items word ≡ 0) }
    ensures sized { IfOk result (λ words. length words.items ≡ packets.comm_word 1 0) }
{
    let words = vec![in alloc; 0; comm_word(1, 0) as usize]?;
    Ok(words)
}

/// What the loads that are asked for give.
pub fn values_of(words: &[u32], ask: &Ask) -> [u32; 4]
    requires within { AskFits (length words.now) ask.now }
    ensures { Hears ask.now (slice_index words.now) result }
{
    match *ask {
        Ask::Nothing | Ask::Store { .. } => [0; 4],
        Ask::Load { word } | Ask::Change { word } => [words[word as usize], 0, 0, 0],
        Ask::Line { word } => {
            let at = word as usize;
            [words[at], words[at + 1], words[at + 2], words[at + 3]]
        }
    }
}

/// Makes the store that is asked for, and the one that is then pending.
pub fn complete(words: &mut Vec<u32>, ask: &Ask, pending_store: Option<PendingStore>)
    requires within { AskFits (length words.old.items) ask.now }
    requires completes { CompletesWithin (length words.old.items) pending_store }
    ensures words { (w : ℕ) → slice_index words.new.items w
        ≡ completed pending_store (stored_by ask.now (slice_index words.old.items)) w }
    ensures sized { length words.new.items ≡ length words.old.items }
{
    store_asked(words, ask);
    store_pending(words, pending_store);
}

// makes the store that is asked for
#[tactic(auto, using(shared_order::proofs::Words::word_put))]
fn store_asked(words: &mut Vec<u32>, ask: &Ask)
    requires within { AskFits (length words.old.items) ask.now }
    ensures words { (w : ℕ) → slice_index words.new.items w ≡ stored_by ask.now (slice_index words.old.items) w }
    ensures sized { length words.new.items ≡ length words.old.items }
{
    match *ask {
        Ask::Store { word, value } => words[word as usize] = value,
        Ask::Nothing | Ask::Load { .. } | Ask::Line { .. } | Ask::Change { .. } => {}
    }
}

// makes a pending store
#[tactic(auto, using(shared_order::proofs::Words::word_put))]
fn store_pending(words: &mut Vec<u32>, pending_store: Option<PendingStore>)
    requires completes { CompletesWithin (length words.old.items) pending_store }
    ensures words { (w : ℕ) → slice_index words.new.items w ≡ completed pending_store (slice_index words.old.items) w }
    ensures sized { length words.new.items ≡ length words.old.items }
{
    match pending_store {
        Some(store) => words[store.word as usize] = store.value,
        None => {}
    }
}
