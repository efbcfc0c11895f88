//! What a program's variables and arrays begin with, and where its input lies.
ghost use Rattle.std.specs.Prelude.{◌≡◌, ◌≤◌, ◌++◌, false, OnOk, OnErr, map, take, vec_len};
ghost use Rattle.c_tree.specs.declared.limits.TheConstants.{MOST_PRIVATE_WORDS};
ghost use Rattle.c_tree.specs.Layout as layout;
ghost use Rattle.c_tree.specs.Plain.{plain_item};
ghost use Rattle.c_tree.specs.Plain as tree;
ghost use Rattle.c_tree.specs.Valid.{words_in, words_of};

use c_tree::{Const, Global, Item};
use local_store::FIRST_DATA_WORD;
use std::alloc::AllocError;
use tc_word::OutOfMemory;

/// Where the input lies in private memory, and how many words of it there is room for.
#[derive(Clone, Copy, Debug, PartialEq, Eq)]
pub struct InputPlace {
    pub at: usize,
    pub room: usize,
}

/// Adds the words that a program's variables and arrays in private memory begin with, in order, after others. It is
/// `Err` where memory runs out, and then changes nothing.
#[tactic(auto, using(crate::proofs::Declarations::initial_next, crate::proofs::Declarations::kept_through))]
pub fn add_initial(words: &mut Vec<u32>, items: &[Item]) -> Result<(), OutOfMemory>
    ensures added { OnOk result (words.new.items ≡ words.old.items ++ layout.initial_of (map plain_item items.now)) }
    ensures unchanged { OnErr result (words.new.items ≡ words.old.items) }
{
    let before = words.len();
    for item in items {
        if add_item(words, item).is_err() {
            words.truncate(before);
            return Err(AllocError);
        }
    }
    Ok(())
}

// the first words of what an item declares in private memory
#[tactic(auto, using(crate::proofs::Declarations::kept_first))]
fn add_item(words: &mut Vec<u32>, item: &Item) -> Result<(), OutOfMemory>
    ensures added { OnOk result (words.new.items ≡ words.old.items ++ layout.item_initial (plain_item item.now)) }
    ensures kept { take (vec_len words.old) words.new.items ≡ words.old.items }
{
    match item {
        Item::Global { global } => {
            if global.scratch {
                return Ok(());
            }
            add_global(words, global)
        }
        Item::Function { .. } => Ok(()),
    }
}

// the first values, and 0 after them
#[tactic(auto, using(crate::proofs::Declarations::kept_first))]
fn add_global(words: &mut Vec<u32>, global: &Global) -> Result<(), OutOfMemory>
    ensures added { OnOk result (words.new.items ≡ words.old.items ++ layout.first_words global.now) }
    ensures kept { take (vec_len words.old) words.new.items ≡ words.old.items }
{
    let before = words.len();
    add_values(words, global.initial.as_slice())?;
    let behind = before.saturating_add(word_count(global));
    if words.len() < behind {
        words.resize(behind, 0)?;
    }
    Ok(())
}

#[tactic(auto, using(crate::proofs::Declarations::kept_first))]
fn add_values(words: &mut Vec<u32>, values: &[Const]) -> Result<(), OutOfMemory>
    ensures added { OnOk result (words.new.items ≡ words.old.items ++ map layout.const_word values.now) }
    ensures kept { take (vec_len words.old) words.new.items ≡ words.old.items }
{
    for value in values {
        words.push(const_word(value))?;
    }
    Ok(())
}

// the word of a constant
fn const_word(constant: &Const) -> u32
    ensures { result ≡ layout.const_word constant.now }
{
    if constant.negative {
        constant.value.wrapping_neg()
    } else {
        constant.value
    }
}

// how many words a variable or an array has
fn word_count(global: &Global) -> usize
    ensures { result ≡ words_of global.now }
{
    match global.length {
        None => 1,
        Some(length) => length.value as usize,
    }
}

// an array `in` in private memory takes the input
fn takes_input(global: &Global) -> bool
    ensures { result ≡ layout.takes_input (tree.global global.now) }
{
    global.name.as_str() == "in" && global.length.is_some() && !global.scratch
}

/// Where the input lies: the first array that takes it; else at the first private word, with room for none.
#[tactic(auto, using(crate::proofs::Declarations::input_next))]
pub fn input_place(items: &[Item]) -> InputPlace
    requires { words_in false (map plain_item items.now) ≤ MOST_PRIVATE_WORDS }
    ensures at { result.at ≡ (layout.input_of (map plain_item items.now)).at }
    ensures room { result.room ≡ (layout.input_of (map plain_item items.now)).room }
{
    let mut at = FIRST_DATA_WORD as usize;
    for item in items {
        if let Item::Global { global } = item {
            if takes_input(global) {
                return InputPlace {
                    at,
                    room: word_count(global),
                };
            }
            if !global.scratch {
                at += word_count(global);
            }
        }
    }
    InputPlace {
        at: FIRST_DATA_WORD as usize,
        room: 0,
    }
}
