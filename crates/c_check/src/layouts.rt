//! Where a program's variables and arrays stand.
ghost use Rattle.std.specs.Prelude.{◌≡◌, ◌+◌, ◌^◌, ◌<◌, ◌≤◌, false, true, map, if◌then◌else◌, IfOk};
ghost use Rattle.c_tree.specs.Layout.{slot_of, layout_of};
ghost use Rattle.c_tree.specs.Plain.{plain_item};
ghost use Rattle.c_tree.specs.Valid.{words_of, words_in};
ghost use Rattle.c_tree.specs.declared.limits.TheConstants.{MOST_PRIVATE_WORDS, MOST_SCRATCH_WORDS};

use crate::units::words;
use c_tree::{Global, Item, Kind, Slot};
use local_store::{COMM_WORDS, Cell, FIRST_DATA_WORD, SHARED_WORDS};
use std::alloc;
use tc_word::{List, OutOfMemory, Text};

fn copied(alloc: alloc::Global, text: &str) -> Result<Text, OutOfMemory>
    ensures { IfOk result (λ t. t ≡ text.now) }
{
    Ok(Text::of(String::from_str(alloc, text)?))
}

// where a variable or an array stands, after so many words
fn slot(alloc: alloc::Global, private: u32, scratch: u32, g: &Global) -> Result<Slot, OutOfMemory>
    ensures { IfOk result (λ s. s ≡ slot_of private scratch g.now) }
{
    let name = copied(alloc, g.name.as_str())?;
    let cell = if g.scratch {
        Cell::Scratch(scratch)
    } else {
        Cell::Private(private)
    };
    Ok(Slot {
        name,
        cell,
        length: words(g),
        unsigned: g.kind != Kind::Int,
    })
}

// the words of a region, with those of one declaration more
fn grown(region: u32, belongs: bool, g: &Global) -> u32
    requires { region + (if belongs then words_of g.now else 0) < 2 ^ 32 }
    ensures { result ≡ region + (if belongs then words_of g.now else 0) }
{
    if belongs { region + words(g) } else { region }
}

/// Where the variables and arrays stand.
#[tactic(auto, using(crate::proofs::Next::slots_next, crate::proofs::Next::words_next))]
pub fn layout(alloc: alloc::Global, items: &[Item]) -> Result<List<Slot>, OutOfMemory>
    requires private { words_in false (map plain_item items.now) ≤ MOST_PRIVATE_WORDS }
    requires scratch { words_in true (map plain_item items.now) ≤ MOST_SCRATCH_WORDS }
    ensures { IfOk result (λ slots. slots ≡ layout_of (map plain_item items.now)) }
{
    let mut slots = Vec::new(alloc);
    let mut private = FIRST_DATA_WORD;
    let mut scratch = 0;
    for i in items {
        if let Item::Global { global: g } = i {
            slots.push(slot(alloc, private, scratch, g)?)?;
            private = grown(private, !g.scratch, g);
            scratch = grown(scratch, g.scratch, g);
        }
    }
    slots.push(Slot {
        name: copied(alloc, "shared")?,
        cell: Cell::Shared(0),
        length: SHARED_WORDS,
        unsigned: false,
    })?;
    slots.push(Slot {
        name: copied(alloc, "comm")?,
        cell: Cell::Comm(0),
        length: COMM_WORDS,
        unsigned: false,
    })?;
    Ok(List::of(slots))
}
