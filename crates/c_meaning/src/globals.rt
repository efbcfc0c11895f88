//! What is declared outside functions, with the first slot of each name.
ghost use Rattle.std.specs.Prelude.{◌≡◌, ℕ, List, bytes_eq, Some, None, IfOk, OnOk, if◌then◌else◌};
ghost use Rattle.std.specs.Option.{option_copied, option_or};
ghost use Rattle.c_meaning.specs.Fits.{SlotsFit};
ghost use Rattle.c_meaning.specs.Globals.{first_in, slot_shown};
ghost use Rattle.c_meaning.specs.Scope.{among_slots};

use c_tree::Slot;
use std::alloc::{AllocError, Global};
use std::collections::HashMap;
use tc_word::OutOfMemory;

/// The slots of what is declared outside functions, which lie within their memories, and the first slot of each name.
#[derive(Debug, Drop)]
pub struct Globals<'a> {
    slots: &'a [Slot],
    first: HashMap<&'a str, &'a Slot>,
    ghost fit: { SlotsFit slots.now },
    ghost kept: { (name : List ℕ) → slot_shown (first_in first name) ≡ among_slots name slots.now },
}

// one slot more, which counts where its name has none yet
fn note<'a>(first: &mut HashMap<&'a str, &'a Slot>, slot: &'a Slot) -> Result<(), OutOfMemory>
    ensures { OnOk result ((name : List ℕ) → first_in first.new name
        ≡ option_or (first_in first.old name) (if bytes_eq slot.now.name name then Some slot.now else None)) }
{
    let name = slot.name.as_str();
    if first.contains_key(name) {
        return Ok(());
    }
    match first.insert(name, slot) {
        Ok(_) => Ok(()),
        Err(_) => Err(AllocError),
    }
}

impl<'a> Globals<'a> {
    /// The first slot of each name, among these.
    pub fn new(alloc: Global, slots: &'a [Slot]) -> Result<Globals<'a>, OutOfMemory>
        requires { SlotsFit slots.now }
        ensures { IfOk result (λ g. g.slots.now ≡ slots.now) }
    {
        let mut first = HashMap::new(alloc);
        for slot in slots {
            note(&mut first, slot)?;
        }
        Ok(Globals { slots, first })
    }

    /// The first slot so called.
    pub fn find(&self, name: &str) -> Option<&'a Slot>
        ensures { slot_shown (option_copied result) ≡ among_slots name.now self.now.slots.now }
    {
        self.first.get(name).copied()
    }
}
