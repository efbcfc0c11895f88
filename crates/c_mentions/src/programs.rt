//! What whole programs mention.
ghost use Rattle.std.specs.Prelude.{◌≡◌, ℕ, ◌<◌, ◌^◌, ◌||◌, [], List, codes};
ghost use Rattle.c_tree.specs.declared.layout.Slot.{Slot};
ghost use Rattle.c_tree.specs.Layout.{layout_of};
ghost use Rattle.c_tree.specs.Plain.{plain_item, plain};
ghost use Rattle.c_meaning.specs.Meaning.{parameter_variables};
ghost use Rattle.c_mentions.specs.Bits.{has_bit};
ghost use Rattle.c_mentions.specs.Hidden.{Hides, declares};
ghost use Rattle.c_mentions.specs.Mentions.{comm_array, shared_array, mentions, assigns, sends_to};
ghost use Rattle.c_mentions.specs.Noted.{with_uses, none_noted};
ghost use Rattle.c_mentions.specs.Uses.{item_uses, program_uses};
ghost use Rattle.slot_arbiter.specs.declared.table.TheConstants.{MOST_CORES};

use crate::arrays::{Arrays, hidden_behind};
use crate::mentioned::{Mentions, bits_of};
use crate::noted::{Flags, nothing_noted};
use crate::statements::note_block;
use c_tree::{Item, Parameter, Unit};

// which arrays are hidden where a function's parameters are open
fn hidden_within(hidden: Arrays, parameters: &[Parameter]) -> Arrays
    ensures { (slots : List Slot) → Hides hidden (record { slots = slots; variables = [] })
        → Hides result (record { slots = slots; variables = parameter_variables parameters.now }) }
{
    let mut behind = hidden;
    for parameter in parameters {
        behind = hidden_behind(behind, parameter.name.as_str());
    }
    behind
}

fn note_item(m: &mut Flags, hidden: Arrays, item: &Item)
    ensures { (slots : List Slot) → Hides hidden (record { slots = slots; variables = [] })
        → m.new ≡ with_uses m.old (item_uses slots (plain_item item.now)) }
{
    match item {
        Item::Global { .. } => {}
        Item::Function { function } => {
            let behind = hidden_within(hidden, function.parameters.as_slice());
            note_block(m, behind, function.body.as_slice());
        }
    }
}

// the arrays that are hidden by a variable outside functions
fn hidden_by(hidden: Arrays, item: &Item) -> Arrays
    ensures comm { result.comm ≡ (hidden.comm || declares (codes "comm") (plain_item item.now)) }
    ensures shared { result.shared ≡ (hidden.shared || declares (codes "shared") (plain_item item.now)) }
{
    match item {
        Item::Global { global } => hidden_behind(hidden, global.name.as_str()),
        Item::Function { .. } => hidden,
    }
}

// which arrays are hidden by variables outside functions
fn hidden_outside(unit: &Unit) -> Arrays
    ensures { Hides result (record { slots = layout_of (plain unit.now); variables = [] }) }
{
    let mut hidden = Arrays {
        comm: false,
        shared: false,
    };
    for item in unit.items.as_slice() {
        hidden = hidden_by(hidden, item);
    }
    hidden
}

// all uses of a program, noted
fn noted(unit: &Unit) -> Flags
    ensures { result ≡ with_uses none_noted (program_uses (plain unit.now)) }
{
    let hidden = hidden_outside(unit);
    let mut m = nothing_noted();
    for item in unit.items.as_slice() {
        note_item(&mut m, hidden, item);
    }
    m
}

/// What a program mentions. It takes time linear in the program's length, and goes only as deep as the program.
pub fn mentions_of(unit: &Unit) -> Mentions
    ensures comm { result.comm ≡ mentions comm_array (plain unit.now) }
    ensures shared { result.shared ≡ mentions shared_array (plain unit.now) }
    ensures assigns_shared { result.assigns_shared ≡ assigns shared_array (plain unit.now) }
    ensures sends { (core : ℕ) → core < MOST_CORES → has_bit core result.sends ≡ sends_to core (plain unit.now) }
    ensures small { result.sends < 2 ^ 16 }
{
    let flags = noted(unit);
    Mentions {
        comm: flags.comm,
        shared: flags.shared,
        assigns_shared: flags.assigns_shared,
        sends: bits_of(flags.sends),
    }
}
